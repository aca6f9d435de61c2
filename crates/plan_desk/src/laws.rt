//! Laws of the office. The functions do nothing; proofs in the crates above cite their contracts.

ghost use Rattle.plan_desk.specs.Promises.{PagesArePromised};
ghost use Rattle.plan_desk.specs.SomeDecisions.{SomeDecision};
ghost use Rattle.plan_desk.specs.Laws.{OneDecision, OrderIsUnseen, AgreeingViewsAreToldAlike};
ghost use Rattle.plan_desk.specs.Laws.{StepsKeepRules, AloneKeepsRules, OutsideIsUnseen};
ghost use Rattle.plan_desk.specs.Laws.{DesksAreApart, ToldIsStory, StoriesAreToldAlike};

/// For a view and a request there is at most one reply and one change.
pub fn one_decision()
    ensures { OneDecision }
{}

/// In each view of an office whose rows keep their rules, each request has a reply and a change.
pub fn some_decision()
    ensures { SomeDecision }
{}

/// A request that doesn't belong to a desk doesn't change what the desk sees.
pub fn outside_is_unseen()
    ensures { OutsideIsUnseen }
{}

/// No desk sees another. A desk receives the replies that its own requests receive in an office
/// that has its rows and no others. Requests of other desks before or between make no difference.
/// Equal stories in one view receive equal replies. After one of the desk's requests is refused for
/// lack of memory or by the store, nothing more is claimed.
pub fn desks_are_apart()
    ensures apart { DesksAreApart }
    ensures story { ToldIsStory }
    ensures alike { StoriesAreToldAlike }
{}

/// A step keeps the rules of rows. An office that has the rows of one desk alone keeps them too.
pub fn steps_keep_rules()
    ensures steps { StepsKeepRules }
    ensures alone { AloneKeepsRules }
{}

/// The order in which rows were written makes no difference. Views of the same rows decide alike,
/// and equal stories in them receive equal replies, whatever other requests come before or between.
/// So two offices that published the same codes in different orders agree.
pub fn order_is_unseen()
    ensures decisions { OrderIsUnseen }
    ensures stories { AgreeingViewsAreToldAlike }
{}

/// Each page shows what it promises. Dates are greatest lengths of paths, and schedules are
/// feasible and active. A schedule that is called optimal has the least makespan of all feasible
/// ones. Pages use the plan's file, the lags of the desk, and the capacities that are bound and
/// published at that moment.
pub fn pages_are_promised()
    ensures { PagesArePromised }
{}
