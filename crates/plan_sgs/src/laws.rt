//! Laws of the definitions that proofs of other crates cite. The functions do nothing.

ghost use Rattle.plan_sgs.specs.Laws.{EarliestIsLeast, SerialIsActive, RuleTakesFirst};
ghost use Rattle.plan_sgs.specs.Laws.{SerialIsNoLater, ByStartsIsNoLonger, LeastOfOrdersIsShortest};

/// The earliest start of an activity is the least instant from its release on at which it fits
/// beside the activities placed before it. No activity of positive duration may need more than a
/// capacity.
pub fn earliest_is_least()
    ensures { EarliestIsLeast }
{}

/// The serial schedule of an activity list, an order of all activities with each after its
/// predecessors, is active: it is feasible, and no activity can start earlier while all others keep
/// their starts (Sprecher, Kolisch and Drexl 1995).
pub fn serial_is_active()
    ensures { SerialIsActive }
{}

/// The list of a priority rule is an activity list for every key. Each entry is the first, by the
/// key and then by the number, of the activities that are eligible in its turn.
pub fn rule_takes_first()
    ensures { RuleTakesFirst }
{}

/// If an activity list is sorted by the starts of a feasible schedule, its serial schedule starts
/// no activity later than that schedule.
pub fn serial_is_no_later()
    ensures { SerialIsNoLater }
{}

/// The order by the starts of a feasible schedule is an activity list, and its serial schedule is
/// no longer than that schedule.
pub fn by_starts_is_no_longer()
    ensures { ByStartsIsNoLonger }
{}

/// A serial schedule of least makespan among all serial schedules is a shortest feasible schedule.
pub fn least_of_orders_is_shortest()
    ensures { LeastOfOrdersIsShortest }
{}
