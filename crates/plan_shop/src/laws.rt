//! Laws of the definitions that proofs of other crates cite. The functions do nothing.

ghost use Rattle.plan_shop.specs.Shop.{JobShop, IsShop};
ghost use Rattle.plan_shop.specs.Rules.{Chooses, spt, mwkr, fcfs};
ghost use Rattle.plan_shop.specs.Laws.{
  ArcsAreNeighbours,
  NeedsAreMachines,
  CapacitiesKeepApart,
  FullIsFeasible,
  FullIsActive,
  ActiveIsSpelled,
  RuleIsFull,
  RuleIsActive,
  RulesChoose,
  LettersAreThese,
  ShopLettersRise,
  ShopWordsAreFinite,
  BoundIsLeast,
  ShopBoundHolds,
  LetterIsThere,
  WordsReach,
  LeastWordIsShortest,
};

/// The scheduling problem of a shop requires that each step follows its predecessor in the job and
/// that no two steps of positive time overlap on a machine.
pub fn problems_of_shops()
    ensures arcs { (s : JobShop) → IsShop s → ArcsAreNeighbours s }
    ensures needs { (s : JobShop) → NeedsAreMachines s }
    ensures apart { (s : JobShop) → IsShop s → CapacitiesKeepApart s }
{}

/// The schedules of full words are the active ones: they are feasible, and no single step can start
/// earlier.
pub fn full_words_are_active()
    ensures feasible { (s : JobShop) → IsShop s → FullIsFeasible s }
    ensures active { (s : JobShop) → IsShop s → FullIsActive s }
    ensures all_active { (s : JobShop) → IsShop s → ActiveIsSpelled s }
{}

/// The letters that may follow are in rising order. If the next step of a job takes no time, the
/// first such job is the only letter. Otherwise the letters are those of all steps that compete for
/// the machine of the step that would end first.
pub fn letters_compete()
    ensures these { (s : JobShop) → LettersAreThese s }
    ensures rising { (s : JobShop) → ShopLettersRise s }
{}

/// No word has more letters than there are steps.
pub fn words_are_finite()
    ensures { (s : JobShop) → ShopWordsAreFinite s }
{}

/// The rules choose the first job of their key. The word of each rule that chooses one of the jobs
/// that may follow is full, and its schedule is active.
pub fn rules_make_full_words()
    ensures first { (s : JobShop) → RulesChoose s }
    ensures member { (s : JobShop) → Chooses (spt s) × Chooses (mwkr s) × Chooses (fcfs s) }
    ensures full { (s : JobShop) → RuleIsFull s }
    ensures active { (s : JobShop) → IsShop s → RuleIsActive s }
{}

/// The bound of a word is at most the makespan of every feasible schedule that continues it, and so
/// of every full word that begins with it.
pub fn bounds_hold()
    ensures continued { (s : JobShop) → IsShop s → BoundIsLeast s }
    ensures below { (s : JobShop) → IsShop s → ShopBoundHolds s }
{}

/// For each feasible schedule there is a full word in which no step starts later. Therefore a full
/// word of least makespan gives a shortest schedule.
pub fn words_reach_shortest()
    ensures letter { (s : JobShop) → IsShop s → LetterIsThere s }
    ensures reach { (s : JobShop) → IsShop s → WordsReach s }
    ensures shortest { (s : JobShop) → IsShop s → LeastWordIsShortest s }
{}
