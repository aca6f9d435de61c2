//! Laws of the words of a project that proofs of other crates cite. The functions do nothing.

ghost use Rattle.plan_sgs.specs.ProjectLaws.{
  TailsAreGreatest,
  LongestIsGreatest,
  RoundsUp,
  ProjectLettersRise,
  LettersAreActivities,
  ProjectWordsAreFinite,
  WordsGoOn,
  FullWordsAreLists,
  ProjectFullIsActive,
  RuleWordIsFull,
  ProjectBoundHolds,
  ProjectWordsReach,
  LeastProjectWordIsShortest,
};

/// The tails in the bound of a word are the greatest lengths of paths, and the longest path is the
/// longest of all paths. The least busy time of a resource is the least number of instants whose
/// capacities add up to its work.
pub fn bounds_are_meant()
    ensures tails { TailsAreGreatest }
    ensures longest { LongestIsGreatest }
    ensures work { RoundsUp }
{}

/// The letters that may follow are activities in rising order.
pub fn project_letters_rise()
    ensures rising { ProjectLettersRise }
    ensures activities { LettersAreActivities }
{}

/// No word is longer than the number of activities, and each word that isn't full has a letter that
/// may follow.
pub fn project_words_are_finite()
    ensures finite { ProjectWordsAreFinite }
    ensures go_on { WordsGoOn }
{}

/// The full words are the activity lists, so their schedules are active. The list of every priority
/// rule is a full word.
pub fn full_words_are_lists()
    ensures lists { FullWordsAreLists }
    ensures active { ProjectFullIsActive }
    ensures rules { RuleWordIsFull }
{}

/// The bound of a word is at most the makespan of every full word that begins with it.
pub fn project_bounds_hold()
    ensures { ProjectBoundHolds }
{}

/// For each feasible schedule there is a full word whose makespan is no greater. Therefore a full
/// word of least makespan gives a shortest schedule.
pub fn project_words_reach_shortest()
    ensures reach { ProjectWordsReach }
    ensures shortest { LeastProjectWordIsShortest }
{}
