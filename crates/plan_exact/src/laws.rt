//! Laws of the definitions that proofs of other crates cite. The functions do nothing.

ghost use Rattle.plan_exact.specs.Laws.{WordsAreListed, PruningKeepsLeast, BestIsFirstLeast};

/// The list of all words contains exactly the words of the tree, each once, in lexicographic order.
pub fn words_are_listed()
    ensures { WordsAreListed }
{}

/// The words that the search skips do not change the first full word of least makespan below the
/// initial one.
pub fn pruning_keeps_least()
    ensures { PruningKeepsLeast }
{}

/// The word that a search finds is the first of least makespan: no full word of the list has a
/// smaller makespan, and each full word before it has a greater one.
pub fn best_is_first_least()
    ensures { BestIsFirstLeast }
{}
