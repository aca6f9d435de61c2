//! Searches of trees that tables describe, compared with a program that lists all words.

ghost use Rattle.std.specs.Prelude.{◌≡◌, ◌<◌, []};
ghost use Rattle.plan_base_tests.specs.TableTree.{may_follow, reached, table_tree};
ghost use Rattle.plan_exact.specs.Laws.{KeepsLaws};

use plan_exact::{Branching, Kind, Pushes, search};
use std::alloc::{AllocError, Global};
use std::test::Fail;

/// A row of a tree's tables: the place of a word, its floor and its end. The empty word has place
/// 0, and the child of a word by the letter `a` has `3 * place + a`. A place without a row is no
/// word of the tree. A word whose end is 0 isn't full.
type Row = (usize, u64, u64);

/// A tree of words of at most three letters, each 1, 2 or 3.
#[derive(Drop)]
struct TableTree {
    floors: [u64; 40],
    ends: [u64; 40],
    word: Vec<u32>,
    pushes: Pushes,
    /// The number of pushes that succeeded.
    pushed: u64,
}

/// Returns the place of a word, and the greatest floor of its prefixes.
fn reach(floors: &[u64; 40], word: &[u32]) -> (usize, u64)
    ensures place { result.0 ≡ (reached floors.now word.now).place }
    ensures bound { result.1 ≡ (reached floors.now word.now).bound }
    ensures within { result.0 < 40 }
{
    let mut place = 0;
    let mut bound = floors[0];
    for letter in word {
        place = (place * 3 + *letter as usize) % 40;
        bound = bound.max(floors[place]);
    }
    (place, bound)
}

impl TableTree {
    fn new(alloc: Global, rows: &[Row]) -> TableTree
        ensures { result.word.items ≡ [] }
    {
        let mut floors = [0; 40];
        let mut ends = [0; 40];
        for &(place, floor, end) in rows {
            floors[place % 40] = floor;
            ends[place % 40] = end;
        }
        TableTree {
            floors,
            ends,
            word: Vec::new(alloc),
            pushes: Pushes::new(),
            pushed: 0,
        }
    }

    /// Returns whether the tables have the word with one more letter.
    fn has(&self, letter: u32) -> bool
        ensures { result ≡ may_follow self.now.floors self.now.word.items letter }
    {
        let (place, _) = reach(&self.floors, &self.word);
        self.word.len() < 3 && self.floors[(place * 3 + letter as usize) % 40] > 0
    }
}

impl Branching for TableTree {
    ghost is_valid = { λ t. KeepsLaws (table_tree t.floors t.ends) };

    ghost tree = { λ t. table_tree t.floors t.ends };

    ghost word = { λ t. t.word.items };

    ghost pushes = { λ t. t.pushes.count };

    fn known(&self) {}

    fn push(&mut self, letter: u32) -> Result<(), AllocError> {
        self.word.push(letter)?;
        self.pushes = self.pushes.raised();
        self.pushed = self.pushed.saturating_add(1);
        Ok(())
    }

    fn pop(&mut self) {
        self.word.pop();
    }

    fn letters(&self, list: &mut Vec<u32>) -> Result<(), AllocError> {
        for letter in [1, 2, 3] {
            if self.has(letter) {
                list.push(letter)?;
            }
        }
        Ok(())
    }

    fn bound(&self) -> u64 {
        reach(&self.floors, &self.word).1
    }

    fn full(&self) -> bool {
        let (place, _) = reach(&self.floors, &self.word);
        self.ends[place] > 0
    }

    fn makespan(&self) -> u64 {
        let (place, bound) = reach(&self.floors, &self.word);
        bound.max(self.ends[place])
    }

    ghost letters_rise = { λ t valid. valid.rise };

    ghost words_are_finite = { λ t valid. valid.finite };

    ghost bound_holds = { λ t valid. valid.bounded };
}

/// A word of a list of all words, with its bound, and its makespan if it is full.
#[derive(Drop)]
struct Listed {
    word: Vec<u32>,
    bound: u64,
    makespan: Option<u64>,
}

/// Returns whether the tables have a word and all its prefixes.
fn is_word(tree: &TableTree, letters: &[u32]) -> bool {
    for length in 0..=letters.len() {
        let (place, _) = reach(&tree.floors, &letters[..length]);
        if tree.floors[place] == 0 {
            return false;
        }
    }
    true
}

/// Returns all words of a tree in lexicographic order: three digits to base 4, and 0 isn't a
/// letter.
fn list_words(alloc: Global, tree: &TableTree) -> Result<Vec<Listed>, AllocError> {
    let mut all = Vec::new(alloc);
    for number in 0..64 {
        let digits = [number / 16, number / 4 % 4, number % 4];
        let length = digits.iter().position(|digit| *digit == 0).unwrap_or(3);
        let (letters, rest) = digits.split_at(length);
        if rest.iter().any(|digit| *digit > 0) || !is_word(tree, letters) {
            continue;
        }
        let (place, bound) = reach(&tree.floors, letters);
        let end = tree.ends[place];
        all.push(Listed {
            word: letters.to_vec(alloc)?,
            bound,
            makespan: if end > 0 { Some(end.max(bound)) } else { None },
        })?;
    }
    Ok(all)
}

/// Returns the first of least makespan among the initial schedule and the listed words.
fn first_least<'a>(initial: u64, words: &[&'a Listed]) -> (u64, Option<&'a Vec<u32>>) {
    let mut least = (initial, None);
    for listed in words {
        match listed.makespan {
            Some(makespan) if makespan < least.0 => least = (makespan, Some(&listed.word)),
            _ => {}
        }
    }
    least
}

/// Returns the visited words: each of their proper prefixes has a bound below the least makespan so
/// far.
fn visited<'a>(
    alloc: Global,
    initial: u64,
    all: &'a [Listed],
) -> Result<Vec<&'a Listed>, AllocError> {
    let mut before: Vec<&'a Listed> = Vec::new(alloc);
    let mut closed: Vec<&'a Listed> = Vec::new(alloc);
    let mut visited = Vec::new(alloc);
    for listed in all {
        if listed.bound >= first_least(initial, &before).0 {
            closed.push(listed)?;
        }
        if !closed.iter().any(|prefix| prefix.word.len() < listed.word.len()
            && listed.word.starts_with(&prefix.word))
        {
            visited.push(listed)?;
        }
        before.push(listed)?;
    }
    Ok(visited)
}

/// Returns the expected answer. It is the best of all words if the budget suffices for the visited
/// ones, else the best of the visited ones within the budget.
fn wanted<'a>(
    initial: u64,
    budget: usize,
    all: &[&'a Listed],
    visited: &[&'a Listed],
) -> (Kind, u64, Option<&'a Vec<u32>>) {
    if visited.len() <= budget {
        let (value, word) = first_least(initial, all);
        return (Kind::Optimal, value, word);
    }
    let (value, word) = first_least(initial, &visited[..budget]);
    (Kind::Budget, value, word)
}

/// The words 2 1 and 2 3 have the least makespan, 5, which the bound of 3 reaches. All 9 words but
/// 3 1 are visited. Each tree is given with the makespan of its initial schedule.
const LATE: (u64, &[Row]) = (
    7,
    &[
        (0, 3, 0),
        (1, 4, 0),
        (4, 6, 6),
        (5, 4, 7),
        (2, 3, 0),
        (7, 5, 5),
        (9, 4, 5),
        (3, 5, 0),
        (10, 5, 5),
    ],
);

/// The bound of 1 reaches the least makespan at its first child, but its other children are visited
/// too: all 7 words but 2 1.
const EARLY: (u64, &[Row]) = (
    9,
    &[
        (0, 5, 0),
        (1, 5, 0),
        (4, 5, 5),
        (5, 6, 0),
        (6, 6, 6),
        (2, 5, 0),
        (7, 5, 5),
    ],
);

const TREES: [(u64, &[Row]); 7] = [
    LATE,
    EARLY,
    // The bound of the empty word and of 1 is one below the least.
    (6, &[(0, 5, 0), (1, 5, 0), (4, 5, 5), (2, 5, 5)]),
    // The initial schedule is as short as the bound of the empty word.
    (5, &[(0, 5, 0), (1, 5, 5), (2, 5, 5)]),
    // No word is full.
    (4, &[(0, 1, 0), (1, 1, 0), (4, 1, 0), (13, 1, 0), (2, 3, 0)]),
    // Full words that are prefixes of others, among them the empty one.
    (
        9,
        &[
            (0, 1, 8),
            (1, 2, 7),
            (4, 3, 0),
            (14, 4, 4),
            (15, 3, 4),
            (3, 2, 6),
            (12, 6, 6),
            (11, 2, 2),
        ],
    ),
    // Only the empty word.
    (2, &[(0, 1, 1)]),
];

#[test]
fn answers_by_hand(rt: HostRuntime) -> Result<(), Fail> {
    let cases: [((u64, &[Row]), u64, Kind, u64, &[u32], u64); 11] = [
        (LATE, 1, Kind::Budget, 7, &[], 0),
        (LATE, 2, Kind::Budget, 7, &[], 1),
        (LATE, 3, Kind::Budget, 6, &[1, 1], 2),
        (LATE, 5, Kind::Budget, 6, &[1, 1], 4),
        (LATE, 6, Kind::Budget, 5, &[2, 1], 5),
        (LATE, 7, Kind::Budget, 5, &[2, 1], 6),
        (LATE, 8, Kind::Optimal, 5, &[2, 1], 7),
        (LATE, 9, Kind::Optimal, 5, &[2, 1], 7),
        (EARLY, 5, Kind::Budget, 5, &[1, 1], 4),
        (EARLY, 6, Kind::Optimal, 5, &[1, 1], 5),
        (EARLY, 200_000, Kind::Optimal, 5, &[1, 1], 5),
    ];
    for ((initial, rows), budget, kind, value, word, pushed) in cases {
        let mut tree = TableTree::new(rt.alloc(), rows);
        let answer = search(rt.alloc(), &mut tree, initial, budget)?;
        let found = answer.word.as_ref().map_or(&[][..], |word| word.as_slice());
        assert_eq!(rt;
            (answer.kind, answer.value),
            (kind, value),
            "{} rows, budget {budget}",
            rows.len()
        );
        assert_eq!(rt; found, word, "{} rows, budget {budget}", rows.len());
        assert_eq!(rt; tree.pushed, pushed, "{} rows, budget {budget}", rows.len());
    }
    Ok(())
}

#[test]
fn answers_as_the_list_of_all_words_says(rt: HostRuntime) -> Result<(), Fail> {
    for (initial, rows) in TREES {
        let listed = list_words(rt.alloc(), &TableTree::new(rt.alloc(), rows))?;
        let all: Vec<&Listed> = listed.iter().collect(rt.alloc())?;
        let visited = visited(rt.alloc(), initial, &listed)?;
        for budget in 0..all.len() + 2 {
            let (kind, value, word) = wanted(initial, budget, &all, &visited);
            let mut tree = TableTree::new(rt.alloc(), rows);
            let answer = search(rt.alloc(), &mut tree, initial, budget as u64)?;
            let pushed = budget.min(visited.len()).saturating_sub(1);
            assert_eq!(rt;
                (answer.kind, answer.value),
                (kind, value),
                "{} rows, budget {budget}",
                rows.len()
            );
            assert_eq!(rt;
                answer.word.as_ref(),
                word,
                "{} rows, budget {budget}",
                rows.len()
            );
            assert_eq!(rt;
                tree.pushed,
                pushed as u64,
                "{} rows, budget {budget}",
                rows.len()
            );
            assert!(rt;
                tree.word.is_empty(),
                "{} rows, budget {budget}",
                rows.len()
            );
        }
    }
    Ok(())
}
