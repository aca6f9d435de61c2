//! Depth-first search in the order of the letters, with one list for the letters of all words on
//! the current path.

ghost use Rattle.std.specs.Prelude.{◌≡◌, ◌+◌, ◌<◌, ◌≤◌, [], Contains, IfOk, OnOk};
ghost use Rattle.plan_exact.specs.Words.{IsWord};
ghost use Rattle.plan_exact.specs.Answers.{outcome, outcome_of};
ghost use Rattle.plan_exact.specs.Explored.{after_word, explored_from, children_explored};
ghost use Rattle.plan_exact.specs.Explored.{child_explored, outcome_so_far, standing_of};
ghost use Rattle.plan_exact.specs.Explored.{KeepsLists};

use crate::{Answer, Branching, Kind};
use std::alloc::{AllocError, Global};

/// The state of a search.
#[derive(Drop)]
struct Progress {
    /// The number of words that may still be visited.
    left: u64,
    /// The least makespan so far, in whole time units.
    value: u64,
    /// Whether a word has this makespan. Otherwise the initial schedule has it.
    found: bool,
    /// The word with the least makespan.
    word: Vec<u32>,
    /// Whether a word was skipped because the budget was used up.
    cut: bool,
    /// The current word of the tree.
    path: Vec<u32>,
    /// The letters that may follow each word on the path to the current one.
    letters: Vec<u32>,
}

impl Progress {
    /// Returns the answer of a finished search.
    fn answer(self) -> Answer
        ensures { outcome_of result ≡ outcome_so_far (standing_of self) }
    {
        let Progress {
            left: _,
            value,
            found,
            word,
            cut,
            path: _,
            letters: _,
        } = self;
        Answer {
            kind: if cut { Kind::Budget } else { Kind::Optimal },
            value,
            word: if found { Some(word) } else { None },
        }
    }
}

/// Counts the tree's word as visited, and keeps it if it is better than the best one so far.
fn visit<B: Branching>(tree: &B, progress: &mut Progress) -> Result<(), AllocError>
    requires left { 0 < progress.old.left }
    requires path { progress.old.path.items ≡ B.word tree.now }
    ensures left { progress.new.left + 1 ≡ progress.old.left }
    ensures lists { KeepsLists progress.old progress.new }
    ensures ok { OnOk result
        (standing_of progress.new
        ≡ after_word (B.tree tree.now) (standing_of progress.old) (B.word tree.now)) }
{
    progress.left -= 1;
    if tree.full() {
        let makespan = tree.makespan();
        if makespan < progress.value {
            progress.word.clear();
            progress.word.extend_from_slice(&progress.path)?;
            progress.found = true;
            progress.value = makespan;
        }
    }
    Ok(())
}

/// Visits the tree's word, and the words below it if its bound is below the least makespan so far.
#[cycle(explore)]
fn explore<B: Branching>(tree: &mut B, progress: &mut Progress) -> Result<(), AllocError>
    requires left { 0 < progress.old.left }
    requires path { progress.old.path.items ≡ B.word tree.old }
    requires word { IsWord (B.tree tree.old) (B.word tree.old) }
    ensures tree { B.tree tree.new ≡ B.tree tree.old }
    ensures word { B.word tree.new ≡ B.word tree.old }
    ensures left { progress.new.left < progress.old.left }
    ensures count { B.pushes tree.new + progress.new.left + 1
        ≤ B.pushes tree.old + progress.old.left }
    ensures lists { OnOk result (KeepsLists progress.old progress.new) }
    ensures ok { OnOk result
        (standing_of progress.new
        ≡ explored_from (B.tree tree.old) (B.word tree.old) (standing_of progress.old)) }
{
    tree.known();
    let open = tree.is_open(progress.value);
    visit(tree, progress)?;
    if open {
        explore_children(tree, progress)?;
    }
    Ok(())
}

/// Explores the children of the tree's word in the order of their letters.
#[cycle(explore)]
fn explore_children<B: Branching>(tree: &mut B, progress: &mut Progress) -> Result<(), AllocError>
    requires path { progress.old.path.items ≡ B.word tree.old }
    requires word { IsWord (B.tree tree.old) (B.word tree.old) }
    ensures tree { B.tree tree.new ≡ B.tree tree.old }
    ensures word { B.word tree.new ≡ B.word tree.old }
    ensures left { progress.new.left ≤ progress.old.left }
    ensures count { B.pushes tree.new + progress.new.left ≤ B.pushes tree.old + progress.old.left }
    ensures lists { OnOk result (KeepsLists progress.old progress.new) }
    ensures ok { OnOk result
        (standing_of progress.new
        ≡ children_explored (B.tree tree.old) (B.word tree.old) (standing_of progress.old)
        ((B.tree tree.old).letters (B.word tree.old))) }
{
    let from = progress.letters.len();
    tree.letters(&mut progress.letters)?;
    for place in from..progress.letters.len() {
        let letter = progress.letters[place];
        explore_child(tree, letter, progress)?;
    }
    progress.letters.truncate(from);
    Ok(())
}

/// Explores the child by a letter if the budget allows another visit.
#[cycle(explore)]
fn explore_child<B: Branching>(
    tree: &mut B,
    letter: u32,
    progress: &mut Progress,
) -> Result<(), AllocError>
    requires path { progress.old.path.items ≡ B.word tree.old }
    requires word { IsWord (B.tree tree.old) (B.word tree.old) }
    requires letter { Contains ((B.tree tree.old).letters (B.word tree.old)) letter }
    ensures tree { B.tree tree.new ≡ B.tree tree.old }
    ensures word { B.word tree.new ≡ B.word tree.old }
    ensures left { progress.new.left ≤ progress.old.left }
    ensures count { B.pushes tree.new + progress.new.left ≤ B.pushes tree.old + progress.old.left }
    ensures lists { OnOk result (KeepsLists progress.old progress.new) }
    ensures ok { OnOk result
        (standing_of progress.new
        ≡ child_explored (B.tree tree.old) (B.word tree.old) (standing_of progress.old) letter) }
{
    if progress.left == 0 {
        progress.cut = true;
        return Ok(());
    }
    progress.path.push(letter)?;
    tree.push(letter)?;
    let below = explore(tree, progress);
    tree.pop();
    progress.path.pop();
    below
}

/// Finds the first full word of least makespan below the initial one, and visits at most `budget`
/// words. Makespans are in whole time units. If memory runs out, the tree is at the empty word, as
/// after an answer.
pub fn search<B: Branching>(
    alloc: Global,
    tree: &mut B,
    initial: u64,
    budget: u64,
) -> Result<Answer, AllocError>
    requires { B.word tree.old ≡ [] }
    ensures answer { IfOk result (λ answer.
        outcome_of answer ≡ outcome (B.tree tree.old) initial budget) }
    ensures tree { B.tree tree.new ≡ B.tree tree.old }
    ensures word { B.word tree.new ≡ [] }
    ensures count { B.pushes tree.new ≤ B.pushes tree.old + budget }
{
    tree.known();
    let mut progress = Progress {
        left: budget,
        value: initial,
        found: false,
        word: Vec::new(alloc),
        cut: budget == 0,
        path: Vec::new(alloc),
        letters: Vec::new(alloc),
    };
    if budget != 0 {
        explore(tree, &mut progress)?;
    }
    Ok(progress.answer())
}
