//! The words for the predecessors of activities: ids, and `A+2` for a wait of 2 behind A.

ghost use Rattle.std.specs.Prelude.{◌≡◌, IfOk, map, option_map};
ghost use Rattle.plan_net.specs.Network.{IsActivity};
ghost use Rattle.plan_table.specs.Names.{name_of};
ghost use Rattle.plan_views.specs.Predecessors as spec;

use plan_net::Network;
use plan_report::{first_behind, is_wait, only_predecessor};
use plan_table::{NameLine, first_name};
use std::alloc::{AllocError, Global};

/// The word for a predecessor, by the number of its activity.
#[derive(Drop)]
pub struct PredecessorWord {
    pub number: u64,
    pub word: Vec<u8>,
}

// Returns an id with a lag behind it, empty if there is no id.
fn with_lag(alloc: Global, id: Option<&[u8]>, lag: u64) -> Result<Vec<u8>, AllocError>
    ensures { IfOk result (λ word. word.items
        ≡ spec.with_lag (option_map (λ bytes. bytes.now) id.entry) lag) }
{
    let Some(id) = id else {
        return Ok(Vec::new(alloc));
    };
    let behind = format!(in alloc; "+{lag}")?;
    let mut word = Vec::from_slice(alloc, id)?;
    word.extend_from_slice(behind.as_bytes())?;
    Ok(word)
}

// Returns the word for a wait.
fn wait_word(
    alloc: Global,
    ids: &[NameLine<'_>],
    network: &Network,
    j: u32,
) -> Result<Vec<u8>, AllocError>
    requires { IsActivity network.now j }
    ensures { IfOk result (λ word.
        word.items ≡ spec.wait_word (map name_of ids.now) network.now j) }
{
    match only_predecessor(network, j) {
        Some(i) => with_lag(alloc, first_name(ids, u64::from(i)), network.duration(j)),
        None => Ok(Vec::new(alloc)),
    }
}

// Returns the word for an activity behind the rows as a text, empty if it is no wait.
fn text_behind(
    alloc: Global,
    ids: &[NameLine<'_>],
    network: &Network,
    behind: usize,
    j: u32,
) -> Result<Vec<u8>, AllocError>
    requires { IsActivity network.now j }
    ensures { IfOk result (λ text.
        text.items ≡ spec.text_behind (map name_of ids.now) network.now behind j) }
{
    if is_wait(behind, network, j) {
        wait_word(alloc, ids, network, j)
    } else {
        Ok(Vec::new(alloc))
    }
}

// Returns the word for an activity behind the rows.
fn word_behind(
    alloc: Global,
    ids: &[NameLine<'_>],
    network: &Network,
    behind: usize,
    j: u32,
) -> Result<PredecessorWord, AllocError>
    requires { IsActivity network.now j }
    ensures { IfOk result (λ word.
        spec.word_of word ≡ spec.word_behind (map name_of ids.now) network.now behind j) }
{
    Ok(PredecessorWord {
        number: u64::from(j),
        word: text_behind(alloc, ids, network, behind, j)?,
    })
}

// Returns the ids of activities.
fn id_words(alloc: Global, ids: &[NameLine<'_>]) -> Result<Vec<PredecessorWord>, AllocError>
    ensures { IfOk result (λ words. map spec.word_of words.items ≡ map name_of ids.now) }
{
    let mut words = Vec::new(alloc);
    for id in ids {
        words.push(PredecessorWord {
            number: id.number,
            word: Vec::from_slice(alloc, id.name)?,
        })?;
    }
    Ok(words)
}

/// Returns the words for the activities of a project: their ids, and behind them those for waits.
#[tactic(auto, unfolding(crate::specs::Predecessors::predecessor_words))]
pub(crate) fn predecessor_words(
    alloc: Global,
    ids: &[NameLine<'_>],
    network: &Network,
) -> Result<Vec<PredecessorWord>, AllocError>
    ensures { IfOk result (λ words. map spec.word_of words.items
        ≡ spec.predecessor_words (map name_of ids.now) network.now) }
{
    let behind = first_behind(ids, network);
    let mut words = id_words(alloc, ids)?;
    for j in behind..network.len() {
        words.push(word_behind(alloc, ids, network, behind, j as u32)?)?;
    }
    Ok(words)
}

/// Returns words by the numbers of their activities.
pub(crate) fn word_lines<'a>(
    alloc: Global,
    words: &'a [PredecessorWord],
) -> Result<Vec<NameLine<'a>>, AllocError>
    ensures { IfOk result (λ lines. map name_of lines.items ≡ map spec.word_of words.now) }
{
    let mut lines = Vec::new(alloc);
    for word in words {
        lines.push(NameLine {
            number: word.number,
            name: &word.word,
        })?;
    }
    Ok(lines)
}
