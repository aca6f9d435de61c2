//! Tree of a project's words.

ghost use Rattle.std.specs.Prelude.{◌≡◌, ◌+◌, ◌-◌, length, take, Contains, IfOk, OnOk};
ghost use Rattle.plan_profile.specs.Usage.{IsInTime};
ghost use Rattle.plan_sgs.specs.Instances.{IsInstance, problem_of};
ghost use Rattle.plan_sgs.specs.Serial.{earliest};
ghost use Rattle.plan_sgs.specs.ProjectWords as words;
ghost use Rattle.plan_sgs.specs.ProjectTrees as spec;

mod bound;
mod letters;

use crate::eligibility::{first_waits, lower_each, raise_each};
use crate::instance::Instance;
use crate::placement::{earliest_start, profile_with, starts_of};
use crate::schedule::Schedule;
use bound::least_of_all;
use plan_cpm::tails;
use plan_profile::Profile;
use std::alloc::{AllocError, Global};
use std::marker::Model;

// A letter of the word, with the greatest end and the greatest sum of start and tail of all
// activities that are placed up to it.
#[derive(Clone, Copy, Drop)]
struct Turn {
    letter: u32,
    end: u64,
    reach: u64,
}

/// The tree of a project's words, at one of its words. A letter is the number, from 1, of the
/// activity that serial generation places next: an unplaced activity whose predecessors are all
/// placed. The full words are the activity lists.
///
/// The profile of a word is computed from that of the shorter word when a letter is first pushed
/// after it. A word at which a search turns back needs no profile. A pop sets the profile aside, so
/// that the next one is made in its memory.
#[derive(Drop)]
pub struct ProjectTree<'a> {
    instance: &'a Instance<'a>,
    tails: Vec<u64>,
    least: u64,
    placed: Vec<Option<u64>>,
    waits: Vec<usize>,
    profiles: Vec<Profile>,
    spare: Vec<Profile>,
    turns: Vec<Turn>,
}

impl<'a> Model for ProjectTree<'a> {
    ghost use Rattle.plan_sgs.specs.ProjectTrees.{Standing, word_of, IsTree};

    ghost Value = { Standing };

    ghost view = { λ t. record { instance = t.instance.now; word = word_of t.turns.items } };

    ghost invariant = { λ t. IsTree t.instance.now t.tails.items t.least t.placed.items
        t.waits.items t.profiles.items t.turns.items };
}

// Returns the start of one more letter. Computes the profile of the word if there is none yet.
fn start_of(
    instance: &Instance,
    profiles: &mut Vec<Profile>,
    spare: &mut Vec<Profile>,
    placed: &[Option<u64>],
    turns: &[Turn],
    activity: u32,
) -> Result<u64, AllocError>
    requires instance { IsInstance instance.now }
    requires word { words.IsWord instance.now (spec.word_of turns.now) }
    requires placed { placed.now ≡ words.placed_by instance.now (spec.word_of turns.now) }
    requires profiles { spec.AreProfiles instance.now (spec.word_of turns.now) profiles.old.items }
    requires letter { Contains
        (words.letters_after instance.now (spec.word_of turns.now)) activity }
    ensures start { IfOk result (λ start.
        start ≡ earliest (problem_of instance.now) placed.now (activity - 1)) }
    ensures in_time { IfOk result IsInTime }
    ensures profiles { spec.AreProfiles instance.now (spec.word_of turns.now) profiles.new.items }
    ensures made { OnOk result (length profiles.new.items ≡ length turns.now + 1) }
{
    let at = turns.len();
    if profiles.len() == at {
        let made = profile_with(
            instance,
            &profiles[at - 1],
            spare.pop(),
            placed,
            turns[at - 1].letter,
        )?;
        profiles.push(made)?;
    }
    Ok(earliest_start(instance, &profiles[at], placed, activity))
}

// Removes the profiles from an index on, and sets the last one aside if there is memory for it.
fn set_aside(profiles: &mut Vec<Profile>, spare: &mut Vec<Profile>, count: usize)
    ensures { profiles.new.items ≡ take count profiles.old.items }
{
    if profiles.len() > count {
        if let Some(profile) = profiles.pop() {
            let _ = spare.push(profile);
        }
    }
    profiles.truncate(count);
}

impl<'a> ProjectTree<'a> {
    ghost use Rattle.std.specs.Prelude.{◌≡◌, ℕ, ◌-◌, ◌≤◌, ◌<◌, List, [], ◌∷◌, ◌++◌, true, Some};
    ghost use Rattle.std.specs.Prelude.{None};
    ghost use Rattle.std.specs.Prelude.{length, get_or, Contains, IfOk, OnOk, OnErr};
    ghost use Rattle.plan_profile.specs.Usage.{IsInTime};
    ghost use Rattle.plan_sgs.specs.Instances.{IsInstance, problem_of};
    ghost use Rattle.plan_sgs.specs.Placement.{AllEndBy, latest_end};
    ghost use Rattle.plan_sgs.specs.ProjectWords as words;
    ghost use Rattle.plan_sgs.specs.ProjectTrees as spec;

    /// Returns the tree of an instance at the empty word.
    pub fn new(alloc: Global, instance: &'a Instance<'a>) -> Result<ProjectTree<'a>, AllocError>
        ensures { IfOk result (λ tree. tree ≡ spec.standing instance.now []) }
    {
        let tails = tails(alloc, instance.network())?;
        let least = least_of_all(instance, &tails);
        let caps = Vec::from_slice(alloc, instance.caps())?;
        let mut profiles = Vec::new(alloc);
        profiles.push(Profile::new(alloc, caps)?)?;
        let placed = vec![in alloc; None; instance.network().len()]?;
        let waits = first_waits(alloc, instance.network())?;
        let spare = Vec::with_capacity(alloc, instance.network().len())?;
        let turns = Vec::with_capacity(alloc, instance.network().len())?;
        Ok(ProjectTree {
            instance,
            tails,
            least,
            placed,
            waits,
            profiles,
            spare,
            turns,
        })
    }

    // Returns the greatest end of the placed activities.
    fn end(&self) -> u64
        ensures value { result ≡ spec.end_by self.now.instance self.now.word }
        ensures limit { result ≤ latest_end }
    {
        match self.turns.last() {
            Some(turn) => turn.end,
            None => 0,
        }
    }

    // Returns the greatest sum of start and tail of the placed activities.
    fn reach(&self) -> u64
        ensures { result ≡ spec.reach_by self.now.instance self.now.word }
    {
        match self.turns.last() {
            Some(turn) => turn.reach,
            None => 0,
        }
    }

    /// Appends a letter to the word: places the activity at its earliest start. If memory runs out,
    /// the tree stays the same.
    pub fn push(&mut self, activity: u32) -> Result<(), AllocError>
        requires { Contains (words.letters_after self.old.instance self.old.word) activity }
        ensures ok { OnOk result
            (self.new ≡ spec.standing self.old.instance (self.old.word ++ activity ∷ [])) }
        ensures err { OnErr result (self.new ≡ self.old) }
    {
        let (end, reach) = (self.end(), self.reach());
        let start = start_of(
            self.instance,
            &mut self.profiles,
            &mut self.spare,
            &self.placed,
            &self.turns,
            activity,
        )?;
        let place = activity as usize - 1;
        let duration = self.instance.network().duration(activity);
        let tail = self.tails[place];
        self.turns.push(Turn {
            letter: activity,
            end: end.max(start + duration),
            reach: reach.max(start + tail),
        })?;
        self.placed[place] = Some(start);
        lower_each(self.instance.network(), activity, &mut self.waits);
        Ok(())
    }

    /// Removes the last letter of the word. Allocates nothing.
    pub fn pop(&mut self)
        requires { 0 < length self.old.word }
        ensures instance { self.new.instance ≡ self.old.instance }
        ensures word { (u : List ℕ) (a : ℕ) → self.old.word ≡ u ++ a ∷ [] → self.new.word ≡ u }
    {
        let Some(turn) = self.turns.pop() else {
            return;
        };
        set_aside(&mut self.profiles, &mut self.spare, self.turns.len() + 1);
        self.placed[turn.letter as usize - 1] = None;
        raise_each(self.instance.network(), turn.letter, &mut self.waits);
    }

    /// Tests whether all activities are placed.
    pub fn full(&self) -> bool
        ensures value { result ≡ words.is_full self.now.instance self.now.word }
        ensures instance { IsInstance self.now.instance }
        ensures word { words.IsWord self.now.instance self.now.word }
    {
        self.turns.len() == self.placed.len()
    }

    /// Returns the start of the placed activity `j`.
    pub fn start(&self, j: u32) -> u64
        requires { Contains self.now.word j }
        ensures value { get_or (words.placed_by self.now.instance self.now.word) (j - 1) None
            ≡ Some result }
        ensures within { IsInTime result }
    {
        match self.placed[j as usize - 1] {
            Some(start) => start,
            None => unreachable!(),
        }
    }

    /// Returns the makespan of a full word, in whole time units.
    pub fn makespan(&self) -> u64
        requires { words.is_full self.now.instance self.now.word ≡ true }
        ensures value { result ≡ words.makespan_by self.now.instance self.now.word }
        ensures limit { result ≤ latest_end }
    {
        // The proof needs the invariant of the tree, which this access states.
        let _turns = &self.turns;
        self.end()
    }

    /// Returns the schedule of a full word: starts in the order of the activities and the makespan,
    /// in whole time units.
    pub fn schedule(&self, alloc: Global) -> Result<Schedule, AllocError>
        requires { words.is_full self.now.instance self.now.word ≡ true }
        ensures starts { IfOk result (λ s.
            s.starts.items ≡ words.starts_by self.now.instance self.now.word) }
        ensures makespan { IfOk result (λ s.
            s.makespan ≡ words.makespan_by self.now.instance self.now.word) }
        ensures ends { IfOk result (λ s.
            AllEndBy (problem_of self.now.instance) s.starts.items latest_end) }
        ensures limit { IfOk result (λ s. s.makespan ≤ latest_end) }
    {
        Ok(Schedule {
            starts: starts_of(alloc, &self.placed)?,
            makespan: self.makespan(),
        })
    }
}
