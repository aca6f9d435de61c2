//! Searches that start from a schedule and can be continued, each time for some conflicts.

ghost use Rattle.std.specs.Prelude.{◌≡◌, ◌≤◌, IfOk};
ghost use Rattle.plan_kernel.specs.Plans.{IsPlain};
ghost use Rattle.plan_solve.specs.Progress.{HearsNothing, HearsTruth};
ghost use Rattle.plan_solve.specs.Sessions.{IsSessionOf};
ghost use Rattle.plan_solve.specs.Solutions.{IsLowerBound};

use crate::derivation::derive;
use crate::lines::Lines;
use crate::log::Log;
use crate::prover::{Prover, prover_of};
use crate::search::{Advance, Search};
use crate::solvable::Solvable;
use crate::stop::Clash;
use crate::watcher::Watcher;
use plan_kernel::Kernel;
use plan_sgs::Schedule;
use std::alloc::{AllocError, Global};

/// After how many conflicts a watcher is told how far the search is.
const CONFLICTS_BETWEEN: u64 = 64;

/// After how many decisions without a conflict, or after how much work ([`crate::work::Work`]), a
/// watcher is asked whether the search should end.
const DECISIONS_BETWEEN: u32 = 64;

/// How many bytes of lines a log gets together at least, but for the last ones.
const LINES_TOGETHER: usize = 65_536;

/// The outcome of a search: the starts of the best schedule, a lower bound, and the number of
/// conflicts.
#[derive(Drop)]
pub struct Found {
    pub starts: Vec<u32>,
    pub lower: u64,
    pub conflicts: u64,
}

/// A search that can be continued.
#[derive(Drop)]
pub struct Session {
    pub search: Search,
    // whether something is left to search for, and how many conflicts there were so far
    is_open: bool,
    conflicts: u64,
}

// Starts as 32-bit numbers.
fn narrowed(alloc: Global, starts: &[u64]) -> Result<Vec<u32>, AllocError> {
    let mut narrowed = Vec::with_capacity(alloc, starts.len())?;
    for &start in starts {
        narrowed.push((start & 0xffff_ffff) as u32)?;
    }
    Ok(narrowed)
}

// A kernel that knows starts.
fn kernel_of<S: Solvable>(alloc: Global, source: &S, starts: &[u64]) -> Result<Kernel, AllocError>
    ensures { IfOk result (λ kernel. IsPlain kernel.known.input (S.problem source.now)) }
{
    let mut kernel = Kernel::new(alloc, source.input(alloc)?)?;
    let _ = kernel.lower(narrowed(alloc, starts)?);
    Ok(kernel)
}

// The greater of two lower bounds: a simple one and the kernel's.
#[tactic(auto, using(crate::proofs::ProgressLemmas::greater_lower))]
fn lower_bound<S: Solvable>(source: &S, kernel: &Kernel, simple: u64) -> u64
    requires problem { IsPlain kernel.now.known.input (S.problem source.now) }
    requires simple { IsLowerBound (S.problem source.now) simple }
    ensures lower { IsLowerBound (S.problem source.now) result }
    ensures no_lower { simple ≤ result }
{
    simple.max(kernel.lower_bound() as u64)
}

// Tells a watcher how far a search is. Returns whether the watcher ends the search.
fn tell<S: Solvable, W: Watcher>(
    watcher: &mut W,
    source: &S,
    kernel: &Kernel,
    simple: u64,
    conflicts: u64,
) -> bool
    requires problem { IsPlain kernel.now.known.input (S.problem source.now) }
    requires simple { IsLowerBound (S.problem source.now) simple }
    ensures { HearsTruth (S.problem source.now) conflicts
        (W.was_told watcher.old) (W.was_told watcher.new) }
{
    if let Some(_starts) = kernel.best() {
        let lower = lower_bound(source, kernel, simple);
        watcher.tell(kernel.upper() as u64, lower, conflicts);
    }
    watcher.is_late()
}

// Whether the best makespan is a bound that was known before the search. A log has to prove it.
fn is_met<L: Log>(kernel: &Kernel, simple: u64, log: &L) -> bool {
    let is_proved = !log.is_wanted() || kernel.lower_bound() >= kernel.upper();
    kernel.upper() as u64 <= simple && is_proved
}

// Hands the lines of a prover over if there are so many.
fn hand_over<L: Log>(lines: &mut Lines, log: &mut L, many: usize) {
    if lines.is_on() && lines.text().len() >= many {
        let is_wanted = log.write(lines.text());
        lines.clear(is_wanted);
    }
}

// Logs the lower bound of a prover if it has risen.
fn log_bound(prover: &mut Prover) -> Result<(), AllocError>
    ensures { prover.new.kernel ≡ prover.old.kernel }
{
    if prover.lines.is_on() {
        let lower = prover.kernel.lower_bound();
        prover.lines.rise(lower)?;
    }
    Ok(())
}

/// Searches until a clause is false. `None` if nothing is left to search for, or the watcher ends
/// it.
pub fn next_clash<W: Watcher>(
    alloc: Global,
    search: &mut Search,
    watcher: &mut W,
) -> Result<Option<Clash>, AllocError>
    ensures input { search.new.prover.kernel.known.input ≡ search.old.prover.kernel.known.input }
    ensures told { HearsNothing (W.was_told watcher.old) (W.was_told watcher.new) }
{
    for _ in 0..u64::MAX {
        match search.advance(alloc, DECISIONS_BETWEEN)? {
            Advance::Clash(clash) => return Ok(Some(clash)),
            Advance::Done => return Ok(None),
            Advance::Open => search.restart_work(),
        }
        if watcher.is_late() {
            break;
        }
    }
    Ok(None)
}

// Returns a prover over a kernel that knows starts. With a log it derives the lower bound that needs
// no search.
fn deriving_prover<S: Solvable>(
    alloc: Global,
    source: &S,
    starts: &[u64],
    is_logged: bool,
) -> Result<Prover, AllocError>
    ensures { IfOk result (λ prover. IsPlain prover.kernel.known.input (S.problem source.now)) }
{
    let kernel = kernel_of(alloc, source, starts)?;
    let mut prover = prover_of(alloc, kernel, is_logged)?;
    if is_logged {
        derive(alloc, &mut prover, source.simple_bound(alloc)?)?;
        log_bound(&mut prover)?;
    }
    Ok(prover)
}

impl Session {
    /// Returns a search that starts from a schedule. If it is logged, the log first proves the lower
    /// bound that needs no search.
    pub fn new<S: Solvable>(
        alloc: Global,
        source: &S,
        starts: &[u64],
        is_logged: bool,
    ) -> Result<Session, AllocError>
        ensures { IfOk result (IsSessionOf (S.problem source.now)) }
    {
        let prover = deriving_prover(alloc, source, starts, is_logged)?;
        let is_met = prover.kernel.lower_bound() >= prover.kernel.upper();
        let mut search = Search::new(alloc, prover)?;
        let is_open = !is_met && search.can_search() && search.begin(alloc)?;
        Ok(Session {
            search,
            is_open,
            conflicts: 0,
        })
    }

    // Takes a schedule if it is shorter than the best one.
    fn take(&mut self, alloc: Global, schedule: &Schedule) -> Result<(), AllocError>
        ensures { self.new.search.prover.kernel.known.input
            ≡ self.old.search.prover.kernel.known.input }
    {
        if self.is_open && schedule.makespan < self.search.prover.kernel.upper() as u64 {
            let starts = narrowed(alloc, &schedule.starts)?;
            self.is_open = self.search.take(starts)?;
        }
        Ok(())
    }

    // Searches until nothing is left, a limit is reached or the watcher ends it. Returns how many
    // conflicts there were.
    fn search_all<S: Solvable, W: Watcher, L: Log>(
        &mut self,
        alloc: Global,
        source: &S,
        simple: u64,
        conflicts: u64,
        watcher: &mut W,
        log: &mut L,
    ) -> Result<u64, AllocError>
        requires problem { IsSessionOf (S.problem source.now) self.old }
        requires simple { IsLowerBound (S.problem source.now) simple }
        ensures input { self.new.search.prover.kernel.known.input
            ≡ self.old.search.prover.kernel.known.input }
        ensures used { IfOk result (λ used. used ≤ conflicts) }
        ensures told { HearsTruth (S.problem source.now) conflicts
            (W.was_told watcher.old) (W.was_told watcher.new) }
    {
        if !self.is_open {
            return Ok(0);
        }
        for conflict in 0..conflicts {
            let kernel = &self.search.prover.kernel;
            if conflict % CONFLICTS_BETWEEN == 0
                && (tell(watcher, source, kernel, simple, conflict)
                    || is_met(kernel, simple, log))
            {
                return Ok(conflict);
            }
            let Some(clash) = next_clash(alloc, &mut self.search, watcher)? else {
                return Ok(conflict);
            };
            self.conflicts = self.conflicts.saturating_add(1);
            if !self.search.learn(alloc, clash, self.conflicts)? {
                self.is_open = false;
                return Ok(conflict + 1);
            }
            log_bound(&mut self.search.prover)?;
            hand_over(&mut self.search.prover.lines, log, LINES_TOGETHER);
        }
        Ok(conflicts)
    }

    /// Continues from a known schedule and lower bound, with at most so many conflicts.
    pub fn run<S: Solvable, W: Watcher, L: Log>(
        &mut self,
        alloc: Global,
        source: &S,
        schedule: &Schedule,
        simple: u64,
        conflicts: u64,
        watcher: &mut W,
        log: &mut L,
    ) -> Result<Found, AllocError>
        requires problem { IsSessionOf (S.problem source.now) self.old }
        requires simple { IsLowerBound (S.problem source.now) simple }
        ensures problem { IsSessionOf (S.problem source.now) self.new }
        ensures lower { IfOk result (λ found. IsLowerBound (S.problem source.now) found.lower) }
        ensures no_lower { IfOk result (λ found. simple ≤ found.lower) }
        ensures conflicts { IfOk result (λ found. found.conflicts ≤ conflicts) }
        ensures told { HearsTruth (S.problem source.now) conflicts
            (W.was_told watcher.old) (W.was_told watcher.new) }
    {
        self.take(alloc, schedule)?;
        if self.conflicts > 0 {
            self.search.aim_above(simple);
        }
        let used = self.search_all(alloc, source, simple, conflicts, watcher, log)?;
        let prover = &mut self.search.prover;
        log_bound(prover)?;
        hand_over(&mut prover.lines, log, 0);
        let starts = match prover.kernel.best() {
            Some(starts) => Vec::from_slice(alloc, starts)?,
            None => Vec::new(alloc),
        };
        Ok(Found {
            starts,
            lower: lower_bound(source, &prover.kernel, simple),
            conflicts: used,
        })
    }

    /// Ends the log with the schedule that the search has come to, and its lower bound.
    pub fn end_log<L: Log>(
        &mut self,
        alloc: Global,
        schedule: &Schedule,
        log: &mut L,
    ) -> Result<(), AllocError>
        ensures { self.new.search.prover.kernel.known.input
            ≡ self.old.search.prover.kernel.known.input }
    {
        if !log.is_wanted() {
            return Ok(());
        }
        let prover = &mut self.search.prover;
        let starts = narrowed(alloc, &schedule.starts)?;
        if schedule.makespan < prover.kernel.upper() as u64 {
            let _ = prover.lower(narrowed(alloc, &schedule.starts)?)?;
        }
        if schedule.makespan == prover.kernel.upper() as u64 {
            prover.lines.solution(&prover.kernel, &starts)?;
        }
        let lower = prover.kernel.lower_bound();
        prover.lines.lower(lower)?;
        hand_over(&mut prover.lines, log, 0);
        Ok(())
    }
}
