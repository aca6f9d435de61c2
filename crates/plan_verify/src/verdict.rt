//! The verdict of a log.

ghost use Rattle.std.specs.Prelude.{◌≡◌, IfOk, string_bytes};
ghost use Rattle.plan_verify.specs.Verdicts.{IsTrueOfPlans, text_of};

use plan_kernel::Kernel;
use std::alloc::{AllocError, Global};
use std::fmt::Write;

/// The verdict of a log on a problem.
#[derive(Clone, Copy, Debug, PartialEq, Eq, Drop)]
pub enum Verdict {
    /// The least makespan of all feasible schedules is this one.
    Verified { makespan: u32 },
    /// No feasible schedule has a makespan below this one.
    AtLeast { bound: u32 },
}

/// Returns the verdict of a kernel on its problem.
#[tactic(auto, using(crate::proofs::VerdictLemmas::is_least))]
pub fn verdict_of(kernel: &Kernel) -> Verdict
    ensures { IsTrueOfPlans kernel.now.known.input result }
{
    let bound = kernel.lower_bound();
    match kernel.best() {
        Some(_starts) if kernel.upper() <= bound => Verdict::Verified { makespan: bound },
        _ => Verdict::AtLeast { bound },
    }
}

/// Returns the line of a verdict.
pub fn verdict_text(alloc: Global, verdict: Verdict) -> Result<String, AllocError>
    ensures { IfOk result (λ text. string_bytes text ≡ text_of verdict) }
{
    let mut text = String::new(alloc);
    match verdict {
        Verdict::Verified { makespan } => writeln!(text, "verified {makespan}")?,
        Verdict::AtLeast { bound } => writeln!(text, "verified at least {bound}")?,
    }
    Ok(text)
}
