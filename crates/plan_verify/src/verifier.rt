//! The check of a log.

ghost use Rattle.std.specs.Prelude.{◌≡◌, IfOk};
ghost use Rattle.plan_verify.specs.Verdicts.{IsTrueOfPlans};

use crate::fault::{LineFault, LogFault};
use crate::log_lines::LogLines;
use crate::numbers::{end, place};
use crate::replay::Replay;
use crate::verdict::{Verdict, verdict_of};
use plan_io::Source;
use plan_kernel::{Input, Order, with_orders};
use plan_psplib::Words;
use std::alloc::{AllocError, Global};

/// The most orders.
const MOST_ORDERS: usize = 200_000;

// Reads the order in a line. `None` if it is another line.
fn order_of(line: &[u8]) -> Result<Option<Order>, LineFault> {
    let mut words = Words::new(line);
    match words.next_word() {
        Some(b"order") => {}
        _ => return Ok(None),
    }
    let (first, second) = (place(&mut words)?, place(&mut words)?);
    end(&mut words)?;
    Ok(Some(Order { first, second }))
}

// Reads the orders at the front of a log. Afterwards the lines are at the first other line.
fn orders_of<R: Source>(
    alloc: Global,
    lines: &mut LogLines,
    log: &mut R,
) -> Result<(Vec<Order>, bool), LogFault> {
    let mut orders = Vec::new(alloc);
    for _ in 0..MOST_ORDERS {
        if !lines.next(log)? {
            return Ok((orders, false));
        }
        let number = lines.number();
        match order_of(lines.text()).map_err(|fault| LogFault::at(fault, number))? {
            Some(order) => orders.push(order)?,
            None => return Ok((orders, true)),
        }
    }
    Ok((orders, lines.next(log)?))
}

// Takes all lines of a log from the present one on, if there is one.
fn replay_all<R: Source>(
    alloc: Global,
    replay: &mut Replay,
    lines: &mut LogLines,
    log: &mut R,
    has_line: bool,
) -> Result<(), LogFault>
    ensures { replay.new.kernel.known.input ≡ replay.old.kernel.known.input }
{
    let mut has_line = has_line;
    for _ in 0..u64::MAX {
        if !has_line {
            break;
        }
        let number = lines.number();
        replay
            .step(alloc, lines.text())
            .map_err(|fault| LogFault::at(fault, number))?;
        has_line = lines.next(log)?;
    }
    Ok(())
}

/// Checks a log of a problem, line by line, and returns what it shows. `input` is the problem,
/// whose orders are replaced by those of the log.
#[tactic(auto, using(crate::proofs::VerdictLemmas::same_verdict))]
pub fn verify<R: Source>(alloc: Global, input: Input, log: &mut R) -> Result<Verdict, LogFault>
    ensures { IfOk result (IsTrueOfPlans input) }
{
    let mut lines = LogLines::new(alloc)?;
    let (orders, has_line) = orders_of(alloc, &mut lines, log)?;
    let mut replay = Replay::new(alloc, with_orders(input, orders))?;
    replay_all(alloc, &mut replay, &mut lines, log, has_line)?;
    Ok(verdict_of(&replay.kernel))
}
