//! Facts: literals that hold in every plan that costs less than the best one.

ghost use Rattle.std.specs.Prelude.{◌≡◌, ◌≤◌, ◌<◌, ◌+◌, ◌-◌, ◌*◌, ℕ, min, length, Contains, IfOk};
ghost use Rattle.plan_kernel.specs.Literals as literals;
ghost use Rattle.plan_kernel.specs.Clauses as spec;
ghost use Rattle.plan_kernel.specs.Kernels as kernels;

use crate::input::{Input, StartWindow};
use crate::literal::{LIMIT, at};
use std::alloc::{AllocError, Global};

// Raises the value of a half, if there is such a half.
pub fn raise(facts: &mut Vec<u32>, half: usize, value: u32)
    ensures most { spec.IsRaisedTo facts.old.items facts.new.items half value }
    ensures risen { half < length facts.new.items → value ≤ literals.at facts.new.items half }
    ensures others { spec.IsRaised facts.old.items facts.new.items }
    ensures size { length facts.new.items ≡ length facts.old.items }
{
    if half < facts.len() && facts[half] < value {
        facts[half] = value;
    }
}

// Raises what each activity and the cost leave below the limit to what they leave if all activities
// end, with their tails, before the upper bound.
pub fn raise_latest(facts: &mut Vec<u32>, input: &Input, upper: u32)
    requires limit { upper ≤ LIMIT }
    requires facts { spec.AreFacts input.now upper facts.old.items }
    ensures facts { spec.AreFacts input.now upper facts.new.items }
    ensures latest { kernels.AreLatest input.now upper facts.new.items
        (length input.now.durations.items) }
    ensures cost { 2 * length input.now.durations.items + 1 < length facts.new.items
        → LIMIT - upper + 1
        ≤ literals.at facts.new.items (2 * length input.now.durations.items + 1) }
    ensures size { length facts.new.items ≡ length facts.old.items }
{
    let left = LIMIT - upper + 1;
    for (place, &duration) in input.durations.iter().enumerate() {
        let half = 2 * place + 1;
        let tail = at(&input.tails, place);
        let end = left.saturating_add(duration);
        let reach = end.saturating_add(tail);
        raise(facts, half, reach);
    }
    raise(facts, 2 * input.durations.as_slice().len() + 1, left);
}

// Raises the bounds of a start to those of a window, if there is such an activity.
fn raise_window(facts: &mut Vec<u32>, input: &Input, upper: u32, window: StartWindow)
    requires window { Contains input.now.windows.items window }
    requires facts { spec.AreFacts input.now upper facts.old.items }
    ensures facts { spec.AreFacts input.now upper facts.new.items }
    ensures size { length facts.new.items ≡ length facts.old.items }
{
    let place = window.activity as usize;
    if place >= input.durations.len() {
        return;
    }
    raise(facts, 2 * place, window.earliest);
    raise(facts, 2 * place + 1, LIMIT.saturating_sub(window.latest));
}

// Raises the bounds of starts to those of all windows.
fn raise_windows(facts: &mut Vec<u32>, input: &Input, upper: u32)
    requires { spec.AreFacts input.now upper facts.old.items }
    ensures facts { spec.AreFacts input.now upper facts.new.items }
    ensures size { length facts.new.items ≡ length facts.old.items }
{
    for &window in &input.windows {
        raise_window(facts, input, upper, window);
    }
}

// The facts of a problem of which nothing is known but its windows and an upper bound of costs.
pub fn first_facts(alloc: Global, input: &Input, upper: u32) -> Result<Vec<u32>, AllocError>
    requires { upper ≤ LIMIT }
    ensures facts { IfOk result (λ facts. spec.AreFacts input.now upper facts.items) }
    ensures size { IfOk result (λ facts. length facts.items ≡ kernels.count_halves input.now) }
{
    let (durations, orders) = (input.durations.as_slice(), input.orders.as_slice());
    let halves = 2 * (durations.len() + 1 + orders.len());
    let mut facts = vec![in alloc; 0u32; halves]?;
    raise_latest(&mut facts, input, upper);
    raise_windows(&mut facts, input, upper);
    Ok(facts)
}

// The greatest known start with its duration and tail, or the known cost if that is greater.
pub fn greatest_cost(facts: &[u32], input: &Input, upper: u32) -> u32
    requires limit { upper ≤ LIMIT }
    requires facts { spec.AreFacts input.now upper facts.now }
    ensures reached { kernels.IsCostReached input.now upper result }
    ensures value { result ≡ min (kernels.cost_in input.now facts.now) 4294967295 }
{
    let mut greatest = 0;
    for (place, &duration) in input.durations.iter().enumerate() {
        let half = 2 * place;
        let tail = at(&input.tails, place);
        let end = at(facts, half).saturating_add(duration);
        let reach = end.saturating_add(tail);
        greatest = greatest.max(reach);
    }
    greatest.max(at(facts, 2 * input.durations.as_slice().len()))
}
