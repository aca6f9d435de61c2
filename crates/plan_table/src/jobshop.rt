//! The `jobshop1` text of a list of orders.

ghost use Rattle.std.specs.Prelude.{◌≡◌, ◌≤◌, ◌<◌, ◌++◌, [], ◌∷◌, length, map, take, IfOk, IsErrOf, OnOk, string_bytes};
ghost use Rattle.std.specs.List.{list_any};
ghost use Rattle.plan_orlib.specs.Says.{Says, job_numbers};
ghost use Rattle.plan_psplib.specs.Plain.{longest_text};
ghost use Rattle.plan_table.specs.Numbered.{numbered};
ghost use Rattle.plan_table.specs.ShopNames.{SaysShopNames};
ghost use Rattle.plan_table.specs.ShopTable as shop;
ghost use Rattle.plan_table.specs.ShopText as spec;

use crate::columns::push_columns;
use crate::fault::TextFault;
use crate::shop_table::{ShopStep, ShopTable};
use plan_psplib::LONGEST_TEXT;
use std::alloc::{AllocError, Global};
use std::fmt::Write;

// Puts a step behind others if it is one of an order.
fn push_of(job: &mut Vec<ShopStep>, order: u32, step: ShopStep) -> Result<(), AllocError>
    ensures { OnOk result (map shop.step_of job.new.items ≡ map shop.step_of job.old.items
        ++ shop.steps_of order (step ∷ [])) }
{
    if step.order == order {
        job.push(step)?;
    }
    Ok(())
}

// The steps of an order.
fn steps_of(alloc: Global, steps: &[ShopStep], order: u32) -> Result<Vec<ShopStep>, AllocError>
    ensures { IfOk result (λ v. map shop.step_of v.items ≡ shop.steps_of order steps.now) }
{
    let mut job = Vec::new(alloc);
    for &step in steps {
        push_of(&mut job, order, step)?;
    }
    Ok(job)
}

// Whether a step is on a machine.
fn uses(job: &[ShopStep], machine: u32) -> bool
    ensures { result ≡ list_any (shop.is_on machine) (map shop.step_of job.now) }
{
    for step in job {
        if step.machine == machine {
            return true;
        }
    }
    false
}

// Puts a step that takes no time behind others, if a job doesn't use its machine.
fn push_idle(
    idle: &mut Vec<ShopStep>,
    job: &[ShopStep],
    order: u32,
    machine: u32,
) -> Result<(), AllocError>
    ensures { OnOk result (map shop.step_of idle.new.items ≡ map shop.step_of idle.old.items
        ++ shop.idle_on (map shop.step_of job.now) machine) }
{
    if !uses(job, machine) {
        idle.push(ShopStep {
            order,
            machine,
            time: 0,
        })?;
    }
    Ok(())
}

// Steps that take no time, one on each machine that a job doesn't use.
fn idle(
    alloc: Global,
    machines: &[String],
    job: &[ShopStep],
    order: u32,
) -> Result<Vec<ShopStep>, AllocError>
    requires { length machines.now ≤ 20 }
    ensures { IfOk result (λ v. map shop.step_of v.items ≡ shop.idle
        (map string_bytes machines.now) (map shop.step_of job.now)) }
{
    let mut idle = Vec::new(alloc);
    for (k, _name) in machines.iter().enumerate() {
        push_idle(&mut idle, job, order, k as u32)?;
    }
    Ok(idle)
}

// The first steps.
fn first_steps(steps: &[ShopStep], count: usize) -> &[ShopStep]
    ensures { result.now ≡ take count steps.now }
{
    if count < steps.len() {
        &steps[..count]
    } else {
        steps
    }
}

// The steps of the job of an order.
fn job_of(
    alloc: Global,
    machines: &[String],
    steps: &[ShopStep],
    order: u32,
) -> Result<Vec<ShopStep>, AllocError>
    requires { length machines.now ≤ 20 }
    ensures { IfOk result (λ v. map shop.step_of v.items ≡ shop.padded
        (map string_bytes machines.now) (shop.steps_of order steps.now)) }
{
    let mut job = steps_of(alloc, steps, order)?;
    let idle = idle(alloc, machines, &job, order)?;
    let missing = machines.len().saturating_sub(job.as_slice().len());
    job.extend_from_slice(first_steps(&idle, missing))?;
    Ok(job)
}

// The numbers of a job.
fn numbers_of(alloc: Global, job: &[ShopStep]) -> Result<Vec<u32>, AllocError>
    ensures { IfOk result (λ v. v.items ≡ job_numbers (map shop.step_of job.now)) }
{
    let mut numbers = Vec::new(alloc);
    for step in job {
        numbers.push(step.machine)?;
        numbers.push(step.time)?;
    }
    Ok(numbers)
}

// A line of numbers.
#[tactic(auto, unfolding(crate::specs::ShopText::number_line))]
fn push_number_line(alloc: Global, text: &mut String, numbers: &[u32]) -> Result<(), AllocError>
    ensures { OnOk result (string_bytes text.new ≡ string_bytes text.old
        ++ spec.number_line numbers.now) }
{
    push_columns(alloc, text, 2, 4, numbers)?;
    text.push_str("\n")
}

// The line of a machine's name.
#[tactic(auto, unfolding(crate::specs::ShopText::machine_line))]
fn push_machine_line(text: &mut String, k: u32, name: &str) -> Result<(), AllocError>
    ensures { OnOk result (string_bytes text.new ≡ string_bytes text.old
        ++ spec.machine_line k name.now) }
{
    write!(text, "+ machine {k} {name}\n")
}

// The line of an order's name.
#[tactic(auto, unfolding(crate::specs::ShopText::order_line))]
fn push_order_line(text: &mut String, j: u32, name: &str) -> Result<(), AllocError>
    ensures { OnOk result (string_bytes text.new ≡ string_bytes text.old
        ++ spec.order_line j name.now) }
{
    write!(text, "+ job {j} {name}\n")
}

// The lines of the machines' names.
fn push_machine_lines(text: &mut String, machines: &[String]) -> Result<(), AllocError>
    requires { length machines.now ≤ 20 }
    ensures { OnOk result (string_bytes text.new ≡ string_bytes text.old
        ++ numbered spec.machine_line 0 (map string_bytes machines.now)) }
{
    for (k, name) in machines.iter().enumerate() {
        push_machine_line(text, k as u32, name.as_str())?;
    }
    Ok(())
}

// The lines of the orders' names.
fn push_order_lines(text: &mut String, orders: &[String]) -> Result<(), AllocError>
    requires { length orders.now ≤ 50 }
    ensures { OnOk result (string_bytes text.new ≡ string_bytes text.old
        ++ numbered spec.order_line 1 (map string_bytes orders.now)) }
{
    for (k, name) in orders.iter().enumerate() {
        push_order_line(text, k as u32 + 1, name.as_str())?;
    }
    Ok(())
}

// The line of an order.
fn push_job_line(
    alloc: Global,
    text: &mut String,
    table: &ShopTable,
    order: u32,
) -> Result<(), AllocError>
    ensures { OnOk result (string_bytes text.new ≡ string_bytes text.old
        ++ spec.job_line table.now order) }
{
    let job = job_of(alloc, &table.machines, &table.steps, order)?;
    let numbers = numbers_of(alloc, &job)?;
    push_number_line(alloc, text, &numbers)
}

// The lines of the orders.
fn push_job_lines(
    alloc: Global,
    text: &mut String,
    table: &ShopTable,
    orders: &[String],
) -> Result<(), AllocError>
    requires { length orders.now ≤ 50 }
    ensures { OnOk result (string_bytes text.new ≡ string_bytes text.old
        ++ numbered (λ k _. spec.job_line table.now k) 0 (map string_bytes orders.now)) }
{
    for (k, _name) in orders.iter().enumerate() {
        push_job_line(alloc, text, table, k as u32)?;
    }
    Ok(())
}

// The numbers of the instance.
fn push_numbers(alloc: Global, text: &mut String, table: &ShopTable) -> Result<(), AllocError>
    ensures { OnOk result (string_bytes text.new ≡ string_bytes text.old
        ++ spec.shop_numbers_text table.now) }
{
    let sizes = [table.orders.len() as u32, table.machines.len() as u32];
    push_number_line(alloc, text, &sizes)?;
    push_job_lines(alloc, text, table, &table.orders)
}

// The text of a list of orders.
fn written(alloc: Global, table: &ShopTable) -> Result<String, AllocError>
    ensures text { IfOk result (λ text. string_bytes text ≡ spec.shop_text table.now) }
    ensures table { IfOk result (λ _. shop.IsShopTable table.now) }
{
    let mut text = String::new(alloc);
    text.push_str("instance shop\n")?;
    push_machine_lines(&mut text, &table.machines)?;
    push_order_lines(&mut text, &table.orders)?;
    text.push_str("plan import\n")?;
    push_numbers(alloc, &mut text, table)?;
    Ok(text)
}

/// The `jobshop1` text of a list of orders: one instance, named `shop`. Reading it gives the shop of
/// the list. Job `k` is order `k`, and a machine keeps its number. An order with fewer steps than there
/// are machines gets steps of time 0 on machines that it doesn't use, in the order of their numbers.
/// Plus lines before the description have the names of machines and orders, which a reader skips. A
/// text that no reader would take for its length is refused.
pub fn shop_text(alloc: Global, table: &ShopTable) -> Result<String, TextFault>
    ensures text { IfOk result (λ text. string_bytes text ≡ spec.shop_text table.now) }
    ensures says { IfOk result (λ text. Says spec.instance (string_bytes text)
        (shop.shop_of table.now)) }
    ensures names { IfOk result (λ text. SaysShopNames (string_bytes text) table.now) }
    ensures long { IsErrOf result TextFault.TooLong →
        longest_text < length (spec.shop_text table.now) }
{
    let text = written(alloc, table)?;
    if text.as_bytes().len() > LONGEST_TEXT {
        return Err(TextFault::TooLong);
    }
    Ok(text)
}
