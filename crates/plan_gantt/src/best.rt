//! Texts of the best schedules of shops and projects.

ghost use Rattle.std.specs.Prelude.{◌≡◌, ◌≤◌, length, slice_index, EachIndex, IfOk, string_bytes};
ghost use Rattle.plan_net.specs.Network.{count_of};
ghost use Rattle.plan_shop.specs.Shop.{count_steps};
ghost use Rattle.plan_gantt.specs.Limits.{latest_start};
ghost use Rattle.plan_gantt.specs.BestText.{kind_text, best_text_of};
ghost use Rattle.plan_gantt.specs.ProjectBestText.{best_project_text_of};

use crate::schedules::push_schedule_table;
use crate::shops::push_shop_table;
use plan_exact::{Kind, Solved};
use plan_sgs::Instance;
use plan_shop::Shop;
use std::alloc::{AllocError, Global};
use std::fmt::Write;

// Returns the word of a kind: `optimal` or `budget`.
fn kind_word(kind: Kind) -> &'static str
    ensures { result.now ≡ kind_text kind }
{
    match kind {
        Kind::Optimal => "optimal",
        Kind::Budget => "budget",
    }
}

/// Returns the text of the best schedule of a shop: a line with `optimal` or `budget` and the
/// makespan, then the table of the schedule.
pub fn best_text(alloc: Global, shop: &Shop, solved: &Solved) -> Result<String, AllocError>
    requires starts { length solved.now.schedule.starts.items ≡ count_steps shop.now }
    requires limit { EachIndex solved.now.schedule.starts.items
        (λ k. slice_index solved.now.schedule.starts.items k ≤ latest_start) }
    ensures text { IfOk result (λ text. string_bytes text ≡ best_text_of shop.now solved.now) }
{
    let mut text = String::new(alloc);
    let schedule = &solved.schedule;
    let (kind, makespan) = (kind_word(solved.kind), schedule.makespan);
    writeln!(text, "{kind} {makespan}")?;
    push_shop_table(&mut text, shop, &schedule.starts, makespan)?;
    Ok(text)
}

/// Returns the text of the best schedule of a project: a line with `optimal` or `budget` and the
/// makespan, then the table of the schedule.
pub fn best_project_text(
    alloc: Global,
    instance: &Instance,
    solved: &Solved,
) -> Result<String, AllocError>
    requires starts { length solved.now.schedule.starts.items ≡
        count_of instance.now.project.network }
    requires limit { EachIndex solved.now.schedule.starts.items
        (λ k. slice_index solved.now.schedule.starts.items k ≤ latest_start) }
    ensures text { IfOk result (λ text.
        string_bytes text ≡ best_project_text_of instance.now solved.now) }
{
    let mut text = String::new(alloc);
    let schedule = &solved.schedule;
    let (kind, makespan) = (kind_word(solved.kind), schedule.makespan);
    writeln!(text, "{kind} {makespan}")?;
    push_schedule_table(&mut text, instance.network(), &schedule.starts, makespan)?;
    Ok(text)
}
