//! The charts of projects and job shops.

ghost use Rattle.std.specs.Prelude.{◌≡◌, ◌≤◌, [], length, slice_index, EachIndex};
ghost use Rattle.std.specs.Prelude.{IfOk, string_bytes};
ghost use Rattle.plan_gantt.specs.Limits.{latest_start};
ghost use Rattle.plan_sheet.specs.Escape.{markup_of};
ghost use Rattle.plan_sheet.specs.Layouts.{count_of, layout_of};
ghost use Rattle.plan_sheet.specs.Names.{bare, names_of};
ghost use Rattle.plan_sheet.specs.Plans as spec;

use crate::bars::last_end;
use crate::chart::{Chart, svg_chart};
use crate::layouts::{Layout, bar_ids, bar_names, bars_of, lines_of, row_names, shown_bars};
use crate::names::SheetNames;
use std::alloc::{AllocError, Global};

// Returns the chart of a schedule.
fn layout_svg(
    alloc: Global,
    title: &str,
    names: &SheetNames<'_>,
    layout: Layout<'_>,
    starts: &[u64],
) -> Result<String, AllocError>
    requires starts { length starts.now ≡ count_of (layout_of layout) }
    requires limit { EachIndex starts.now (λ k. slice_index starts.now k ≤ latest_start) }
    ensures text { IfOk result (λ text. string_bytes text
        ≡ spec.layout_svg title.now (names_of names.now) (layout_of layout.entry) starts.now) }
{
    let bars = bars_of(alloc, layout, starts)?;
    let shown = shown_bars(alloc, layout, names.ids, &bars)?;
    let lines = lines_of(alloc, layout, names)?;
    let chart = Chart {
        span: last_end(&bars),
        days: &[],
        per_day: 1,
        lines: &lines,
        ids: bar_ids(layout, names),
        rows: row_names(layout, names),
        names: bar_names(layout, names),
        bars: &shown,
        slacks: &[],
    };
    svg_chart(alloc, title, &chart)
}

/// Returns the Gantt chart of a schedule as an SVG file, with a title. Times are whole time units.
/// If there are ids, activities without an id are left out. The only error is out of memory.
pub fn svg_file(
    alloc: Global,
    title: &str,
    names: &SheetNames<'_>,
    layout: Layout<'_>,
    starts: &[u64],
) -> Result<String, AllocError>
    requires starts { length starts.now ≡ count_of (layout_of layout) }
    requires limit { EachIndex starts.now (λ k. slice_index starts.now k ≤ latest_start) }
    ensures text { IfOk result (λ text. string_bytes text
        ≡ spec.layout_svg title.now (names_of names.now) (layout_of layout.entry) starts.now) }
    // Its markup is the same whatever the title, the names and the texts of ids are.
    ensures safe { IfOk result (λ text. markup_of (string_bytes text) ≡ markup_of
        (spec.layout_svg [] (bare (names_of names.now)) (layout_of layout.entry) starts.now)) }
{
    let text = layout_svg(alloc, title, names, layout, starts)?;
    Ok(text)
}
