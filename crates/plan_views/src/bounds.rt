//! The line with the bounds of the least makespan.

ghost use Rattle.std.specs.Prelude.{◌≡◌, ◌++◌, ◌∷◌, map, IfOk};
ghost use Rattle.plan_gantt.specs.BestText as best;
ghost use Rattle.plan_formats.specs.TableLines.{line_of, line_text};
ghost use Rattle.plan_formats.specs.TableText.{text_of};
ghost use Rattle.plan_formats.specs.Tables.{table_of};
ghost use Rattle.plan_views.specs.Bounds as spec;

use plan_exact::Kind;
use plan_formats::{Line, Table};
use std::alloc::AllocError;

/// Returns the line of a search within a budget: the least makespan, or an upper bound of it.
pub fn kind_line(kind: Kind, makespan: u64) -> Line
    ensures value { line_of result ≡ spec.kind_line_of kind makespan }
    ensures text { line_text (line_of result) ≡ best.kind_line kind makespan }
{
    match kind {
        Kind::Optimal => Line::Optimal(makespan),
        Kind::Budget => Line::Budget(makespan),
    }
}

/// Returns the line of a lower bound and a makespan: both, or the makespan alone if the bound
/// reaches it.
pub fn bound_line(lower: u64, makespan: u64) -> Line
    ensures { line_of result ≡ spec.bound_line_of lower makespan }
{
    if lower < makespan {
        Line::Between(lower, makespan)
    } else {
        Line::Optimal(makespan)
    }
}

// Returns lines with another one above them.
fn with_first(line: Line, lines: Vec<Line>) -> Result<Vec<Line>, AllocError>
    ensures { IfOk result (λ made.
        map line_of made.items ≡ line_of line ∷ map line_of lines.items) }
{
    let mut made = lines;
    made.insert(0, line)?;
    Ok(made)
}

/// Returns a table with a line above the others.
pub fn with_line<'a>(line: Line, table: Table<'a>) -> Result<Table<'a>, AllocError>
    ensures value { IfOk result (λ made.
        table_of made ≡ spec.with_line_of (line_of line) (table_of table.entry)) }
    ensures text { IfOk result (λ made.
        text_of (table_of made) ≡ line_text (line_of line) ++ text_of (table_of table.entry)) }
{
    let above = with_first(line, table.above)?;
    Ok(Table { above, ..table })
}
