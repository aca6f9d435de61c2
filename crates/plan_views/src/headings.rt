//! The columns of tables.

ghost use Rattle.std.specs.Prelude.{◌≡◌};
ghost use Rattle.plan_formats.specs.Columns.{column_of};
ghost use Rattle.plan_views.specs.Headings as spec;

use plan_formats::{Column, Layout};

/// Returns a column that is aligned right in so many characters.
pub(crate) fn right(heading: &'static str, word: &'static str, places: usize) -> Column
    ensures { column_of result ≡ spec.right_column heading.now word.now places }
{
    Column {
        heading,
        word,
        layout: Layout::Right(places),
    }
}

/// Returns the column of the activity.
pub(crate) fn activity() -> Column
    ensures { column_of result ≡ spec.activity_column }
{
    right("act", "activity", 4)
}

/// Returns the column of the job.
pub(crate) fn job() -> Column
    ensures { column_of result ≡ spec.job_column }
{
    right("job", "job", 4)
}

/// Returns the column of the step.
pub(crate) fn step() -> Column
    ensures { column_of result ≡ spec.step_column }
{
    right("step", "step", 8)
}

/// Returns the column of the machine.
pub(crate) fn machine() -> Column
    ensures { column_of result ≡ spec.machine_column }
{
    right("mach", "machine", 8)
}

/// Returns the column of the duration.
pub(crate) fn duration() -> Column
    ensures { column_of result ≡ spec.duration_column }
{
    right("d", "duration", 8)
}

/// Returns the column of the start.
pub(crate) fn start() -> Column
    ensures { column_of result ≡ spec.start_column }
{
    right("start", "start", 8)
}

/// Returns the column of the end.
pub(crate) fn end() -> Column
    ensures { column_of result ≡ spec.end_column }
{
    right("end", "end", 8)
}

/// Returns the column with the marks of critical activities.
pub(crate) fn mark() -> Column
    ensures { column_of result ≡ spec.mark_column }
{
    Column {
        heading: "critical",
        word: "critical",
        layout: Layout::Mark,
    }
}

/// Returns the column of whole lines.
pub(crate) fn line(word: &'static str) -> Column
    ensures { column_of result ≡ spec.line_column word.now }
{
    Column {
        heading: word,
        word,
        layout: Layout::Line,
    }
}
