//! Texts of starts in four forms: bare numbers, a printed table, its CSV or its JSON.

ghost use Rattle.std.specs.Prelude.{◌≡◌, ◌≤◌, ℕ, List, All, IfOk, IfErr, MatchResult};
ghost use Rattle.std.specs.Prelude.{map, length};
ghost use Rattle.std.specs.List.{slice_split};
ghost use Rattle.plan_net.specs.Network.{count_of};
ghost use Rattle.plan_psplib.specs.Lines.{words};
ghost use Rattle.plan_psplib.specs.declared.text.fault.ReadError.TheVariants.{Memory};
ghost use Rattle.plan_psplib.specs.Tokens.{Fails, Gives, Reads};
ghost use Rattle.plan_profile.specs.Usage.{IsInTime};
ghost use Rattle.plan_shop.specs.Shop.{count_steps};
ghost use Rattle.plan_table.specs.Names.{name_of};
ghost use Rattle.plan_report.specs.IdSheets.{id_sheet as id_sheet_of};
ghost use Rattle.plan_report.specs.Sheet as sheets;
ghost use Rattle.plan_report.specs.StartsText as spec;

use crate::id_rows::{has_ids, read_rows};
use crate::id_sheets::id_sheet;
use crate::json_table::table_of_json;
use crate::sheet::{Absence, Entry, Row, Sheet, begins_with_makespan, check_end};
use crate::start_numbers::{all_tokens, read_numbers};
use plan_net::Network;
use plan_psplib::{Fault, FileCode, Lines, ReadError, Words, check_text};
use plan_shop::Shop;
use plan_table::NameLine;
use std::alloc::{AllocError, Global};

/// The form of a text of starts.
#[derive(Clone, Copy, PartialEq, Eq)]
pub enum Form {
    /// One number for each activity.
    Numbers,
    /// A table as a command prints it.
    Table,
    /// The table as CSV.
    Csv,
    /// The table as JSON.
    Json,
}

/// The names of the columns of a project's starts.
pub(crate) const ACTIVITY_COLUMNS: &[&str] = &["act", "d", "start", "end"];

/// The names of the columns of a job shop's starts.
const STEP_COLUMNS: &[&str] = &["job", "step", "mach", "d", "start", "end"];

// Returns the first word of a text, empty if there is none.
fn first_word(text: &[u8]) -> &[u8]
    ensures { result.now ≡ spec.first_word text.now }
{
    match all_tokens(text).next_word() {
        Some(word) => word.text,
        None => &[],
    }
}

// Tests whether a word begins the line with the result of a search.
fn is_result(word: &[u8]) -> bool
    ensures { result ≡ spec.is_result word.now }
{
    word == b"optimal".as_slice() || word == b"between".as_slice() || word == b"budget".as_slice()
}

// Tests whether a word begins a table. `ids` says whether `id` does.
fn is_table_word(ids: bool, word: &[u8]) -> bool
    ensures { result ≡ spec.is_table_word ids word.now }
{
    is_result(word)
        || word == b"act".as_slice()
        || word == b"job".as_slice()
        || (ids && word == b"id".as_slice())
}

// Returns a text without a byte-order mark at its start.
fn without_mark(text: &[u8]) -> &[u8]
    ensures { result.now ≡ spec.without_mark text.now }
{
    if text.starts_with(b"\xef\xbb\xbf") {
        &text[3..]
    } else {
        text
    }
}

// Tests whether a word begins a header line of CSV with ids.
fn begins_id_csv(word: &[u8]) -> bool
    ensures { result ≡ spec.begins_id_csv word.now }
{
    word.starts_with(b"id,") || word.starts_with(b"id;")
}

// Tests whether a word begins a header line of CSV. `ids` says whether `id` does.
fn begins_csv(ids: bool, word: &[u8]) -> bool
    ensures { result ≡ spec.begins_csv ids word.now }
{
    word.starts_with(b"act,")
        || word.starts_with(b"act;")
        || word.starts_with(b"job,")
        || word.starts_with(b"job;")
        || (ids && begins_id_csv(word))
}

// Tests whether a word begins a JSON document.
fn begins_json(word: &[u8]) -> bool
    ensures { result ≡ spec.begins_json word.now }
{
    word.starts_with(b"{")
}

// Returns the form of a text with this first word.
fn form_by(ids: bool, word: &[u8]) -> Form
    ensures { result ≡ spec.form_by ids word.now }
{
    if is_table_word(ids, word) {
        Form::Table
    } else if begins_csv(ids, word) {
        Form::Csv
    } else if begins_json(word) {
        Form::Json
    } else {
        Form::Numbers
    }
}

// Returns the form of a text.
fn form_of(sheet: &Sheet<'_>, text: &[u8]) -> Form
    ensures { result ≡ spec.form_of (sheets.sheet_of sheet.now) text.now }
{
    form_by(has_ids(sheet), first_word(without_mark(text)))
}

// Returns the words of a line.
fn words_of(alloc: Global, line: &[u8]) -> Result<Vec<&[u8]>, AllocError>
    ensures { IfOk result (λ cells. sheets.cells_of cells.items ≡ words line.now) }
{
    let mut cells = Vec::new(alloc);
    let mut rest = Words::new(line);
    while let Some(word) = rest.next_word() {
        cells.push(word)?;
    }
    Ok(cells)
}

// Returns the text of a line between its separators.
fn fields_of(alloc: Global, line: &[u8]) -> Result<Vec<&[u8]>, AllocError>
    ensures { IfOk result (λ cells.
        sheets.cells_of cells.items ≡ slice_split spec.is_separator line.now) }
{
    line.split(|&byte| byte == b',' || byte == b';')
        .collect(alloc)
}

// Returns the cells of a line.
fn cells_by(alloc: Global, form: Form, line: &[u8]) -> Result<Vec<&[u8]>, AllocError>
    ensures { IfOk result (λ cells. sheets.cells_of cells.items ≡ spec.cells_by form line.now) }
{
    match form {
        Form::Numbers => words_of(alloc, line),
        Form::Table => words_of(alloc, line),
        Form::Csv => fields_of(alloc, line),
        Form::Json => fields_of(alloc, line),
    }
}

// Returns the row of a line.
fn row_by(alloc: Global, form: Form, number: u64, text: &[u8]) -> Result<Row<'_>, AllocError>
    ensures { IfOk result (λ row. sheets.row_of row ≡
        record { line = number; cells = spec.cells_by form text.now }) }
{
    let cells = cells_by(alloc, form, text)?;
    Ok(Row {
        line: number,
        cells,
    })
}

// Returns the rows of a text: the cells of each line that isn't blank.
fn rows_by(alloc: Global, form: Form, text: &[u8]) -> Result<Vec<Row<'_>>, AllocError>
    ensures { IfOk result (λ rows. map sheets.row_of rows.items ≡ spec.rows_by form text.now) }
{
    let mut rows = Vec::new(alloc);
    let mut rest = Lines::new(without_mark(text));
    while let Some(line) = rest.next_line() {
        if !line.text.is_empty() {
            let row = row_by(alloc, form, line.number, line.text)?;
            rows.push(row)?;
        }
    }
    Ok(rows)
}

// Returns the rows behind a first one that begins with the result of a search.
fn behind_result<'a, 'b>(rows: &'a [Row<'b>]) -> &'a [Row<'b>]
    ensures { map sheets.row_of result.now ≡ spec.behind_result (map sheets.row_of rows.now) }
{
    match rows {
        [row, rest @ ..] if begins_with_result(&row.cells) => rest,
        _ => rows,
    }
}

// Tests whether the first of these cells begins the line with the result of a search.
fn begins_with_result(cells: &[&[u8]]) -> bool
    ensures { result ≡ spec.begins_with_result (sheets.cells_of cells.now) }
{
    match cells {
        [cell, ..] => is_result(cell),
        [] => false,
    }
}

// Checks the end of a table: perhaps a last row with the makespan.
#[tactic(auto, unfolding(crate::specs::StartsText::table_end))]
fn check_table_end(rows: &[Row<'_>]) -> Result<(), Fault>
    ensures { Reads (λ _. tt) result (spec.table_end (map sheets.row_of rows.now)) }
{
    let [row, rest @ ..] = rows else {
        return Ok(());
    };
    if !begins_with_makespan(&row.cells) {
        return Err(Fault::new(FileCode::Count, row.line));
    }
    check_end(rest)
}

// Returns the starts in a table, or the first check that fails.
#[tactic(auto, unfolding(crate::specs::StartsText::table_starts))]
fn table_starts(
    alloc: Global,
    form: Form,
    sheet: &Sheet<'_>,
    text: &[u8],
) -> Result<Vec<u64>, ReadError>
    requires entries { All (λ entry. entry.duration ≤ 10000) sheet.now.entries.items }
    requires ids { All (λ entry. entry.entry.duration ≤ 10000) sheet.now.by_id.items }
    ensures { Gives (λ v. v.items) result
        (spec.table_starts form (sheets.sheet_of sheet.now) text.now) }
{
    let rows = rows_by(alloc, form, text)?;
    let (starts, rest) = read_rows(alloc, form, sheet, behind_result(&rows))?;
    check_table_end(rest)?;
    Ok(starts)
}

// Returns the starts in a JSON document, or the first check that fails.
#[tactic(auto, unfolding(crate::specs::StartsText::json_starts))]
fn json_starts(alloc: Global, sheet: &Sheet<'_>, text: &[u8]) -> Result<Vec<u64>, ReadError>
    requires entries { All (λ entry. entry.duration ≤ 10000) sheet.now.entries.items }
    requires ids { All (λ entry. entry.entry.duration ≤ 10000) sheet.now.by_id.items }
    ensures { Gives (λ v. v.items) result (spec.json_starts (sheets.sheet_of sheet.now) text.now) }
{
    let table = table_of_json(alloc, has_ids(sheet), sheet.columns, without_mark(text))?;
    table_starts(alloc, Form::Json, sheet, table.as_bytes())
}

// Returns the starts in a text, or the first check that fails.
#[tactic(auto, unfolding(crate::specs::StartsText::starts_in))]
fn read_starts(alloc: Global, sheet: &Sheet<'_>, text: &[u8]) -> Result<Vec<u64>, ReadError>
    requires entries { All (λ entry. entry.duration ≤ 10000) sheet.now.entries.items }
    requires ids { All (λ entry. entry.entry.duration ≤ 10000) sheet.now.by_id.items }
    ensures { Gives (λ v. v.items) result (spec.starts_in (sheets.sheet_of sheet.now) text.now) }
{
    check_text(text)?;
    match form_of(sheet, text) {
        Form::Numbers => read_numbers(alloc, sheet.entries.len(), without_mark(text)),
        Form::Table => table_starts(alloc, Form::Table, sheet, text),
        Form::Csv => table_starts(alloc, Form::Csv, sheet, text),
        Form::Json => json_starts(alloc, sheet, text),
    }
}

/// Returns the entries of a project's activities.
pub(crate) fn activity_entries(alloc: Global, network: &Network) -> Result<Vec<Entry>, AllocError>
    ensures entries { IfOk result (λ entries. map sheets.entry_of entries.items
        ≡ spec.activity_entries network.now) }
    ensures short { IfOk result (λ entries. All (λ entry. entry.duration ≤ 10000) entries.items) }
{
    let mut entries = Vec::new(alloc);
    for k in 0..network.len() {
        let j = k as u32 + 1;
        let duration = network.duration(j);
        let keys = Vec::from_array(alloc, [j as u64, duration])?;
        entries.push(Entry {
            keys,
            duration,
            absence: Absence::Never,
        })?;
    }
    Ok(entries)
}

// Tests whether a table may lack the row of a step, by its number in its job and its time.
fn absence_of(step: u64, time: u64) -> Absence
    ensures { result ≡ spec.absence_of step time }
{
    if time != 0 {
        Absence::Never
    } else if step == 1 {
        Absence::AtZero
    } else {
        Absence::AtEnd
    }
}

// Returns the entries of a shop's steps.
fn step_entries(alloc: Global, shop: &Shop) -> Result<Vec<Entry>, AllocError>
    ensures entries { IfOk result (λ entries. map sheets.entry_of entries.items
        ≡ spec.step_entries shop.now) }
    ensures short { IfOk result (λ entries. All (λ entry. entry.duration ≤ 10000) entries.items) }
{
    let machines = shop.machines();
    let mut entries = Vec::new(alloc);
    for x in 0..shop.jobs() * machines {
        let step = shop.step(x);
        let job = (x / machines + 1) as u64;
        let place = (x % machines + 1) as u64;
        let keys = Vec::from_array(alloc, [job, place, step.machine as u64, step.time])?;
        entries.push(Entry {
            keys,
            duration: step.time,
            absence: absence_of(place, step.time),
        })?;
    }
    Ok(entries)
}

// Returns the sheet of a project's starts.
fn activity_sheet(alloc: Global, network: &Network) -> Result<Sheet<'static>, AllocError>
    ensures sheet { IfOk result (λ sheet. sheets.sheet_of sheet ≡ spec.activity_sheet network.now) }
    ensures short { IfOk result (λ sheet.
        All (λ entry. entry.duration ≤ 10000) sheet.entries.items) }
    ensures ids { IfOk result (λ sheet.
        All (λ entry. entry.entry.duration ≤ 10000) sheet.by_id.items) }
{
    Ok(Sheet {
        columns: ACTIVITY_COLUMNS,
        entries: activity_entries(alloc, network)?,
        by_id: Vec::new(alloc),
        waits: Vec::new(alloc),
    })
}

// Returns the sheet of a job shop's starts.
fn step_sheet(alloc: Global, shop: &Shop) -> Result<Sheet<'static>, AllocError>
    ensures sheet { IfOk result (λ sheet. sheets.sheet_of sheet ≡ spec.step_sheet shop.now) }
    ensures short { IfOk result (λ sheet.
        All (λ entry. entry.duration ≤ 10000) sheet.entries.items) }
    ensures ids { IfOk result (λ sheet.
        All (λ entry. entry.entry.duration ≤ 10000) sheet.by_id.items) }
{
    Ok(Sheet {
        columns: STEP_COLUMNS,
        entries: step_entries(alloc, shop)?,
        by_id: Vec::new(alloc),
        waits: Vec::new(alloc),
    })
}

/// Reads the starts of a project's activities, in whole time units: index `k` is activity `k + 1`.
///
/// A text has one of four forms, and its first word shows which:
/// - numbers: one for each activity, in order;
/// - a table as `schedule`, `best-project` or `solve` prints it: perhaps a line with the result of
///   a search, a line with the names of the columns, a row for each activity, and perhaps the line
///   with the makespan. A name may follow on each row. Blank lines don't count;
/// - the same rows as CSV, with commas or semicolons. Cells of numbers have no quotes. With tabs,
///   the rows are a table;
/// - a JSON object: its array `rows` has an object for each row, with the names of the columns.
///
/// A byte-order mark before a table, CSV or JSON is skipped.
///
/// The error is the first check that fails, with its line: `Count` (F9) if a number or a row is
/// missing or left over, `BadNumber` (F6) for a cell that is no number, `Limit` (F10) for a start
/// above 10,000,000, `MissingHead` (F3) if the columns aren't those of a project, and `JobOrder`
/// (F7) if a number isn't that of the row: the activity's number, its duration or its end. Row `k`
/// of a JSON object counts as line `k + 1`; `MissingHead` at line 1 if the text isn't JSON.
pub fn read_starts_text(
    alloc: Global,
    network: &Network,
    text: &[u8],
) -> Result<Vec<u64>, ReadError>
    ensures said { IfOk result (λ starts.
        spec.SaysStarts (spec.activity_sheet network.now) text.now starts.items) }
    // The starts in a text are read, unless memory runs out.
    ensures only { (starts : List ℕ) →
        spec.SaysStarts (spec.activity_sheet network.now) text.now starts →
        MatchResult result (λ read. read.items ≡ starts) (λ e. e ≡ Memory) }
    ensures refused { IfErr result (λ e.
        Fails e (spec.starts_in (spec.activity_sheet network.now) text.now)) }
    ensures whole { IfOk result (λ starts. length starts.items ≡ count_of network.now) }
    ensures in_time { IfOk result (λ starts. All IsInTime starts.items) }
{
    let sheet = activity_sheet(alloc, network)?;
    read_starts(alloc, &sheet, text)
}

/// Reads the starts of a project's activities, in whole time units: index `k` is activity `k + 1`.
/// The forms and the errors are those of [`read_starts_text`], and activities can have ids. The id
/// of an activity is the first one of its number in `ids`.
///
/// If all activities but the first, the last and the waits before the last have an id, and these
/// have none, a table, CSV or JSON may have the column `id` in place of the activity's number. It
/// has a row for each activity with an id, in any order. A cell of CSV may have the id in quotes.
/// JSON is such a table if its first row has a string `id`; the numbers of activities don't count
/// then. The first activity starts at 0, a wait at the end of its only predecessor, and the last
/// activity at the greatest end of those with an id.
///
/// Errors of such a table: `Count` (F9) if a row is missing or left over, `JobOrder` (F7) for a row
/// whose id isn't that of exactly one activity or is that of an earlier row, or whose duration or
/// end isn't that of the activity, and `Limit` (F10) at the last row if the greatest end is above
/// 10,000,000. The ids are checked in the order of the rows, and then the rows in the order of the
/// activities.
pub fn read_id_starts_text(
    alloc: Global,
    network: &Network,
    ids: &[NameLine<'_>],
    text: &[u8],
) -> Result<Vec<u64>, ReadError>
    ensures said { IfOk result (λ starts.
        spec.SaysStarts (id_sheet_of (map name_of ids.now) network.now) text.now starts.items) }
    // The starts in a text are read, unless memory runs out.
    ensures only { (starts : List ℕ) →
        spec.SaysStarts (id_sheet_of (map name_of ids.now) network.now) text.now starts →
        MatchResult result (λ read. read.items ≡ starts) (λ e. e ≡ Memory) }
    ensures refused { IfErr result (λ e.
        Fails e (spec.starts_in (id_sheet_of (map name_of ids.now) network.now) text.now)) }
    ensures whole { IfOk result (λ starts. length starts.items ≡ count_of network.now) }
    ensures in_time { IfOk result (λ starts. All IsInTime starts.items) }
{
    let sheet = id_sheet(alloc, network, ids)?;
    read_starts(alloc, &sheet, text)
}

/// Reads the starts of a job shop's steps in flat order, in whole time units. The forms and the
/// errors are those of [`read_starts_text`]; the table is that of `shop`, `best`, `prove` or
/// `solve`. A table may lack rows of steps of time 0: such a step starts at the end of the step
/// before it in its job, or at 0 if it is the first one.
pub fn read_shop_starts_text(alloc: Global, shop: &Shop, text: &[u8]) -> Result<Vec<u64>, ReadError>
    ensures said { IfOk result (λ starts.
        spec.SaysStarts (spec.step_sheet shop.now) text.now starts.items) }
    // The starts in a text are read, unless memory runs out.
    ensures only { (starts : List ℕ) →
        spec.SaysStarts (spec.step_sheet shop.now) text.now starts →
        MatchResult result (λ read. read.items ≡ starts) (λ e. e ≡ Memory) }
    ensures refused { IfErr result (λ e.
        Fails e (spec.starts_in (spec.step_sheet shop.now) text.now)) }
    ensures whole { IfOk result (λ starts. length starts.items ≡ count_steps shop.now) }
    ensures in_time { IfOk result (λ starts. All IsInTime starts.items) }
{
    let sheet = step_sheet(alloc, shop)?;
    read_starts(alloc, &sheet, text)
}
