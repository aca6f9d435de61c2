//! A table's text as records of cells.

ghost use Rattle.std.specs.Prelude.{◌≡◌, ◌≤◌, ◌<◌, ◌+◌, [], ◌∷◌, length, map, fold, IfOk, OnOk};
ghost use Rattle.csv.specs.Machine.{ends_at_end as ends};
ghost use Rattle.std.specs.List.{position};
ghost use Rattle.plan_psplib.specs.Lines.{is_line_feed, raw_lines};
ghost use Rattle.plan_psplib.specs.Plain.{longest_text};
ghost use Rattle.plan_table.specs.Csv as spec;
ghost use Rattle.plan_table.specs.Entries.{filled_from};
ghost use Rattle.plan_table.specs.Kinds as kinds;

use crate::csv_step::{Action, State, step};
use crate::entries::is_blank_row;
use plan_psplib::trim;
use std::alloc::{AllocError, Global};
use std::mem::replace;

/// A record: its cells, and the line in which it begins.
#[derive(Drop)]
pub struct Row {
    pub line: u64,
    pub cells: Vec<Vec<u8>>,
}

/// The part of a text that has been read.
#[derive(Drop)]
pub struct Machine {
    pub state: State,
    pub cells: Vec<Vec<u8>>,
    pub cell: Vec<u8>,
    pub line: u64,
    pub first: u64,
    pub rows: Vec<Row>,
}

// Whether no byte of a record has come yet.
fn is_between(state: State) -> bool
    ensures { result ≡ spec.is_between (spec.state_of state) }
{
    matches!(state, State::StartRecord | State::AfterCr)
}

// The line in which the record begins that the next byte belongs to.
fn first_line(machine: &Machine) -> u64
    ensures { result ≡ spec.first_line (spec.machine_of machine.now) }
{
    if is_between(machine.state) {
        machine.line
    } else {
        machine.first
    }
}

// The line behind a byte.
fn line_behind(line: u64, byte: u8) -> u64
    requires { line < 4294967296 }
    ensures value { result ≡ spec.line_behind line byte }
    ensures limit { result ≤ line + 1 }
{
    if byte == b'\n' { line + 1 } else { line }
}

impl Machine {
    /// Before any byte.
    pub fn new(alloc: Global) -> Machine
        ensures { spec.machine_of result ≡ spec.fresh }
    {
        Machine {
            state: State::StartRecord,
            cells: Vec::new(alloc),
            cell: Vec::new(alloc),
            line: 1,
            first: 1,
            rows: Vec::new(alloc),
        }
    }

    // Ends the cell at hand.
    fn end_cell(&mut self, alloc: Global) -> Result<(), AllocError>
        ensures { OnOk result (spec.machine_of self.new ≡ spec.cell_ended
            (spec.machine_of self.old)) }
    {
        let cell = replace(&mut self.cell, Vec::new(alloc));
        self.cells.push(cell)?;
        Ok(())
    }

    // Ends the record at hand.
    fn end_record(&mut self, alloc: Global) -> Result<(), AllocError>
        ensures { OnOk result (spec.machine_of self.new ≡ spec.record_ended
            (spec.machine_of self.old)) }
    {
        self.end_cell(alloc)?;
        let row = Row {
            line: self.first,
            cells: replace(&mut self.cells, Vec::new(alloc)),
        };
        self.rows.push(row)?;
        Ok(())
    }

    // Does an action with a byte.
    fn act(&mut self, alloc: Global, byte: u8, action: Action) -> Result<(), AllocError>
        ensures { OnOk result (spec.machine_of self.new ≡ spec.acted
            (spec.machine_of self.old) byte (spec.action_of action)) }
    {
        match action {
            Action::Skip => Ok(()),
            Action::Copy => Ok(self.cell.push(byte)?),
            Action::EndField => self.end_cell(alloc),
            Action::EndRecord => self.end_record(alloc),
        }
    }

    /// Takes a byte.
    pub fn feed(&mut self, alloc: Global, delimiter: u8, byte: u8) -> Result<(), AllocError>
        requires { self.old.line < 4294967296 }
        ensures fed { OnOk result (spec.machine_of self.new ≡ spec.fed delimiter
            (spec.machine_of self.old) byte) }
        ensures limit { OnOk result (self.new.line ≤ self.old.line + 1) }
    {
        let (state, action) = step(delimiter, self.state, byte);
        self.first = first_line(self);
        self.line = line_behind(self.line, byte);
        self.state = state;
        self.act(alloc, byte, action)
    }
}

// The machine after a text.
fn scanned(alloc: Global, delimiter: u8, text: &[u8]) -> Result<Machine, AllocError>
    requires { length text.now ≤ longest_text }
    ensures { IfOk result (λ m. spec.machine_of m ≡ spec.scanned delimiter text.now) }
{
    let mut machine = Machine::new(alloc);
    for &byte in text {
        machine.feed(alloc, delimiter, byte)?;
    }
    Ok(machine)
}

// Whether there is a record behind so many others, and something stands in it.
fn has_content_at(rows: &[Row], place: usize) -> bool
    ensures { result ≡ kinds.has_content_at place (map spec.row_of rows.now) }
{
    rows.len() > place && !is_blank_row(&rows[place].cells)
}

impl Machine {
    // Takes a byte. Returns whether a record with content ends with it. There is none before.
    fn feed_to_content(
        &mut self,
        alloc: Global,
        delimiter: u8,
        byte: u8,
    ) -> Result<bool, AllocError>
        requires line { self.old.line < 4294967296 }
        requires blank { filled_from (spec.machine_of self.old).rows ≡ [] }
        ensures fed { OnOk result (spec.machine_of self.new ≡ spec.fed delimiter
            (spec.machine_of self.old) byte) }
        ensures limit { OnOk result (self.new.line ≤ self.old.line + 1) }
        ensures content { IfOk result (λ found. found
            ≡ kinds.has_content (spec.machine_of self.new).rows) }
    {
        let before = self.rows.len();
        self.feed(alloc, delimiter, byte)?;
        Ok(has_content_at(&self.rows, before))
    }
}

// The machine after a text, or after the first record with content in it.
fn scanned_to_content(alloc: Global, delimiter: u8, text: &[u8]) -> Result<Machine, AllocError>
    requires { length text.now ≤ longest_text }
    ensures { IfOk result (λ m. kinds.first_cells (spec.rows_at_end (spec.machine_of m))
        ≡ kinds.first_cells (spec.rows_at_end (spec.scanned delimiter text.now))) }
{
    let mut machine = Machine::new(alloc);
    for &byte in text {
        if machine.feed_to_content(alloc, delimiter, byte)? {
            return Ok(machine);
        }
    }
    Ok(machine)
}

// Whether the end of a text ends a record.
fn ends_at_end(state: State) -> bool
    ensures { result ≡ ends (spec.state_of state) }
{
    !matches!(state, State::StartRecord | State::AfterCr)
}

impl Machine {
    // The records, with the one that the end of the text ends.
    fn into_rows(mut self, alloc: Global) -> Result<Vec<Row>, AllocError>
        ensures { IfOk result (λ rows. map spec.row_of rows.items
            ≡ spec.rows_at_end (spec.machine_of self)) }
    {
        if ends_at_end(self.state) {
            self.end_record(alloc)?;
        }
        Ok(self.rows)
    }

    // The line of a record that ends between quotes.
    fn unclosed(&self) -> Option<u64>
        ensures { result ≡ spec.unclosed (spec.machine_of self.now) }
    {
        match self.state {
            State::InQuoted => Some(self.first),
            _ => None,
        }
    }
}

// The delimiter of a header line.
fn delimiter_of(line: &[u8]) -> u8
    ensures { result ≡ spec.delimiter_of line.now }
{
    if line.contains(&b'\t') {
        b'\t'
    } else if line.contains(&b';') {
        b';'
    } else {
        b','
    }
}

// Returns the end of the first line.
fn first_line_end(text: &[u8]) -> Option<usize>
    ensures { result ≡ position is_line_feed text.now }
{
    text.iter().position(|&byte| byte == b'\n')
}

// Splits a nonempty text into its first line and the text behind it.
#[tactic(auto, using(crate::proofs::HeaderLineLemmas::first_line, crate::proofs::HeaderLineLemmas::only_line))]
fn cut_line(text: &[u8]) -> (&[u8], &[u8])
    requires { 0 < length text.now }
    ensures line { raw_lines text.now ≡ result.0.now ∷ raw_lines result.1.now }
    ensures shorter { length result.1.now < length text.now }
{
    match first_line_end(text) {
        Some(end) => (&text[..end], &text[end + 1..]),
        None => (text, &[]),
    }
}

// The first line of a text in which something stands.
fn header_line(text: &[u8]) -> &[u8]
    ensures { result.now ≡ spec.header_line text.now }
{
    let mut rest = text;
    while !rest.is_empty() {
        let (line, others) = cut_line(rest);
        if !trim(line).is_empty() {
            return line;
        }
        rest = others;
    }
    b""
}

// A text without a byte-order mark at its start.
fn without_mark(text: &[u8]) -> &[u8]
    ensures { result.now ≡ spec.without_mark text.now }
{
    if text.starts_with(b"\xef\xbb\xbf") {
        &text[3..]
    } else {
        text
    }
}

// The machine after a table's text.
fn read(alloc: Global, text: &[u8]) -> Result<Machine, AllocError>
    requires { length text.now ≤ longest_text }
    ensures { IfOk result (λ m. spec.machine_of m ≡ spec.read_of text.now) }
{
    scanned(alloc, delimiter_of(header_line(text)), text)
}

/// The records of a table's text, or the line of a record in which a quote isn't closed.
///
/// The delimiter is the first of tab, semicolon and comma that the header line has: the first line
/// in which something stands. A byte-order mark is skipped. Records are those of the `csv` crate
/// (RFC 4180).
#[tactic(auto, unfolding(crate::specs::Csv::records_of))]
pub fn read_records(alloc: Global, text: &[u8]) -> Result<Result<Vec<Row>, u64>, AllocError>
    requires { length text.now ≤ longest_text }
    ensures { IfOk result (λ read. spec.rows_of read ≡ spec.records_of text.now) }
{
    let machine = read(alloc, without_mark(text))?;
    if let Some(line) = machine.unclosed() {
        return Ok(Err(line));
    }
    Ok(Ok(machine.into_rows(alloc)?))
}

/// The records of a table's text up to the first one with content, which has the header.
pub fn read_header_rows(alloc: Global, text: &[u8]) -> Result<Vec<Row>, AllocError>
    requires { length text.now ≤ longest_text }
    ensures { IfOk result (λ rows. kinds.first_cells (map spec.row_of rows.items)
        ≡ kinds.header_cells text.now) }
{
    let text = without_mark(text);
    let machine = scanned_to_content(alloc, delimiter_of(header_line(text)), text)?;
    machine.into_rows(alloc)
}
