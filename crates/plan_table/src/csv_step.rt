//! The state machine of the `csv` crate, one byte at a time.

ghost use Rattle.std.specs.Prelude.{◌≡◌};
ghost use Rattle.csv.specs.Machine as machine;
ghost use Rattle.plan_table.specs.Csv as spec;

/// The state of a reader in a record.
#[derive(Clone, Copy, PartialEq, Eq)]
pub enum State {
    StartRecord,
    StartField,
    InField,
    InQuoted,
    AfterQuote,
    AfterCr,
}

/// The action of a byte.
#[derive(Clone, Copy, PartialEq, Eq)]
pub enum Action {
    Skip,
    Copy,
    EndField,
    EndRecord,
}

// The state after a byte of a cell, and what it does.
fn in_field(delimiter: u8, byte: u8) -> (State, Action)
    ensures { (spec.state_of result.0, spec.action_of result.1)
        ≡ machine.in_field (spec.config delimiter) byte }
{
    if byte == delimiter {
        (State::StartField, Action::EndField)
    } else if byte == b'\r' {
        (State::AfterCr, Action::EndRecord)
    } else if byte == b'\n' {
        (State::StartRecord, Action::EndRecord)
    } else {
        (State::InField, Action::Copy)
    }
}

// The same for the first byte of a cell.
fn start_field(delimiter: u8, byte: u8) -> (State, Action)
    ensures { (spec.state_of result.0, spec.action_of result.1)
        ≡ machine.start_field (spec.config delimiter) byte }
{
    if byte == b'"' {
        (State::InQuoted, Action::Skip)
    } else {
        in_field(delimiter, byte)
    }
}

// The same for the first byte of a record.
fn start_record(delimiter: u8, byte: u8) -> (State, Action)
    ensures { (spec.state_of result.0, spec.action_of result.1)
        ≡ machine.start_record (spec.config delimiter) byte }
{
    if byte == b'\r' || byte == b'\n' {
        (State::StartRecord, Action::Skip)
    } else {
        start_field(delimiter, byte)
    }
}

/// The state after a byte, and what it does.
pub fn step(delimiter: u8, state: State, byte: u8) -> (State, Action)
    ensures { (spec.state_of result.0, spec.action_of result.1)
        ≡ machine.step (spec.config delimiter) (spec.state_of state) byte }
{
    match state {
        State::StartRecord => start_record(delimiter, byte),
        State::StartField => start_field(delimiter, byte),
        State::InField => in_field(delimiter, byte),
        State::InQuoted if byte == b'"' => (State::AfterQuote, Action::Skip),
        State::InQuoted => (State::InQuoted, Action::Copy),
        State::AfterQuote if byte == b'"' => (State::InQuoted, Action::Copy),
        State::AfterQuote => in_field(delimiter, byte),
        State::AfterCr if byte == b'\n' => (State::StartRecord, Action::Skip),
        State::AfterCr => start_record(delimiter, byte),
    }
}
