//! Lists of orders out of texts.

ghost use Rattle.std.specs.Prelude.{◌≡◌, ◌≤◌, ℕ, List, Ok, length, map, count_by, IfOk, IfErr, string_bytes};
ghost use Rattle.plan_table.specs.Csv.{row_of};
ghost use Rattle.plan_table.specs.Reading.{Fails, Gives, fault};
ghost use Rattle.plan_table.specs.ShopReading as spec;
ghost use Rattle.plan_table.specs.ShopTable.{ShopTable as Shop, is_of};

use crate::cells::{amount, name, same, word_fault};
use crate::entries::{filled_from, is_blank_row};
use crate::fault::{ReadError, TableCode};
use crate::listing::read_rows_of;
use crate::records::Row;
use crate::rows::split_first;
use crate::shop_header::read_shop_header;
use crate::shop_table::{ShopStep, ShopTable};
use plan_psplib::trim;
use std::alloc::Global;

/// The most orders of a list.
const MOST_ORDERS: usize = 50;

/// The most machines of a list.
const MOST_MACHINES: usize = 20;

/// The entries of the rows so far.
#[derive(Drop)]
pub struct ShopEntries {
    pub orders: Vec<String>,
    pub machines: Vec<String>,
    pub steps: Vec<ShopStep>,
    pub total: u32,
}

// A fault that names a word.
fn shop_fault(alloc: Global, code: TableCode, line: u64, word: &[u8]) -> ReadError
    ensures entries { Fails result (fault {A = spec.ShopEntries} code line word.now) }
    ensures names { Fails result (fault {A = List (List ℕ) × ℕ} code line word.now) }
    ensures table { Fails result (fault {A = Shop} code line word.now) }
{
    word_fault(alloc, code, line, word)
}

// The place of a name among others, or behind them.
fn place_of(names: &[String], text: &[u8]) -> usize
    ensures { result ≡ spec.place_of (map string_bytes names.now) text.now }
{
    for (k, other) in names.iter().enumerate() {
        if same(other.as_bytes(), text) {
            return k;
        }
    }
    names.len()
}

// Adds a name if it is new, up to so many. Returns its number.
#[tactic(auto, unfolding(crate::specs::ShopReading::name_added))]
fn add_name(
    alloc: Global,
    names: &mut Vec<String>,
    most: usize,
    line: u64,
    text: String,
) -> Result<u32, ReadError>
    requires { most ≤ 50 }
    ensures { Gives (λ k. (map string_bytes names.new.items, k)) result (spec.name_added most line
        (map string_bytes names.old.items) (string_bytes text)) }
{
    let place = place_of(names, text.as_bytes());
    if place >= most {
        return Err(shop_fault(alloc, TableCode::Limit, line, b""));
    }
    if place >= names.as_slice().len() {
        names.push(text)?;
    }
    Ok(place as u32)
}

// The name of an order or a machine.
#[tactic(auto, unfolding(crate::specs::ShopReading::shop_name))]
fn shop_name(alloc: Global, line: u64, cell: &[u8]) -> Result<String, ReadError>
    ensures { Gives string_bytes result (spec.shop_name line cell.now) }
{
    if cell.is_empty() {
        return Err(word_fault(alloc, TableCode::BadId, line, b""));
    }
    name(alloc, line, cell)
}

// Adds a step of an order.
#[tactic(auto, unfolding(crate::specs::ShopReading::step_added))]
fn add_step(
    alloc: Global,
    line: u64,
    order: u32,
    entries: &mut ShopEntries,
    machine: &[u8],
    time: &[u8],
) -> Result<(), ReadError>
    ensures { Gives (λ _. spec.entries_of entries.new) result (spec.step_added line order
        (spec.entries_of entries.old) machine.now time.now) }
{
    let text = shop_name(alloc, line, machine)?;
    let time = amount(alloc, TableCode::BadDuration, line, time, time)?;
    let machine = add_name(alloc, &mut entries.machines, MOST_MACHINES, line, text)?;
    let total = u64::from(entries.total) + u64::from(time);
    if total > 1_000_000 {
        return Err(shop_fault(alloc, TableCode::Limit, line, b""));
    }
    entries.total = total as u32;
    entries.steps.push(ShopStep {
        order,
        machine,
        time,
    })?;
    Ok(())
}

// Adds the step in a pair of cells, unless both are empty.
#[tactic(auto, unfolding(crate::specs::ShopReading::step_read))]
fn read_step(
    alloc: Global,
    line: u64,
    order: u32,
    entries: &mut ShopEntries,
    machine: &[u8],
    time: &[u8],
) -> Result<(), ReadError>
    ensures { Gives (λ _. spec.entries_of entries.new) result (spec.step_read line order
        (spec.entries_of entries.old) machine.now time.now) }
{
    if machine.is_empty() && time.is_empty() {
        return Ok(());
    }
    add_step(alloc, line, order, entries, machine, time)
}

// Adds the steps in pairs of cells.
#[tactic(auto, unfolding(crate::specs::ShopReading::steps_read))]
fn read_steps(
    alloc: Global,
    line: u64,
    order: u32,
    entries: &mut ShopEntries,
    cells: &[Vec<u8>],
) -> Result<(), ReadError>
    ensures { Gives (λ _. spec.entries_of entries.new) result (spec.steps_read line order
        (spec.entries_of entries.old) (map (λ cell. cell.items) cells.now)) }
{
    let mut rest = cells;
    while let [machine, time, others @ ..] = rest {
        read_step(alloc, line, order, entries, trim(machine), trim(time))?;
        rest = others;
    }
    match rest {
        [machine, ..] => read_step(alloc, line, order, entries, trim(machine), b""),
        [] => Ok(()),
    }
}

// Adds the order of a row if it is new. Returns its number.
#[tactic(auto, unfolding(crate::specs::ShopReading::order_read))]
fn read_order(
    alloc: Global,
    line: u64,
    entries: &mut ShopEntries,
    cell: &[u8],
) -> Result<u32, ReadError>
    ensures { Gives (λ k. (spec.entries_of entries.new, k)) result (spec.order_read line
        (spec.entries_of entries.old) cell.now) }
{
    let text = shop_name(alloc, line, cell)?;
    add_name(alloc, &mut entries.orders, MOST_ORDERS, line, text)
}

// Adds a row that isn't blank.
#[tactic(auto, unfolding(crate::specs::ShopReading::filled_row))]
fn read_filled_row(
    alloc: Global,
    count: usize,
    entries: &mut ShopEntries,
    row: &Row,
) -> Result<(), ReadError>
    ensures { Gives (λ _. spec.entries_of entries.new) result (spec.filled_row count
        (spec.entries_of entries.old) (row_of row.now)) }
{
    let (first, rest) = split_first(&row.cells);
    let order = read_order(alloc, row.line, entries, trim(first))?;
    read_steps(alloc, row.line, order, entries, rest)?;
    if row.cells.len() > count {
        return Err(shop_fault(alloc, TableCode::Cells, row.line, b""));
    }
    Ok(())
}

// Adds a row of a table with so many columns.
#[tactic(auto, unfolding(crate::specs::ShopReading::shop_row))]
fn read_shop_row(
    alloc: Global,
    count: usize,
    entries: &mut ShopEntries,
    row: &Row,
) -> Result<(), ReadError>
    ensures { Gives (λ _. spec.entries_of entries.new) result (spec.shop_row count
        (spec.entries_of entries.old) (row_of row.now)) }
{
    if is_blank_row(&row.cells) {
        return Ok(());
    }
    read_filled_row(alloc, count, entries, row)
}

// The entries of rows.
#[tactic(auto, unfolding(crate::specs::ShopReading::shop_rows))]
fn read_shop_rows(alloc: Global, count: usize, rows: &[Row]) -> Result<ShopEntries, ReadError>
    ensures { Gives spec.entries_of result (spec.shop_rows count spec.no_shop_entries
        (map row_of rows.now)) }
{
    let mut entries = ShopEntries {
        orders: Vec::new(alloc),
        machines: Vec::new(alloc),
        steps: Vec::new(alloc),
        total: 0,
    };
    for row in rows {
        read_shop_row(alloc, count, &mut entries, row)?;
    }
    Ok(entries)
}

// How many steps an order has.
fn count_steps(steps: &[ShopStep], order: usize) -> usize
    ensures { result ≡ count_by (is_of order) steps.now }
{
    steps
        .iter()
        .filter(|&step| step.order as usize == order)
        .count()
}

// Checks that no order has more than so many steps.
#[tactic(auto, unfolding(crate::specs::ShopReading::orders_fit))]
fn check_orders(
    alloc: Global,
    most: usize,
    steps: &[ShopStep],
    orders: &[String],
) -> Result<(), ReadError>
    ensures { Gives (λ u. u) result (spec.orders_fit most steps.now 0
        (map string_bytes orders.now)) }
{
    for (k, order) in orders.iter().enumerate() {
        if count_steps(steps, k) > most {
            return Err(word_fault(alloc, TableCode::TooManySteps, 0, order.as_bytes()));
        }
    }
    Ok(())
}

// Checks that there is an order and a machine, and that no order has more steps than there are
// machines.
#[tactic(auto, unfolding(crate::specs::ShopReading::shop_finished))]
fn check_entries(alloc: Global, entries: &ShopEntries) -> Result<(), ReadError>
    ensures { Gives (λ _. spec.table_of (spec.entries_of entries.now)) result
        (spec.shop_finished (spec.entries_of entries.now)) }
{
    if entries.orders.is_empty() || entries.machines.is_empty() {
        return Err(shop_fault(alloc, TableCode::Limit, 0, b""));
    }
    check_orders(
        alloc,
        entries.machines.len(),
        &entries.steps,
        &entries.orders,
    )
}

// Reads records.
#[tactic(auto, unfolding(crate::specs::ShopReading::shop_in))]
fn read_entries(alloc: Global, rows: &[Row]) -> Result<ShopEntries, ReadError>
    ensures { Gives (λ e. spec.table_of (spec.entries_of e)) result (spec.shop_in
        (map row_of rows.now)) }
{
    match rows {
        [first, rest @ ..] => {
            read_shop_header(alloc, &first.cells)?;
            let entries = read_shop_rows(alloc, first.cells.len(), rest)?;
            check_entries(alloc, &entries)?;
            Ok(entries)
        }
        [] => Err(shop_fault(alloc, TableCode::NoDuration, 0, b"order")),
    }
}

/// Reads a list of orders: the job shop that it says, or the first check that it fails.
///
/// The header is `order`, and then pairs of `machine` and `time`. A row gives steps of its order, an
/// order can have several rows, and an empty pair is skipped. The checks are T1, T2, T13 (an open
/// quote), T3 (with the missing header as its word), then each row: T6 (an empty name of an order or a
/// machine), T2 (a control character in a name), T5 (a time), T12 (more than 50 orders, 20 machines,
/// a time above 10,000, times above 1,000,000 in all, a name above 200 bytes) and T13 (more cells than
/// headers), and at the end T12 (line 0: no order or no machine) and T15 (an order with more steps
/// than there are machines).
pub fn read_shop_table(alloc: Global, text: &[u8]) -> Result<ShopTable, ReadError>
    // The list is the one that the text says.
    ensures found { IfOk result (λ t. spec.shop_table_read text.now ≡ Ok t) }
    // Which check is the first that fails.
    ensures refused { IfErr result (λ e. Fails e (spec.shop_table_read text.now)) }
{
    let rows = read_rows_of(alloc, text)?;
    let entries = read_entries(alloc, filled_from(&rows))?;
    Ok(ShopTable {
        orders: entries.orders,
        machines: entries.machines,
        steps: entries.steps,
    })
}
