//! `plan import`: the project file of a planner's list, a CSV table of activities, or the job shop
//! file of a list of orders.

ghost use Rattle.std.specs.Prelude.{◌≡◌, [], Ok, map, IfOk, IfErr, codes};
ghost use Rattle.plan_table.specs.Listing.{table_read_with};
ghost use Rattle.plan_table.specs.Overrides.{override_of};
ghost use Rattle.plan_table.specs.ProjectText as projects;
ghost use Rattle.plan_table.specs.ShopReading.{shop_table_read};
ghost use Rattle.plan_table.specs.ShopText as shops;
ghost use Rattle.plan_errors.specs.Output.{Refuses};
ghost use Rattle.plan_documents.specs.Lines.{IfText};
ghost use Rattle.plan_documents.specs.ImportRun as spec;

use crate::spreadsheets::plain_of;
use crate::table_faults::{resource_refusal, table_refusal};
use plan_errors::{About, CliFault, Code, refuse_words};
use plan_table::{
    ListKind, Override, ReadError, ShopTable, Table, TextFault, list_kind, project_text,
    read_shop_table, read_sound_table, read_table_with, shop_text,
};
use std::alloc::Global;

/// Returns the error of a file that is too long.
pub fn long_refusal(alloc: Global) -> CliFault
    ensures { Refuses (λ line. line ≡ codes "T1 too long") result }
{
    refuse_words(alloc, Code::LongTable, About::List, "too long")
}

// Reads a table, with capacities that are given.
#[tactic(auto, using(crate::proofs::ImportLemmas::no_table))]
fn table_of(alloc: Global, given: &[Override<'_>], file: &[u8]) -> Result<Table, CliFault>
    ensures read { IfOk result (λ table.
        table_read_with (map override_of given.now) file.now ≡ Ok table) }
    ensures refused { IfErr result (Refuses
        (spec.TellsNoTable (map override_of given.now) file.now)) }
{
    match read_table_with(alloc, given, file) {
        Ok(table) => Ok(table),
        Err(ReadError::Memory) => Err(CliFault::Memory),
        Err(ReadError::Fault(fault)) => Err(table_refusal(alloc, &fault, file)),
    }
}

// Reads a table whose needs may be above its capacities.
#[tactic(auto, using(crate::proofs::ImportLemmas::no_sound_table))]
fn sound_table_of(alloc: Global, file: &[u8]) -> Result<Table, CliFault>
    ensures read { IfOk result (λ table. table_read_with [] file.now ≡ Ok table) }
    ensures refused { IfErr result (Refuses (spec.TellsUnsound file.now)) }
{
    match read_sound_table(alloc, &[], file) {
        Ok(table) => Ok(table),
        Err(ReadError::Memory) => Err(CliFault::Memory),
        Err(ReadError::Fault(fault)) => Err(table_refusal(alloc, &fault, file)),
    }
}

// Returns the project file of a table.
fn table_text(alloc: Global, table: &Table) -> Result<String, CliFault>
    ensures made { IfText result (spec.IsProjectFile table.now) }
    ensures refused { IfErr result (Refuses (spec.TellsLong (projects.project_text table.now))) }
{
    match project_text(alloc, table) {
        Ok(text) => Ok(text),
        Err(TextFault::Memory) => Err(CliFault::Memory),
        Err(TextFault::TooLong) => Err(long_refusal(alloc)),
    }
}

/// Returns the project file of the table in a file, with capacities that are given.
pub fn import_text(alloc: Global, given: &[Override<'_>], file: &[u8]) -> Result<String, CliFault>
    ensures made { IfText result (spec.IsImportOf (map override_of given.now) file.now) }
    ensures refused { IfErr result (Refuses
        (spec.TellsNoImport (map override_of given.now) file.now)) }
{
    let table = table_of(alloc, given, file)?;
    table_text(alloc, &table)
}

/// Returns the project file of the table in a file. Its needs may be above its capacities: the
/// caller replaces capacities, and checks the needs then.
pub fn sound_import_text(alloc: Global, file: &[u8]) -> Result<String, CliFault>
    ensures made { IfText result (spec.IsImportOf [] file.now) }
    ensures refused { IfErr result (Refuses (spec.TellsNoSoundImport file.now)) }
{
    let table = sound_table_of(alloc, file)?;
    table_text(alloc, &table)
}

// Reads a list of orders.
#[tactic(auto, using(crate::proofs::ImportLemmas::no_orders))]
fn orders_of(alloc: Global, file: &[u8]) -> Result<ShopTable, CliFault>
    ensures read { IfOk result (λ table. shop_table_read file.now ≡ Ok table) }
    ensures refused { IfErr result (Refuses (spec.TellsNoOrders file.now)) }
{
    match read_shop_table(alloc, file) {
        Ok(table) => Ok(table),
        Err(ReadError::Memory) => Err(CliFault::Memory),
        Err(ReadError::Fault(fault)) => Err(table_refusal(alloc, &fault, file)),
    }
}

// Returns the job shop file of a list of orders.
fn orders_text(alloc: Global, table: &ShopTable) -> Result<String, CliFault>
    ensures made { IfText result (spec.IsShopFile table.now) }
    ensures refused { IfErr result (Refuses (spec.TellsLong (shops.shop_text table.now))) }
{
    match shop_text(alloc, table) {
        Ok(text) => Ok(text),
        Err(TextFault::Memory) => Err(CliFault::Memory),
        Err(TextFault::TooLong) => Err(long_refusal(alloc)),
    }
}

/// Returns the job shop file of the list of orders in a file.
pub fn shop_import_text(alloc: Global, file: &[u8]) -> Result<String, CliFault>
    ensures made { IfText result (spec.IsShopImportOf file.now) }
    ensures refused { IfErr result (Refuses (spec.TellsNoShopImport file.now)) }
{
    let table = orders_of(alloc, file)?;
    orders_text(alloc, &table)
}

// Returns the job shop file of a list of orders, unless capacities are given: a job shop has no
// resources.
fn order_import_text(alloc: Global, given: &[Override<'_>], file: &[u8]) -> Result<String, CliFault>
    ensures made { IfText result (spec.IsOrderImportOf (map override_of given.now) file.now) }
    ensures refused { IfErr result (Refuses
        (spec.TellsNoOrderImport (map override_of given.now) file.now)) }
{
    let text = shop_import_text(alloc, file)?;
    match given {
        [] => Ok(text),
        [first, ..] => Err(resource_refusal(alloc, first.resource, file)),
    }
}

// Returns the file that `plan import` makes of a file of this kind.
fn text_by(
    alloc: Global,
    kind: Option<ListKind>,
    given: &[Override<'_>],
    file: &[u8],
) -> Result<String, CliFault>
    ensures made { IfText result (spec.IsImportBy kind (map override_of given.now) file.now) }
    ensures refused { IfErr result (Refuses
        (spec.TellsNoImportBy kind (map override_of given.now) file.now)) }
{
    match kind {
        Some(ListKind::Orders) => order_import_text(alloc, given, file),
        Some(ListKind::Activities) | None => import_text(alloc, given, file),
    }
}

// Returns the file that `plan import` makes of a list.
fn list_import_text(alloc: Global, given: &[Override<'_>], list: &[u8]) -> Result<String, CliFault>
    ensures made { IfText result (spec.IsImportIn (map override_of given.now) list.now) }
    ensures refused { IfErr result (Refuses
        (spec.TellsNoImportIn (map override_of given.now) list.now)) }
{
    let kind = list_kind(alloc, list)?;
    text_by(alloc, kind, given, list)
}

/// Returns the job shop file of a list of orders, and the project file of the table in any other
/// file, with capacities that are given. The file is read as its plain list.
pub fn file_import_text(
    alloc: Global,
    given: &[Override<'_>],
    file: &[u8],
) -> Result<String, CliFault>
    ensures made { IfText result (spec.IsImport (map override_of given.now) file.now) }
    ensures refused { IfErr result (Refuses
        (spec.TellsUnimported (map override_of given.now) file.now)) }
{
    let plain = plain_of(alloc, given, file)?;
    list_import_text(alloc, given, plain.utf8(file))
}

/// Returns the job shop file of the list of orders in a file, which is read as its plain list.
pub fn file_shop_text(alloc: Global, file: &[u8]) -> Result<String, CliFault>
    ensures made { IfText result (spec.IsShopImport file.now) }
    ensures refused { IfErr result (Refuses (spec.TellsNoShop file.now)) }
{
    let plain = plain_of(alloc, &[], file)?;
    shop_import_text(alloc, plain.utf8(file))
}
