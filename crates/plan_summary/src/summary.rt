//! The numbers of rows of an office, and the digest of the text of all rows.

ghost use Rattle.std.specs.Prelude.{◌≡◌, IfOk, OnOk, string_bytes};
ghost use Rattle.std.specs.List.{flat_map};
ghost use Rattle.plan_rows.specs.KeyedRows.{key_in};
ghost use Rattle.plan_summary.specs.RowTexts as spec;
ghost use Rattle.plan_summary.specs.RowTexts.{IsSummary, text_of};
ghost use Rattle.plan_summary.specs.Digests.{Takes, Looks, plan_of, line_at, lines_at};
ghost use Rattle.plan_summary.specs.Digests.{desk_lines, plan_lines, IsDigestOf};
ghost use Rattle.plan_summary.specs.Digests.{IsSummaryBy, counts_text};

use crate::lines::{Line, office_line, plan_line};
use plan_rows::{BookFault, Listing, PlanKey, PlanRow, RowsByKey};
use sha2::{Digest, Sha256};
use std::alloc::{AllocError, Global};

/// The number of rows of each table, and the SHA-256 of the text of all rows.
#[derive(Clone, Copy, Debug, Drop)]
pub struct Summary {
    pub desks: usize,
    pub published: usize,
    pub plans: usize,
    pub binds: usize,
    pub lags: usize,
    pub digest: [u8; 32],
}

// Adds a text to a hasher.
fn add_text(hasher: &mut Sha256, text: &str)
    ensures { Takes hasher.old hasher.new text.now }
{
    hasher.update(text);
}

// Adds the lines of rows to a hasher.
fn add_lines<T: Line>(alloc: Global, hasher: &mut Sha256, rows: &[T]) -> Result<(), AllocError>
    ensures { OnOk result (Takes hasher.old hasher.new (flat_map T.written rows.now)) }
{
    for row in rows {
        let line = row.line(alloc)?;
        add_text(hasher, line.as_str());
    }
    Ok(())
}

// Adds the digest of the office's key, the published codes and the desks to a hasher.
#[tactic(auto, using(crate::proofs::SummaryLemmas::takes_then))]
fn add_desk_tables(alloc: Global, hasher: &mut Sha256, rows: &RowsByKey) -> Result<(), AllocError>
    ensures { OnOk result (Takes hasher.old hasher.new (desk_lines rows.now)) }
{
    let office = office_line(alloc, &rows.office)?;
    add_text(hasher, office.as_str());
    add_lines(alloc, hasher, rows.published.as_slice())?;
    add_lines(alloc, hasher, rows.desks.as_slice())
}

// Adds the binds and the lags to a hasher.
#[tactic(auto, using(crate::proofs::SummaryLemmas::takes_then))]
fn add_plan_tables(alloc: Global, hasher: &mut Sha256, rows: &RowsByKey) -> Result<(), AllocError>
    ensures { OnOk result (Takes hasher.old hasher.new (plan_lines rows.now)) }
{
    add_lines(alloc, hasher, rows.binds.as_slice())?;
    add_lines(alloc, hasher, rows.lags.as_slice())
}

// Adds a plan to a hasher.
fn add_row(
    alloc: Global,
    hasher: &mut Sha256,
    key: &PlanKey,
    plan: &PlanRow,
) -> Result<(), AllocError>
    ensures { OnOk result
        (Takes hasher.old hasher.new (spec.plan_line (plan_of key.now plan.now))) }
{
    let line = plan_line(alloc, key, plan)?;
    add_text(hasher, line.as_str());
    Ok(())
}

// Reads the plan of a key and adds it to a hasher.
fn add_plan<B: Listing>(
    alloc: Global,
    book: &mut B,
    hasher: &mut Sha256,
    key: &PlanKey,
) -> Result<(), BookFault>
    ensures { Looks B.shelf book.old book.new
        (λ w _. Takes hasher.old hasher.new (line_at w (key_in key.now))) result }
{
    match book.plan(key.desk.as_str(), key.n)? {
        Some(plan) => {
            add_row(alloc, hasher, key, &plan)?;
            Ok(())
        }
        None => Err(BookFault::Store),
    }
}

// Reads the plans of keys and adds them to a hasher, one after another.
fn add_plans<B: Listing>(
    alloc: Global,
    book: &mut B,
    hasher: &mut Sha256,
    keys: &[PlanKey],
) -> Result<(), BookFault>
    ensures { Looks B.shelf book.old book.new
        (λ w _. Takes hasher.old hasher.new (lines_at w keys.now)) result }
{
    for key in keys {
        add_plan(alloc, book, hasher, key)?;
    }
    Ok(())
}

// Computes the digest of the text of all rows, for rows that were listed.
fn digest_of<B: Listing>(
    alloc: Global,
    book: &mut B,
    rows: &RowsByKey,
) -> Result<[u8; 32], BookFault>
    ensures { Looks B.shelf book.old book.new (IsDigestOf rows.now) result }
{
    let mut hasher = Sha256::new();
    add_desk_tables(alloc, &mut hasher, rows)?;
    add_plans(alloc, book, &mut hasher, rows.plans.as_slice())?;
    add_plan_tables(alloc, &mut hasher, rows)?;
    Ok(hasher.finalize())
}

// Returns the summary of rows that were listed.
fn summary_by(rows: &RowsByKey, digest: [u8; 32]) -> Summary
    ensures { IsSummaryBy rows.now digest result }
{
    Summary {
        desks: rows.desks.len(),
        published: rows.published.len(),
        plans: rows.plans.len(),
        binds: rows.binds.len(),
        lags: rows.lags.len(),
        digest,
    }
}

/// Computes the summary of a book.
pub fn summary_of<B: Listing>(alloc: Global, book: &mut B) -> Result<Summary, BookFault>
    ensures { Looks B.shelf book.old book.new IsSummary result }
{
    let rows = book.list()?;
    let digest = digest_of(alloc, book, &rows)?;
    Ok(summary_by(&rows, digest))
}

// Formats the numbers of rows.
fn counts_text(alloc: Global, summary: &Summary) -> Result<String, AllocError>
    ensures { IfOk result (λ text. string_bytes text ≡ counts_text summary.now) }
{
    let (desks, published, plans) = (summary.desks, summary.published, summary.plans);
    let (binds, lags) = (summary.binds, summary.lags);
    format!(in alloc;
        "desks {desks}\npublished {published}\nplans {plans}\nbinds {binds}\nlags {lags}"
    )
}

/// Formats a summary.
pub fn summary_text(alloc: Global, summary: &Summary) -> Result<String, AllocError>
    ensures { IfOk result (λ text. string_bytes text ≡ text_of summary.now) }
{
    let counts = counts_text(alloc, summary)?;
    let hex = hex::encode(alloc, summary.digest.as_slice())?;
    let (counts, digest) = (counts.as_str(), hex.as_str());
    format!(in alloc; "{counts}\nsha256 {digest}\n")
}
