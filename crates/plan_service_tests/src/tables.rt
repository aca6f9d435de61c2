//! Tables from which a book is made, and rows that break a rule.

use plan_desk::{DeskRecord, MemBook, PlanKind, PlanRecord, Tables, is_plan_row, key_digest};
use std::alloc::Global;
use std::test::Fail;

// Returns tables in which the next plan of a desk gets this number.
fn tables_at(alloc: Global, next: u64) -> Result<Tables, Fail> {
    let digest = key_digest("office-key".as_bytes()).unwrap_or([0; 32]);
    let mut tables = Tables::new(alloc, digest);
    let digest = key_digest("north-key-1".as_bytes()).unwrap_or([0; 32]);
    tables.desks.push(DeskRecord {
        desk: String::from_str(alloc, "north")?,
        digest,
        next,
    })?;
    Ok(tables)
}

#[test]
fn tables_that_break_a_rule_make_no_book(rt: HostRuntime) -> Result<(), Fail> {
    let alloc = rt.alloc();
    for (next, good) in [(0, false), (1, true), (1_000_001, true), (1_000_002, false)] {
        let book = MemBook::of_tables(alloc, tables_at(alloc, next)?)?;
        assert_eq!(rt; book.is_some(), good, "next number {next}");
    }
    Ok(())
}

// Returns a plan with this number, whose file is a job shop of one step.
fn plan_at(alloc: Global, n: u64) -> Result<PlanRecord, Fail> {
    Ok(PlanRecord {
        desk: String::from_str(alloc, "north")?,
        n,
        kind: PlanKind::Shop,
        name: String::from_str(alloc, "-")?,
        body: Vec::from_slice(alloc, "1 1\n0 5\n".as_bytes())?,
        start: String::new(alloc),
        days: String::new(alloc),
    })
}

#[test]
fn a_plan_has_a_number_up_to_1000000(rt: HostRuntime) -> Result<(), Fail> {
    let alloc = rt.alloc();
    for (n, good) in [(0, false), (1, true), (1_000_000, true), (1_000_001, false)] {
        assert_eq!(rt;
            is_plan_row(alloc, &plan_at(alloc, n)?)?,
            good,
            "number {n}"
        );
    }
    Ok(())
}
