//! A book in memory.

ghost use Rattle.std.specs.Prelude.{◌≡◌, Err, IsOk, MatchResult};
ghost use Rattle.plan_rows.specs.declared.fault.BookFault.TheVariants.{NoMemory};
ghost use Rattle.plan_rows.specs.Rules.{IsWorld};
ghost use Rattle.plan_rows.specs.Tables.{world_kept};

use plan_rows::{
    Book, BookFault, Calls, CodeRow, DeskRow, Kind, PlanEntry, PlanKind, PlanRow, Tables, is_world,
    known_digest,
};
use std::alloc::{AllocError, Global};

/// The tables of an office in memory. Its calls fail only if memory runs out, and keep the rules of
/// rows.
#[derive(Drop)]
pub struct MemBook {
    alloc: Global,
    tables: Tables,
    calls: Calls,
    ghost whole: { ∥ IsWorld (world_kept tables) ∥₁ },
}

// The answer of tables in memory, as the answer of a book.
fn book_answer(answer: Result<(), AllocError>) -> Result<(), BookFault>
    ensures { MatchResult answer (λ _. IsOk result) (λ _. result ≡ Err NoMemory) }
{
    Ok(answer?)
}

impl MemBook {
    ghost use Rattle.std.specs.Prelude.{◌≡◌, IfOk, MatchOption};
    ghost use Rattle.plan_rows.specs.World.{empty_world};
    ghost use Rattle.plan_rows.specs.Rules.{IsWorld};
    ghost use Rattle.plan_rows.specs.Tables.{world_kept};
    ghost use Rattle.plan_desk.specs.MemBooks.{memory_world};

    /// Returns a book without rows for an office whose key has this digest.
    pub fn new(alloc: Global, digest: [u8; 32]) -> MemBook
        ensures { memory_world result ≡ empty_world digest }
    {
        known_digest(&digest);
        MemBook {
            alloc,
            tables: Tables::new(alloc, digest),
            calls: Calls::new(),
        }
    }

    /// Returns a book of these tables, or None if they break one of the rules of rows.
    pub fn of_tables(alloc: Global, tables: Tables) -> Result<Option<MemBook>, AllocError>
        ensures { IfOk result (λ book. MatchOption book (IsWorld (world_kept tables) → ⊥)
            (λ book. IsWorld (world_kept tables) × (memory_world book ≡ world_kept tables))) }
    {
        if !is_world(alloc, &tables)? {
            return Ok(None);
        }
        Ok(Some(MemBook {
            alloc,
            tables,
            calls: Calls::new(),
        }))
    }
}

impl Book for MemBook {
    ghost use Rattle.std.specs.Prelude.{Some, refl};
    ghost use Rattle.plan_desk.specs.MemBooks.{memory_shelf, memory_whole, memory_world};

    ghost shelf = { memory_shelf };

    ghost whole = { λ book _. memory_whole book };

    ghost now_may = { λ book _. refl };

    ghost leaves = { λ book _ none. none (Some (memory_world book)) refl };

    fn office(&mut self) -> Result<[u8; 32], BookFault> {
        Ok(self.tables.office)
    }

    fn desk(&mut self, name: &str) -> Result<Option<DeskRow>, BookFault> {
        Ok(self.tables.desk(name))
    }

    fn open_desk(&mut self, name: &str, digest: &[u8; 32]) -> Result<(), BookFault> {
        let answer = self.tables.open_desk(self.alloc, name, digest);
        self.calls.count(book_answer(answer))
    }

    fn set_key(&mut self, name: &str, digest: &[u8; 32]) -> Result<(), BookFault> {
        self.tables.set_key(name, digest);
        self.calls.count(Ok(()))
    }

    fn publish(&mut self, code: &str, kind: Kind, capacity: u64) -> Result<(), BookFault> {
        let answer = self.tables.publish(self.alloc, code, kind, capacity);
        self.calls.count(book_answer(answer))
    }

    fn capacity(&mut self, code: &str) -> Result<Option<(Kind, u64)>, BookFault> {
        Ok(self.tables.capacity(code))
    }

    fn capacities(&mut self) -> Result<Vec<CodeRow>, BookFault> {
        Ok(self.tables.capacities(self.alloc)?)
    }

    fn plans(&mut self, desk: &str) -> Result<Vec<PlanEntry>, BookFault> {
        Ok(self.tables.plans(self.alloc, desk)?)
    }

    #[tactic(auto, using(crate::proofs::ImportLemmas::held_are))]
    fn count_plans(&mut self, desk: &str) -> Result<usize, BookFault> {
        Ok(self.tables.plans(self.alloc, desk)?.len())
    }

    fn plan(&mut self, desk: &str, n: u64) -> Result<Option<PlanRow>, BookFault> {
        Ok(self.tables.plan(self.alloc, desk, n)?)
    }

    fn add_plan(
        &mut self,
        desk: &str,
        kind: PlanKind,
        name: &str,
        body: &[u8],
    ) -> Result<(), BookFault> {
        let answer = self.tables.add_plan(self.alloc, desk, kind, name, body);
        self.calls.count(book_answer(answer))
    }

    fn remove_plan(&mut self, desk: &str, n: u64) -> Result<(), BookFault> {
        self.tables.remove_plan(desk, n);
        self.calls.count(Ok(()))
    }

    fn bind(&mut self, desk: &str, n: u64, place: u64, code: &str) -> Result<(), BookFault> {
        let answer = self.tables.bind(self.alloc, desk, n, place, code);
        self.calls.count(book_answer(answer))
    }

    fn set_calendar(
        &mut self,
        desk: &str,
        n: u64,
        start: &str,
        days: &str,
    ) -> Result<(), BookFault> {
        let answer = self.tables.set_calendar(self.alloc, desk, n, start, days);
        self.calls.count(book_answer(answer))
    }

    fn set_lag(
        &mut self,
        desk: &str,
        n: u64,
        from: u32,
        to: u32,
        lag: u64,
    ) -> Result<(), BookFault> {
        let answer = self.tables.set_lag(self.alloc, desk, n, from, to, lag);
        self.calls.count(book_answer(answer))
    }
}
