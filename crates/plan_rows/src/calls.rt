//! The numbers of calls of a book that succeeded and failed.

ghost use Rattle.std.specs.Prelude.{◌≡◌, ◌+◌, ℕ, IfErr, OnOk, OnErr};
ghost use Rattle.std.specs.Prelude.{if◌then◌else◌};
ghost use Rattle.std.specs.Borrow.{ftrue};
ghost use Rattle.plan_rows.specs.declared.fault.BookFault.TheVariants.{NoMemory, Store};

use crate::fault::BookFault;
use std::marker::Model;

/// The numbers of calls of a book that succeeded and failed, for implementations of `Book`. Only
/// contracts see these numbers, so the type has no bytes and nothing can overflow.
#[derive(Drop)]
pub struct Calls {
    pub ghost made: { ℕ },
    pub ghost refused: { ℕ },
}

impl Model for Calls {
    ghost also_owns = { λ _. ftrue };
}

impl Calls {
    /// Returns the counts of a new book.
    pub fn new() -> Calls
        ensures { (result.made ≡ 0) × (result.refused ≡ 0) }
    {
        Calls {}
    }

    /// Counts a call by its result.
    pub fn count(&mut self, answer: Result<(), BookFault>) -> Result<(), BookFault>
        ensures answer { result ≡ answer }
        ensures made { OnOk result
            ((self.new.made ≡ self.old.made + 1) × (self.new.refused ≡ self.old.refused)) }
        ensures refused { OnErr result
            ((self.new.made ≡ self.old.made) × (self.new.refused ≡ self.old.refused + 1)) }
    {
        *self = self.with_call(answer.is_ok());
        answer
    }

    /// Counts a call as refused if the store failed, and as made otherwise.
    pub fn note<X>(&mut self, answer: Result<X, BookFault>) -> Result<X, BookFault>
        ensures answer { result ≡ answer }
        ensures told { OnOk result (self.new.refused ≡ self.old.refused) }
        ensures wanted { IfErr result
            (λ fault. fault ≡ NoMemory → self.new.refused ≡ self.old.refused) }
        ensures denied { IfErr result
            (λ fault. fault ≡ Store → self.new.refused ≡ self.old.refused + 1) }
    {
        let is_denied = matches!(&answer, Err(BookFault::Store));
        *self = self.with_call(!is_denied);
        answer
    }

    // Returns the counts after one more call.
    fn with_call(&self, good: bool) -> Calls
        ensures { (result.made ≡ (if good then self.now.made + 1 else self.now.made))
            × (result.refused ≡ (if good then self.now.refused else self.now.refused + 1)) }
    {
        Calls {}
    }
}
