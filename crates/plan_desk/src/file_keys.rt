//! The keys of kept documents.

ghost use Rattle.std.specs.Prelude.{◌≡◌, [], ◌∷◌, length, IfOk};
ghost use Rattle.plan_desk.specs.KeptFiles.{stored_by, stored_in, middle_of};
ghost use Rattle.std.proofs.Common.{rules};
ghost use Rattle.std.specs.Cmp.Rules.{hashing};

use crate::stored_files::StoredFile;
use plan_rows::{LagEntry, PlanKind};
use std::alloc::{AllocError, Global};
use std::hash::{Hash, Hasher};

// A copy of a stored file. Keys are compared whole.
#[derive(PartialEq, Eq, Drop)]
pub(crate) struct FileKey {
    kind: PlanKind,
    name: Vec<u8>,
    body: Vec<u8>,
    lags: Vec<LagEntry>,
}

// The hash covers the middle of the body only: to hash a whole body takes about as long as to read
// it. Chosen bodies can make all keys collide; comparing them reads at most all kept bytes.
impl Hash for FileKey {
    ghost hash_input = { λ key. middle_of key.body.items ∷ [] };

    ghost respects_eq = { Prim.search (hashing, rules) };

    fn hash<H: Hasher>(&self, state: &mut H) {
        let half = &self.body[self.body.len() / 2..];
        state.write(&half[..half.len().min(64)]);
    }
}

impl FileKey {
    // Returns the key of a stored file.
    pub(crate) fn of(alloc: Global, file: &StoredFile<'_>) -> Result<FileKey, AllocError>
        ensures { IfOk result (λ key. stored_by key ≡ stored_in file.now) }
    {
        Ok(FileKey {
            kind: file.kind,
            name: Vec::from_slice(alloc, file.name.as_bytes())?,
            body: Vec::from_slice(alloc, file.body)?,
            lags: Vec::from_slice(alloc, file.lags)?,
        })
    }

    // Returns the length of the body in bytes.
    pub(crate) fn len(&self) -> usize
        ensures { result ≡ length (stored_by self.now).body }
    {
        self.body.len()
    }
}
