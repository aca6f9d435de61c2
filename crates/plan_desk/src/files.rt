//! The cache of documents, so that the same stored file isn't read twice.

ghost use Rattle.std.specs.Prelude.{◌≡◌, ℕ, ◌+◌, ◌-◌, ◌≤◌, ◌<◌, [], length, take, Contains};
ghost use Rattle.std.specs.Prelude.{IfOk, IfSome, IfNone, IsTrue, IsFalse};
ghost use Rattle.plan_desk.specs.KeptFiles.{Adds, IsReading, IsReadingOfFirst, Moves, bytes_of};
ghost use Rattle.plan_desk.specs.KeptFiles.{stored_by};

use crate::file_keys::FileKey;
use lru::LruCache;
use plan_orlib::ShopDoc;
use plan_psplib::ProjectDoc;
use std::alloc::{AllocError, Global};
use std::marker::Model;
use std::num::NonZeroUsize;

/// The greatest number of kept documents.
pub(crate) const MOST_FILES: usize = 1024;

/// The most bytes of all kept bodies together. A body, its document and its lags take up to about
/// 20 times as many bytes, so the cache takes at most 16 MB.
pub(crate) const MOST_BYTES: usize = 786_432;

/// The document that a stored file contains.
#[derive(Drop)]
pub(crate) enum Document {
    Project(ProjectDoc),
    Shop(ShopDoc),
}

/// The documents of the stored files that were used last. Contracts see the list of files, the most
/// recent one first.
#[derive(Drop)]
pub(crate) struct Files {
    kept: LruCache<FileKey, Document>,
    // the length of all kept bodies
    bytes: usize,
}

impl Model for Files {
    ghost use Rattle.std.specs.Prelude.{List};
    ghost use Rattle.plan_desk.specs.KeptFiles.{Stored, files_of, AreKept};

    ghost Value = { List Stored };

    ghost view = { λ f. files_of f.kept.entries };

    ghost invariant = { λ f. AreKept f.kept f.bytes };
}

impl Files {
    /// Returns an empty cache.
    pub(crate) fn new(alloc: Global) -> Result<Files, AllocError>
        ensures { IfOk result (λ files. files ≡ []) }
    {
        let room = NonZeroUsize::new(MOST_FILES).unwrap();
        let kept = LruCache::sparse(alloc, room)?;
        Ok(Files { kept, bytes: 0 })
    }

    // Whether one more document can be kept, whose body has this length.
    fn has_room(&self, bytes: usize) -> bool
        requires { bytes ≤ MOST_BYTES }
        ensures room { IsTrue result →
            (bytes_of self.now + bytes ≤ MOST_BYTES) × (length self.now < MOST_FILES) }
        ensures full { IsFalse result → self.now ≡ [] → ⊥ }
    {
        self.bytes <= MOST_BYTES - bytes && self.kept.len() < MOST_FILES
    }

    // Returns the document of the most recent file.
    pub(crate) fn latest(&self) -> Option<&Document>
        ensures some { IfSome result (λ document. IsReadingOfFirst self.now document.now) }
        ensures none { IfNone result (self.now ≡ []) }
    {
        match self.kept.peek_mru() {
            Some((_, document)) => Some(document),
            None => None,
        }
    }

    // Makes the document of a file the most recently used. Returns false if it isn't kept.
    pub(crate) fn promote(&mut self, key: &FileKey) -> bool
        ensures found { IsTrue result → Moves self.old (stored_by key.now) self.new }
        ensures missing { IsFalse result →
            (Contains self.old (stored_by key.now) → ⊥) × (self.new ≡ self.old) }
    {
        self.kept.promote(key)
    }

    // Drops the least recently used document, if there is one.
    fn evict(&mut self)
        ensures { self.new ≡ take (length self.old - 1) self.old }
    {
        if let Some((key, _)) = self.kept.pop_lru() {
            self.bytes -= key.len();
        }
    }

    // Drops the least recently used documents until one more fits, whose body has this length.
    fn make_room(&mut self, bytes: usize)
        requires { bytes ≤ MOST_BYTES }
        ensures dropped { (k : ℕ) × (self.new ≡ take k self.old) }
        ensures bytes { bytes_of self.new + bytes ≤ MOST_BYTES }
        ensures files { length self.new < MOST_FILES }
    {
        while !self.has_room(bytes) {
            self.evict();
        }
    }

    // Keeps the document of a new file, and drops the least recently used ones until it fits.
    // Returns the document if its body is too long or memory runs out.
    pub(crate) fn keep(&mut self, key: FileKey, document: Document) -> Option<Document>
        requires new { Contains self.old (stored_by key) → ⊥ }
        requires read { IsReading (stored_by key) document }
        ensures kept { IfNone result (Adds self.old (stored_by key) self.new) }
        ensures unkept { IfSome result (λ back.
            (back ≡ document) × ((k : ℕ) × (self.new ≡ take k self.old))) }
    {
        let bytes = key.len();
        if bytes > MOST_BYTES {
            return Some(document);
        }
        self.make_room(bytes);
        match self.kept.put(key, document) {
            Ok(_) => {
                self.bytes += bytes;
                None
            }
            Err(failed) => Some(failed.value.1),
        }
    }
}
