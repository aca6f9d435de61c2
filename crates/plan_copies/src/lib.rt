//! The commands on copies of an office: check it by a copy, back it up, restore it, and settle its
//! log.
#![tactic(auto)]

mod backup;
mod bytes;
mod check;
mod choice;
mod devices;
mod expiry;
mod fault;
mod folders;
mod lines;
mod memory;
mod named;
mod orphans;
mod owner;
mod pair;
mod plain;
mod replacement;
mod restore;
mod scratch;
mod settle;
mod strays;

pub use backup::backup_on_files;
pub use bytes::copy_all;
pub use check::{CheckFault, Scratch, check_copy, copy_checked};
pub use devices::{FileReader, FileWriter};
pub use fault::PairFault;
pub use lines::{CopyFault, scratch_fault};
pub use memory::memory_line;
pub use named::{NamedCopy, NamedPair};
pub use orphans::check_orphans;
pub use pair::{MOST_TRIES, Origin, Target, copy_stable};
pub use restore::restore_on_files;
pub use scratch::{check_on_file, scratch_folder};
pub use settle::{settle_from, settle_on_file};
pub use strays::{has_log, remove_stray_log};
