//! Shops from job shop files.

ghost use Rattle.std.specs.Prelude.{◌≡◌, ◌≤◌, ◌-◌, ◌⊎◌, Some, Ok, Err, IfOk, IfErr, MatchResult, Contains, length, map, slice_get};
ghost use Rattle.plan_psplib.specs.Plain.{plain};
ghost use Rattle.plan_psplib.specs.Faults.{IsWantOfMemory, TellsError};
ghost use Rattle.plan_psplib.specs.declared.text.fault.Fault.{Fault};
ghost use Rattle.plan_psplib.specs.declared.text.fault.FileCode.TheVariants as code;
ghost use Rattle.plan_psplib.specs.declared.text.fault.ReadError.TheVariants as errors;
ghost use Rattle.plan_psplib.specs.Lines.{last_line};
ghost use Rattle.plan_psplib.specs.Tokens.{Gives};
ghost use Rattle.plan_orlib.specs.Instances.{names_of};
ghost use Rattle.plan_orlib.specs.ShopText as reading;
ghost use Rattle.plan_orlib.specs.Says.{Says};
ghost use Rattle.plan_orlib.specs.Shop as spec;

use crate::instances::{Found, bare_words, is_bare};
use crate::steps::{Listing, Step, read_listing};
use plan_psplib::{Fault, FileCode, FileFault, ReadError, check_text};
use std::alloc::Global;
use std::marker::Model;

/// A job shop: the number of machines, and the steps of each job in order. Jobs are numbered from
/// 1, machines from 0. Each job has as many steps as there are machines, so the flat order of
/// steps, one job after another, has no gaps.
#[derive(Drop)]
pub struct ShopDoc {
    machines: u32,
    jobs: Vec<Vec<Step>>,
}

impl Model for ShopDoc {
    ghost use Rattle.std.specs.Prelude.{map};
    ghost use Rattle.plan_orlib.specs.Shop.{Shop, IsShop};

    ghost Value = { Shop };

    ghost view = { λ doc. record {
      machines = doc.machines;
      jobs = map (λ job. job.items) doc.jobs.items;
    } };

    ghost invariant = { λ doc. IsShop
        (record { machines = doc.machines; jobs = map (λ job. job.items) doc.jobs.items }) };
}

impl ShopDoc {
    /// Returns the number of machines.
    pub fn machines(&self) -> u32
        ensures value { result ≡ self.now.machines }
        ensures shop { spec.IsShop self.now }
    {
        self.machines
    }

    /// Returns the number of jobs.
    pub fn jobs(&self) -> u32
        ensures value { result ≡ length self.now.jobs }
        ensures shop { spec.IsShop self.now }
    {
        self.jobs.len() as u32
    }

    /// Returns the steps of a job, in order.
    pub fn steps(&self, job: u32) -> &[Step]
        requires first { 1 ≤ job }
        requires last { job ≤ length self.now.jobs }
        ensures steps { slice_get self.now.jobs (job - 1) ≡ Some result.now }
        ensures job { spec.IsJob self.now.machines result.now }
    {
        &self.jobs[job as usize - 1]
    }

    /// Returns the number of machines, and the steps of each job.
    pub fn into_parts(self) -> (u32, Vec<Vec<Step>>)
        ensures machines { result.0 ≡ self.machines }
        ensures jobs { map (λ job. job.items) result.1.items ≡ self.jobs }
        ensures shop { spec.IsShop self }
    {
        (self.machines, self.jobs)
    }
}

/// Reads a job shop text. Returns the shop of the first instance with a name, or the first check
/// that fails, with its line. The one instance of the bare form is named `-`. Words after the last
/// step are skipped.
///
/// The checks, in this order:
///
/// - `TooLong` (F1, line 0).
/// - `NotText` (F2, the line of the first zero byte).
/// - `NoInstance` (F13, the last line).
/// - For each word `BadNumber` (F6), `Limit` (F10: 1–50 jobs, 1–20 machines, a time up to 10,000
/// units, all
///   times together up to 1,000,000), `BadMachine` (F14) and `Count` (F9, a word is missing: the
/// line of the
///   last word, or of the instance line if there is none).
///
/// Any call can run out of memory, except one that fails before the words are read.
///
/// The format is that of `jobshop1` (J. E. Beasley, "OR-Library: distributing test problems by
/// electronic mail", Journal of the Operational Research Society 41, 1990).
pub fn read_shop(alloc: Global, text: &[u8], name: &[u8]) -> Result<ShopDoc, FileFault>
    // The result is the shop that the text describes.
    ensures found { IfOk result (λ shop. Says name.now text.now shop) }
    // If the text describes a shop, the result is that shop, or out of memory.
    ensures only { (shop : spec.Shop) → Says name.now text.now shop →
        MatchResult result (λ read. read ≡ shop) IsWantOfMemory }
    // The error is out of memory, or the first check that fails.
    ensures refused { IfErr result (λ fault. IsWantOfMemory fault ⊎ reading.FailsWith
        (reading.shop name.now text.now) fault) }
    // An error before the words are read is returned even if memory runs out.
    ensures early { (f : Fault) → reading.located name.now text.now ≡ Err f →
        MatchResult result (λ _. ⊥) (TellsError (errors.Fault f)) }
    // Only names that `names` returns have a shop.
    ensures named { IfOk result (λ _. Contains (names_of text.now) name.now) }
    // If the text passes the first two checks, any other name is missing, which is reported at the
    // last line even if memory runs out.
    ensures unnamed { plain text.now ≡ Ok tt → ¬ (Contains (names_of text.now) name.now) →
        MatchResult result (λ _. ⊥)
        (λ fault. (fault.code ≡ code.NoInstance) × (fault.line ≡ last_line text.now)) }
    // A name that `names` returns is never missing.
    ensures missing { IfErr result (λ fault. fault.code ≡ code.NoInstance → ¬
        (Contains (names_of text.now) name.now)) }
{
    let listing = named_listing(alloc, text, name).map_err(|error| FileFault::of(alloc, error))?;
    Ok(ShopDoc {
        machines: listing.machines,
        jobs: listing.jobs,
    })
}

// Reads the shop of the first instance with a name.
fn named_listing(alloc: Global, text: &[u8], name: &[u8]) -> Result<Listing, ReadError>
    ensures exact { Gives spec.shop_of result (reading.shop name.now text.now) }
    ensures found { IfOk result (λ l. Says name.now text.now (spec.shop_of l)) }
    ensures only { (shop : spec.Shop) → Says name.now text.now shop →
        Gives spec.shop_of result (Ok shop) }
    ensures early { (f : Fault) → reading.located name.now text.now ≡ Err f →
        MatchResult result (λ _. ⊥) (λ e. e ≡ errors.Fault f) }
{
    instance_listing(alloc, text, name)
}

// Reads the shop of an instance, after the checks of the text.
#[tactic(auto, unfolding(crate::specs::ShopText::shop, crate::specs::ShopText::located))]
fn instance_listing(alloc: Global, text: &[u8], name: &[u8]) -> Result<Listing, ReadError>
    ensures exact { Gives spec.shop_of result (reading.shop name.now text.now) }
    ensures early { (f : Fault) → reading.located name.now text.now ≡ Err f →
        MatchResult result (λ _. ⊥) (λ e. e ≡ errors.Fault f) }
{
    check_text(text)?;
    let found = Found::of(text, name);
    if is_bare(text) {
        if name != b"-".as_slice() {
            return Err(no_instance(found.last));
        }
        return read_listing(alloc, &mut bare_words(text));
    }
    let Some(mut words) = found.words else {
        return Err(no_instance(found.last));
    };
    read_listing(alloc, &mut words)
}

// Returns the error that no instance has the name.
fn no_instance(last: u64) -> ReadError
    ensures { result ≡ errors.Fault (record { code = code.NoInstance; line = last }) }
{
    ReadError::Fault(Fault::new(FileCode::NoInstance, last))
}
