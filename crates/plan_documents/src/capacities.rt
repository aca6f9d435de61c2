//! Capacities that replace those of a project file.

ghost use Rattle.std.specs.Prelude.{◌≡◌, ◌+◌, ◌<◌, ◌++◌, ℕ, true, false, codes, length};
ghost use Rattle.std.specs.Prelude.{map, IfOk, IfErr, IfSome, IfNone, string_bytes};
ghost use Rattle.plan_errors.specs.Faults.{IsAbout};
ghost use Rattle.plan_table.specs.Names.{name_of};
ghost use Rattle.plan_errors.specs.Output.{Refuses};
ghost use Rattle.plan_errors.specs.Parts.{parts_text};
ghost use Rattle.plan_documents.specs.Capacities as spec;

use plan_errors::{About, CliFault, Code, Part, refuse};
use plan_table::{NameLine, first_name};
use std::alloc::{AllocError, Global};
use std::fmt::Write;

/// The capacity of a resource, from `plan solve --capacity`.
#[derive(Clone, Copy, Debug, Drop)]
pub struct Capacity<'a> {
    /// The name that the file gives the resource, or its number from 1, with or without an `R` in
    /// front. If the file gives this name to a resource, the name stands for that one.
    pub resource: &'a str,
    pub amount: u64,
}

// Whether a text is the number of a resource, with or without an `R` in front.
fn is_number_name(alloc: Global, name: &str, number: usize) -> Result<bool, AllocError>
    ensures yes { IfOk result (λ is. is ≡ true → spec.IsNumberName number name.now) }
    ensures no { IfOk result (λ is. is ≡ false → spec.IsNumberName number name.now → ⊥) }
{
    let mut plain = String::new(alloc);
    write!(plain, "{number}")?;
    let mut lettered = String::new(alloc);
    write!(lettered, "R{number}")?;
    Ok(name == plain.as_str() || name == lettered.as_str())
}

// Returns the index of the resource with this number among so many.
fn numbered_index(alloc: Global, name: &str, count: usize) -> Result<Option<usize>, AllocError>
    ensures some { IfOk result (λ found. IfSome found (λ k.
        (k < count) × spec.IsNumberName (k + 1) name.now)) }
    ensures none { IfOk result (λ found. IfNone found
        ((k : ℕ) → k < count → spec.IsNumberName (k + 1) name.now → ⊥)) }
{
    for k in 0..count {
        if is_number_name(alloc, name, k + 1)? {
            return Ok(Some(k));
        }
    }
    Ok(None)
}

// Whether a name is that which the file gives the resource with this number.
fn is_given_name(names: &[NameLine<'_>], name: &str, number: u64) -> bool
    ensures yes { result ≡ true → spec.IsGivenName (map name_of names.now) number name.now }
    ensures no { result ≡ false → spec.IsGivenName (map name_of names.now) number name.now → ⊥ }
{
    match first_name(names, number) {
        Some(found) => found == name.as_bytes(),
        None => false,
    }
}

// Returns the index of the first resource among so many to which the file gives this name.
fn given_index(names: &[NameLine<'_>], name: &str, count: usize) -> Option<usize>
    ensures some { IfSome result (λ k. (k < count)
        × spec.IsGivenName (map name_of names.now) (k + 1) name.now
        × spec.GivesNone (map name_of names.now) k name.now) }
    ensures none { IfNone result (spec.GivesNone (map name_of names.now) count name.now) }
{
    for k in 0..count {
        if is_given_name(names, name, k as u64 + 1) {
            return Some(k);
        }
    }
    None
}

// Returns the index of the resource among so many for which a name stands.
fn index_of(
    alloc: Global,
    names: &[NameLine<'_>],
    name: &str,
    count: usize,
) -> Result<Option<usize>, AllocError>
    ensures some { IfOk result (λ found. IfSome found (λ k.
        (k < count) × spec.IsNameOf (map name_of names.now) count k name.now)) }
    ensures none { IfOk result (λ found.
        IfNone found (spec.NamesNone (map name_of names.now) count name.now)) }
{
    match given_index(names, name, count) {
        Some(k) => Ok(Some(k)),
        None => numbered_index(alloc, name, count),
    }
}

// Returns a name behind words.
fn name_parts(alloc: Global, name: &str) -> Result<Vec<Part>, AllocError>
    ensures { IfOk result (λ list. spec.SaysUnknown name.now
        (codes "S8" ++ parts_text list.items)) }
{
    let name = Part::Text(name.to_string(alloc)?);
    Ok(Vec::from_array(alloc, [Part::Words("no resource"), name])?)
}

// Returns the names that the file gives so many resources, if it gives each of them one.
#[tactic(auto, using(crate::proofs::CapacityLemmas::shown_more, crate::proofs::CapacityLemmas::unnamed))]
fn shown_names(
    alloc: Global,
    names: &[NameLine<'_>],
    count: usize,
) -> Result<Option<Vec<String>>, AllocError>
    ensures some { IfOk result (λ found. IfSome found (λ list. (length list.items ≡ count)
        × spec.AreShown (map name_of names.now) 1 (map string_bytes list.items))) }
    ensures none { IfOk result (λ found.
        IfNone found (spec.LacksName (map name_of names.now) count)) }
{
    let mut list = Vec::new(alloc);
    for k in 0..count {
        let Some(name) = first_name(names, k as u64 + 1) else {
            return Ok(None);
        };
        list.push(String::from_utf8_lossy(alloc, name)?)?;
    }
    Ok(Some(list))
}

// Returns words and a name behind them.
fn named(alloc: Global, words: &str, name: &str) -> Result<String, AllocError>
    ensures { IfOk result (λ text. string_bytes text ≡ words.now ++ name.now) }
{
    let mut text = words.to_string(alloc)?;
    text.push_str(name)?;
    Ok(text)
}

// Returns the resources that there are, by their names.
#[tactic(auto, using(crate::proofs::CapacityLemmas::texts_joined))]
fn named_resources(alloc: Global, names: &[String]) -> Result<String, AllocError>
    ensures { IfOk result (λ text.
        string_bytes text ≡ spec.named_text (map string_bytes names.now)) }
{
    match names {
        [] => "the project has no resource".to_string(alloc),
        [only] => named(alloc, "the only resource is ", only.as_str()),
        [_, _, ..] => {
            let list = names.join(alloc, ", ")?;
            named(alloc, "the resources are ", list.as_str())
        }
    }
}

// Returns the resources that there are, by their numbers.
fn numbered_resources(alloc: Global, count: usize) -> Result<String, AllocError>
    ensures { IfOk result (λ text. string_bytes text ≡ spec.numbered_text count) }
{
    if count == 1 {
        return "the only resource is 1".to_string(alloc);
    }
    let mut text = String::new(alloc);
    write!(text, "the resources are 1 to {count}")?;
    Ok(text)
}

// Returns the resources that there are.
fn resources(alloc: Global, names: &[NameLine<'_>], count: usize) -> Result<String, AllocError>
    ensures { IfOk result (λ text.
        spec.IsResourcesText (map name_of names.now) count (string_bytes text)) }
{
    match shown_names(alloc, names, count)? {
        Some(names) => named_resources(alloc, &names),
        None => numbered_resources(alloc, count),
    }
}

// Returns the error of a name that no resource has, without the resources that there are.
fn plain_unknown(alloc: Global, name: &str) -> CliFault
    ensures told { Refuses (spec.SaysUnknown name.now) result }
    ensures about { IsAbout About.Capacity result }
{
    refuse(Code::NoResource, About::Capacity, name_parts(alloc, name))
}

// Returns the error of a name that none of so many resources has.
#[tactic(auto, using(crate::proofs::CapacityLemmas::unknown_told, crate::proofs::CapacityLemmas::unknown_about, crate::proofs::CapacityLemmas::unknown_named))]
fn unknown(alloc: Global, names: &[NameLine<'_>], name: &str, count: usize) -> CliFault
    ensures told { Refuses (spec.SaysUnknown name.now) result }
    ensures about { IsAbout About.Capacity result }
    ensures detail { spec.NamesResources (map name_of names.now) count result }
{
    match resources(alloc, names, count) {
        Ok(detail) => plain_unknown(alloc, name).with_detail(Some(detail)),
        Err(_) => CliFault::Memory,
    }
}

/// Replaces capacities of a list by the given ones, in their order. The names are those that the
/// file gives its resources.
pub fn replaced(
    alloc: Global,
    names: &[NameLine<'_>],
    given: &[Capacity<'_>],
    capacities: &[u64],
) -> Result<Vec<u64>, CliFault>
    ensures ok { IfOk result (λ list.
        spec.Replaces (map name_of names.now) given.now capacities.now list.items) }
    ensures whole { IfOk result (λ list. length list.items ≡ length capacities.now) }
    ensures refused { IfErr result (Refuses
        (spec.TellsUnknown (map name_of names.now) given.now capacities.now)) }
{
    let mut list = Vec::from_slice(alloc, capacities)?;
    for capacity in given {
        let Some(k) = index_of(alloc, names, capacity.resource, list.len())? else {
            return Err(unknown(alloc, names, capacity.resource, list.len()));
        };
        list[k] = capacity.amount;
    }
    Ok(list)
}
