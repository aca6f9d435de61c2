//! The error of a file or of an argument.

ghost use Rattle.std.specs.Prelude.{◌≡◌, ◌++◌, ◌∷◌, [], IfErr, IfOk, string_bytes};
ghost use Rattle.plan_errors.specs.Codes.{name_of};
ghost use Rattle.plan_errors.specs.Faults.{refusal_line, refusal_of, IsAbout};
ghost use Rattle.plan_errors.specs.Output.{Refuses};
ghost use Rattle.plan_errors.specs.declared.parts.Part.TheVariants as part;

use crate::codes::Code;
use crate::context::{About, Contents};
use crate::fault::CliFault;
use crate::parts::{Part, push_parts};
use std::alloc::{AllocError, Global};

/// The error of a file or of an argument.
#[derive(Debug, Drop)]
pub struct Refusal {
    pub code: Code,
    /// The parts of its line after the code.
    pub parts: Vec<Part>,
    /// The argument that it is about.
    pub about: About,
    /// The kind of contents of the command's file.
    pub contents: Contents,
    /// The cause with the names in the file, if it is known.
    pub detail: Option<String>,
}

impl Refusal {
    /// Returns its line without the end, such as `F9 line 31`.
    #[tactic(auto, using(crate::proofs::PartLemmas::parts_flat))]
    pub fn line(&self, alloc: Global) -> Result<String, AllocError>
        ensures { IfOk result (λ text. string_bytes text ≡ refusal_line self.now) }
    {
        let mut text = self.code.name().to_string(alloc)?;
        push_parts(&mut text, &self.parts)?;
        Ok(text)
    }
}

/// Returns the error with this code and these parts about an argument, or the error of memory if
/// there was none for the parts.
pub fn refuse(code: Code, about: About, parts: Result<Vec<Part>, AllocError>) -> CliFault
    ensures made { IfOk parts (λ list. result ≡ CliFault.Refused (refusal_of code about list)) }
    ensures memory { IfErr parts (λ _. result ≡ CliFault.Memory) }
{
    match parts {
        Ok(parts) => CliFault::Refused(Refusal {
            code,
            parts,
            about,
            contents: Contents::Unknown,
            detail: None,
        }),
        Err(_) => CliFault::Memory,
    }
}

// Returns words as the parts of a line.
fn word_parts(alloc: Global, words: &'static str) -> Result<Vec<Part>, AllocError>
    ensures { IfOk result (λ list. list.items ≡ (part.Words words.entry ∷ [])) }
{
    let mut parts = Vec::new(alloc);
    parts.push(Part::Words(words))?;
    Ok(parts)
}

/// Returns the error about an argument whose line has these words behind the code.
pub fn refuse_words(alloc: Global, code: Code, about: About, words: &'static str) -> CliFault
    ensures line { Refuses (λ line. line ≡ name_of code ++ (32 ∷ words.now)) result }
    ensures about { IsAbout about result }
{
    refuse(code, about, word_parts(alloc, words))
}
