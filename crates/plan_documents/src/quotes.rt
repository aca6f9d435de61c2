//! Texts that a sentence quotes.

ghost use Rattle.std.specs.Prelude.{◌≡◌, IfOk, string_bytes};
ghost use Rattle.plan_documents.specs.Quotes as spec;

use std::alloc::{AllocError, Global};

// The most bytes of a text that a sentence quotes.
const MOST_QUOTED: usize = 60;

/// Returns a text, or its whole characters within the first 60 bytes with `..` behind them.
pub fn quoted(alloc: Global, text: &str) -> Result<String, AllocError>
    ensures { IfOk result (λ made. string_bytes made ≡ spec.quoted text.now) }
{
    if text.len() <= MOST_QUOTED {
        return text.to_string(alloc);
    }
    let end = text.floor_char_boundary(MOST_QUOTED);
    let mut made = text[..end].to_string(alloc)?;
    made.push_str("..")?;
    Ok(made)
}
