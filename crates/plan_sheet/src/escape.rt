//! Text inside markup.

ghost use Rattle.std.specs.Prelude.{◌≡◌, ◌++◌, false, None, Some, IfOk, OnOk, string_bytes};
ghost use Rattle.std.specs.List.{list_any};
ghost use Rattle.plan_sheet.specs.Escape as spec;

use std::alloc::{AllocError, Global};

// Whether a text in XML or HTML can't contain `c`, or shows nothing for it.
fn is_hidden(c: char) -> bool
    ensures { result ≡ spec.is_hidden c }
{
    c < ' ' || ('\u{7f}'..='\u{9f}').contains(&c) || c == '\u{fffe}' || c == '\u{ffff}'
}

// The character that is shown for `c`.
pub(crate) fn shown(c: char) -> char
    ensures { result ≡ spec.shown c }
{
    if is_hidden(c) { '\u{fffd}' } else { c }
}

// Appends a character, escaped.
#[tactic(auto, unfolding(crate::specs::Escape::escaped_char))]
fn push_escaped(text: &mut String, c: char) -> Result<(), AllocError>
    ensures { OnOk result (string_bytes text.new ≡ string_bytes text.old ++ spec.escaped_char c) }
{
    match c {
        '&' => text.push_str("&amp;"),
        '<' => text.push_str("&lt;"),
        '>' => text.push_str("&gt;"),
        '"' => text.push_str("&quot;"),
        '\'' => text.push_str("&#39;"),
        _ => text.push(shown(c)),
    }
}

/// Returns a text for use inside an element or a quoted attribute of HTML or SVG. The characters
/// `& < > " '` become entities (WHATWG HTML, "Escaping a string"; XML 1.0, section 4.6). Control
/// characters and the two noncharacters that XML excludes become U+FFFD.
pub fn escaped(alloc: Global, text: &str) -> Result<String, AllocError>
    ensures text { IfOk result (λ written. string_bytes written ≡ spec.escaped text.now) }
    // No text opens or closes a tag or a quoted attribute.
    ensures plain { IfOk result (λ written.
        list_any spec.is_markup (string_bytes written) ≡ false) }
    // Each `&` begins one of five entities, and a reader gets back the text as it is shown.
    ensures back { IfOk result (λ written.
        spec.read_from None (string_bytes written) ≡ Some (spec.shown_text text.now)) }
{
    let mut written = String::new(alloc);
    for c in text.chars() {
        push_escaped(&mut written, c)?;
    }
    Ok(written)
}
