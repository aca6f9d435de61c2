//! Labels that are cut to the room that they have.

ghost use Rattle.std.specs.Prelude.{◌≡◌, ◌++◌, IfOk, OnOk, string_bytes};
ghost use Rattle.std.specs.Str.{chars};
ghost use Rattle.plan_sheet.specs.Cuts as spec;

use std::alloc::{AllocError, Global};

// Returns the columns of a character, of 0.6 em each.
fn columns_of(c: char) -> u32
    ensures { result ≡ spec.columns_of c }
{
    if c < '\u{1100}' { 1 } else { 2 }
}

// Returns whether a text has room in so many columns.
fn fits(text: &str, room: u32) -> bool
    ensures { result ≡ spec.fits room (chars text.now) }
{
    let mut left = room;
    for c in text.chars() {
        let columns = columns_of(c);
        if left < columns {
            return false;
        }
        left -= columns;
    }
    true
}

// Returns the first characters of a text that have room.
fn front_of(alloc: Global, text: &str, room: u32) -> Result<String, AllocError>
    ensures { IfOk result (λ front. string_bytes front ≡ spec.front_of room (chars text.now)) }
{
    let mut front = String::new(alloc);
    let mut left = room;
    for c in text.chars() {
        let columns = columns_of(c);
        if left < columns {
            return Ok(front);
        }
        left -= columns;
        front.push(c)?;
    }
    Ok(front)
}

/// Returns a text, or its first characters and an ellipsis if it has no room in so many columns of
/// 0.6 em.
#[tactic(auto, unfolding(crate::specs::Cuts::cut))]
pub(crate) fn cut(alloc: Global, text: &str, room: u32) -> Result<String, AllocError>
    ensures { IfOk result (λ shown. string_bytes shown ≡ spec.cut room text.now) }
{
    if fits(text, room) {
        return String::from_str(alloc, text);
    }
    let mut front = front_of(alloc, text, room.saturating_sub(2))?;
    front.push('\u{2026}')?;
    Ok(front)
}
