//! Parts of a file.

ghost use Rattle.std.specs.Prelude.{◌≡◌, drop};
ghost use Rattle.plan_encoding.specs.Marks.{occurs};

use memchr::memmem;

/// Returns the bytes from index `at` on.
pub fn rest(bytes: &[u8], at: usize) -> &[u8]
    ensures { result.now ≡ drop at bytes.now }
{
    match bytes.get(at..) {
        Some(rest) => rest,
        None => &[],
    }
}

/// Tests whether `part` occurs in the bytes.
pub fn contains(bytes: &[u8], part: &[u8]) -> bool
    ensures { result ≡ occurs bytes.now part.now }
{
    memmem::find(bytes, part).is_some()
}
