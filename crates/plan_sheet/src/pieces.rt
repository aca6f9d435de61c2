//! Numbers behind markup.

ghost use Rattle.std.specs.Prelude.{◌≡◌, ◌++◌, OnOk, string_bytes};
ghost use Rattle.plan_sheet.specs.Pieces as spec;

use std::alloc::AllocError;
use std::fmt::Write;

/// Appends markup and a number.
#[tactic(auto, unfolding(crate::specs::Pieces::counted))]
pub(crate) fn push_counted(text: &mut String, before: &str, n: u64) -> Result<(), AllocError>
    ensures { OnOk result
        (string_bytes text.new ≡ string_bytes text.old ++ spec.counted before.now n) }
{
    text.push_str(before)?;
    write!(text, "{n}")
}
