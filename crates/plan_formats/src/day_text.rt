//! The texts of dates.

ghost use Rattle.std.specs.Prelude.{◌≡◌, ◌++◌, ◌≤◌, IfOk, OnOk};
ghost use Rattle.jiff_fmt.specs.Text.{pad2, pad4, year_text};
ghost use Rattle.plan_formats.specs.Cells as spec;

use std::alloc::{AllocError, Global};

// Appends a number in two digits.
fn push_two(text: &mut Vec<u8>, n: u16) -> Result<(), AllocError>
    requires { n ≤ 327 }
    ensures { OnOk result (text.new.items ≡ text.old.items ++ pad2 n) }
{
    text.push(b'0' + (n / 10) as u8)?;
    text.push(b'0' + (n % 10) as u8)?;
    Ok(())
}

// Appends a number in four digits.
fn push_four(text: &mut Vec<u8>, n: u16) -> Result<(), AllocError>
    requires { n ≤ 32768 }
    ensures { OnOk result (text.new.items ≡ text.old.items ++ pad4 n) }
{
    push_two(text, n / 100)?;
    push_two(text, n % 100)
}

// Appends a year. A year before 0 has a sign and six digits.
fn push_year(text: &mut Vec<u8>, year: i16) -> Result<(), AllocError>
    ensures { OnOk result (text.new.items ≡ text.old.items ++ year_text year) }
{
    if year < 0 {
        text.extend_from_slice(b"-00")?;
    }
    push_four(text, year.unsigned_abs())
}

/// Returns the text of a date.
pub(crate) fn day_text(alloc: Global, year: i16, month: u8, day: u8) -> Result<Vec<u8>, AllocError>
    ensures { IfOk result (λ text. text.items ≡ spec.day_text year month day) }
{
    let mut text = Vec::new(alloc);
    push_year(&mut text, year)?;
    text.push(b'-')?;
    push_two(&mut text, u16::from(month))?;
    text.push(b'-')?;
    push_two(&mut text, u16::from(day))?;
    Ok(text)
}
