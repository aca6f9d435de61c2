//! The numbers and digests that statements take.

ghost use Rattle.std.specs.Prelude.{◌≡◌, ◌+◌, ◌≤◌, ◌^◌, true, IfOk, IfErr};
ghost use Rattle.hex.specs.Hex.{encode_lower};
ghost use Rattle.plan_rows.specs.Names.{is_digest};

use plan_rows::{BookFault, known_digest};

/// Returns a number of an office for a statement. All such numbers are below 2^32.
pub fn sql_number(number: u64) -> Result<u32, BookFault>
    ensures same { IfOk result (λ n. n ≡ number) }
    ensures blamed { IfErr result (λ fault. (fault ≡ BookFault.Store) × (2 ^ 32 ≤ number)) }
{
    u32::try_from(number).map_err(|_| BookFault::Store)
}

/// Returns the next number.
pub fn number_after(number: u32) -> Result<u32, BookFault>
    ensures next { IfOk result (λ n. n ≡ number + 1) }
    ensures blamed { IfErr result
        (λ fault. (fault ≡ BookFault.Store) × (2 ^ 32 ≤ number + 1)) }
{
    number.checked_add(1).ok_or(BookFault::Store)
}

/// Returns the 64 lower-case hexadecimal digits of a digest.
pub fn digits_of(digest: &[u8; 32]) -> Result<[u8; 64], BookFault>
    ensures digits { IfOk result (λ digits. digits ≡ encode_lower digest.now) }
    ensures known { is_digest digest.now ≡ true }
{
    known_digest(digest);
    let mut digits = [0; 64];
    hex::encode_to_slice(digest.as_slice(), &mut digits).map_err(|_| BookFault::Store)?;
    Ok(digits)
}
