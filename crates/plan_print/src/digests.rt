//! The digests of files, which make the identifiers of events unique.

ghost use Rattle.std.specs.Prelude.{◌≡◌, IfOk, string_bytes};
ghost use Rattle.plan_print.specs.Digests as spec;

use sha2::{Digest, Sha256};
use std::alloc::{AllocError, Global};

/// Returns the SHA-256 of a file in hexadecimal digits.
pub(crate) fn file_digest(alloc: Global, file: &[u8]) -> Result<String, AllocError>
    ensures { IfOk result (λ text. string_bytes text ≡ spec.file_digest file.now) }
{
    let digest = Sha256::digest(file);
    hex::encode(alloc, digest.as_slice())
}

/// Returns the SHA-256 of a file, a zero byte and the name of an instance, in hexadecimal digits.
pub(crate) fn instance_digest(
    alloc: Global,
    file: &[u8],
    instance: &str,
) -> Result<String, AllocError>
    ensures { IfOk result (λ text. string_bytes text
        ≡ spec.instance_digest file.now instance.now) }
{
    let mut hasher = Sha256::new();
    hasher.update(file);
    hasher.update([0_u8].as_slice());
    hasher.update(instance);
    let digest = hasher.finalize();
    hex::encode(alloc, digest.as_slice())
}
