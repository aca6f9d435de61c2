//! The fact that 32 bytes are a digest.

ghost use Rattle.std.specs.Prelude.{◌≡◌, nat_lt, true};
ghost use Rattle.std.specs.List.{list_all};
ghost use Rattle.plan_rows.specs.Names.{is_digest};

// Does nothing. Its contract states that each byte is below 256.
fn known_bytes(bytes: &[u8])
    ensures { list_all (λ b. nat_lt b 256) bytes.now ≡ true }
{
    let _bytes = bytes;
}

/// Does nothing. Its contract states that 32 bytes are a digest.
pub fn known_digest(digest: &[u8; 32])
    ensures { is_digest digest.now ≡ true }
{
    known_bytes(digest);
}
