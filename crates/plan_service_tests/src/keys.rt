//! Keys from a source that fails.

use crate::devices::Drip;
use plan_door::{ServeFault, read_key};
use std::alloc::Global;

// The SHA-256 of `password`, as `sha256sum` prints it.
const DIGEST: [u8; 32] = [
    0x5e, 0x88, 0x48, 0x98, 0xda, 0x28, 0x04, 0x71, 0x51, 0xd0, 0xe5, 0x6f, 0x8d, 0xc6, 0x29, 0x27,
    0x73, 0x60, 0x3d, 0x0d, 0x6a, 0xab, 0xbd, 0xd6, 0x2a, 0x11, 0xef, 0x72, 0x1d, 0x15, 0x42, 0xd8,
];

// Returns the digest of a key from a source that fails after these bytes.
fn read_failing(alloc: Global, text: &str) -> Result<[u8; 32], ServeFault> {
    read_key(alloc, &mut Drip::new(text.as_bytes(), true))
}

#[test]
fn a_source_that_fails_within_the_line_is_told(rt: HostRuntime) {
    for text in ["", "pass", "password", "password\r"] {
        assert_eq!(&rt;
            read_failing(rt.alloc(), text),
            Err(ServeFault::Input),
            "{text}"
        );
    }
    assert_eq!(&rt; read_failing(rt.alloc(), "password\n"), Ok(DIGEST));
}
