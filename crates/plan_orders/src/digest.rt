//! The digest of the sources, which `./release --stamp` writes here.

/// The digest of all sources of the program but this file, in hexadecimal digits, as
/// `./release --digest` prints it.
pub(crate) const SOURCES: &str = "3863a0f783708739d336b683ad966bb0024530f55a310f57efd2274f78b69f40";
