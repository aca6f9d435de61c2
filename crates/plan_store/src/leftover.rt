//! The connection or store that a failed adoption returns.

use sqlite::{Alter, Connection};

/// The connection of a failed adoption, outside a transaction, or its store alone if the tables
/// couldn't be read again.
#[derive(Drop)]
pub enum Leftover<S: Alter> {
    Connection(Connection<S>),
    Store(S),
}
