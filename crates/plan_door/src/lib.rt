//! Connections served one after another, from a socket or from files, by any office over any book.
//! A socket has a queue, deadlines and a log. The crate also reads the key of an office from a
//! text.
#![tactic(auto)]

mod arrival;
mod books;
mod closing;
mod fault;
mod first_line;
mod hints;
mod key;
mod log;
mod pending;
mod queue;
mod replay;
mod requests;
mod service;
mod side;
mod socket;
mod visitors;

pub use books::{replay_book, serve_book};
pub use fault::ServeFault;
pub use hints::Target;
pub use key::read_key;
pub use replay::replay_run;
pub use requests::read_connection;
pub use service::Service;
pub use side::Side;
pub use socket::serve_listener;
pub use visitors::{Visitors, serve_visitors};
