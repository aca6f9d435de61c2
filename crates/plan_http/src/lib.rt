//! HTTP: from the bytes of a connection to a request of the desks, and from a reply to the bytes of
//! a response.
#![tactic(auto)]

mod body;
mod calls;
mod checks;
mod client;
mod connection;
mod fields;
mod head;
mod headline;
mod laws;
mod lengths;
mod line;
mod output;
mod request;
mod response;
mod routes;
mod runs;
mod size;
mod trace;

pub use checks::Check;
pub use client::{Client, Listening};
pub use connection::{ConnEnd, serve_conn};
pub use headline::{Run, TwoRuns, apart_runs_are_alike, serve_two_worlds};
pub use laws::{one_verdict, routes_are_these, served_desks_are_apart, some_verdict};
pub use request::{Asked, read_request};
pub use response::{respond, response_bytes};
pub use routes::{Route, Routes};
pub use runs::{RunFault, serve_run};
pub use size::request_size;
pub use trace::Trace;
