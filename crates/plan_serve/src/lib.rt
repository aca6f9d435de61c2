//! The commands of the program `plan` on an office: create its tables, answer connections from
//! files, and serve connections of a socket.
#![tactic(auto)]

mod causes;
mod check_office;
mod commands;
mod fault;
mod files;
mod init;
mod place;

pub use check_office::check_office_run;
pub use files::{
    ClosedFiles, ResultAndFiles, check_office_from, check_office_on_file, init_from, init_on_file,
    replay_from, replay_on_files, serve_from, serve_on_port,
};
pub use init::init_run;
pub use place::Place;
pub use plan_door::{
    ServeFault, Service, Side, Target, Visitors, read_connection, read_key, replay_run,
    serve_listener, serve_visitors,
};
pub use plan_summary::Summary;
