//! The program `plan`: the commands on files, which plan_program runs, and those on offices.
#![tactic(auto)]

mod office_errors;
mod offices;
mod streams;

use self::offices::FileOffices;
use self::streams::fill_closed;
use plan_program::run_program;
use std::process::ExitCode;

fn main(rt: HostRuntime) -> ExitCode {
    fill_closed(&rt);
    ExitCode::from(run_program(&rt, &FileOffices).code())
}
