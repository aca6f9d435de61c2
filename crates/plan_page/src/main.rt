//! The program `plan` without the commands on offices, for WebAssembly.
#![tactic(auto)]

use plan_orders::OfficeOrder;
use plan_program::{Misuse, Offices, Status, run_program};
use std::process::ExitCode;

// No office: its commands are refused.
#[derive(Clone, Copy)]
struct NoOffices;

impl Offices for NoOffices {
    fn run(&self, _rt: &HostRuntime, _order: OfficeOrder<'_>) -> Result<Status, Misuse> {
        Err(Misuse::NoOffice)
    }
}

fn main(rt: HostRuntime) -> ExitCode {
    ExitCode::from(run_program(&rt, &NoOffices).code())
}
