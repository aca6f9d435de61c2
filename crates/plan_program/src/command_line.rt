//! The command line of the process: its arguments, and the order that they make.

use crate::errors::print_early;
use crate::file_orders::run_file_order;
use crate::misuse::Misuse;
use crate::status::Status;
use clap::ArgMatches;
use plan_orders::{
    Lists, OfficeOrder, Order, capacities_of, command, events_of, help, lacks_per_day,
    list_options_of, misplaced_option, moments_of, order_of, overrides_of, rows_of, style_of,
    texts_of, version,
};
use std::alloc::Global;
use std::env;

/// The commands on offices.
pub trait Offices {
    /// Runs an order on an office, prints its error, and returns the status.
    fn run(&self, rt: &HostRuntime, order: OfficeOrder<'_>) -> Result<Status, Misuse>;
}

// Returns the arguments of the process, the name of the program first.
fn arguments_of(rt: &HostRuntime) -> Result<Vec<String>, Misuse> {
    let arguments = env::args(rt).map_err(|error| Misuse::of_arguments(&error))?;
    Ok(arguments.collect(rt.alloc())?)
}

// Runs an order, and returns the status.
fn run_order<O: Offices>(
    rt: &HostRuntime,
    order: Order<'_>,
    offices: &O,
) -> Result<Status, Misuse> {
    match order {
        Order::File(order, rows, options) => run_file_order(rt, order, rows, options),
        Order::Office(order) => offices.run(rt, order),
    }
}

// Runs the order of a command line that clap has accepted.
fn run_matches<O: Offices>(
    rt: &HostRuntime,
    matches: ArgMatches<'_>,
    offices: &O,
) -> Result<Status, Misuse> {
    let alloc = rt.alloc();
    let capacities = capacities_of(alloc, &matches)?;
    let capacities = capacities.map_err(|text| Misuse::of_capacity(alloc, text))?;
    let overrides = overrides_of(alloc, &matches)?;
    let overrides = overrides.map_err(|text| Misuse::of_capacity(alloc, text))?;
    let options = list_options_of(alloc, &matches)?;
    let options = options.map_err(|bad| Misuse::of_option(alloc, bad))?;
    if let Some(option) = misplaced_option(&matches) {
        return Err(Misuse::NeedsCalendarFile(option));
    }
    if lacks_per_day(&matches) {
        return Err(Misuse::NeedsPerDay);
    }
    let texts = texts_of(alloc, &matches)?;
    let style = match style_of(alloc, &matches) {
        Ok(style) => style,
        Err(fault) => return Ok(print_early(rt, rows_of(&matches), &fault)),
    };
    let moments = moments_of(&style);
    let events = events_of(&matches, &style);
    let lists = Lists {
        capacities: &capacities,
        overrides: &overrides,
        options: options.options(),
        texts: &texts,
        moments: moments.as_ref(),
        style: &style,
        events: &events,
    };
    match order_of(&matches, lists) {
        Some(order) => run_order(rt, order, offices),
        None => Err(Misuse::NoCommand),
    }
}

// Reads the command line, runs its order, and returns the status.
fn run<O: Offices>(rt: &HostRuntime, offices: &O) -> Result<Status, Misuse> {
    let alloc = rt.alloc();
    let arguments = arguments_of(rt)?;
    let (help, version) = (help(alloc)?, version(alloc)?);
    let first = match arguments.get(1) {
        Some(word) => Some(word.as_str()),
        None => None,
    };
    let parser = command(alloc, help.as_str(), version.as_str(), first)?;
    let parsed = parser.try_get_matches_from(arguments.as_slice());
    run_matches(rt, parsed.map_err(Misuse::Usage)?, offices)
}

/// Runs the command of the process's arguments: one on files, or one of `offices`. Prints its
/// error, and returns the status.
pub fn run_program<O: Offices>(rt: &HostRuntime, offices: &O) -> Status {
    match run(rt, offices) {
        Ok(status) => status,
        Err(misuse) => misuse.print(rt),
    }
}
