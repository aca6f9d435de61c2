//! Worked examples of several crates that no command on files shows: schedules by a list and with a
//! lag, words and verdicts of job shops, answers that are kept for projects, devices that fail,
//! errors that no file causes, calls with failed allocations, and calls that no command makes.
#![tactic(auto)]

#[cfg(test)]
mod calendars;
#[cfg(test)]
mod devices;
#[cfg(test)]
mod fault_lines;
#[cfg(test)]
mod job_shops;
#[cfg(test)]
mod kept_projects;
#[cfg(test)]
mod project_trees;
#[cfg(test)]
mod refusals;
#[cfg(test)]
mod runs;
#[cfg(test)]
mod serial;
#[cfg(test)]
mod shop_verdicts;
#[cfg(test)]
mod shops;
#[cfg(test)]
mod six;
#[cfg(test)]
mod tables;
