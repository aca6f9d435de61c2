//! The commands of `plan` on files, from the bytes that they read to the bytes that they write.
#![tactic(auto)]

mod calendar_refusals;
mod calendars;
mod charts;
mod checks;
mod commands;
mod comparisons;
mod days;
mod explanations;
mod files;
mod inputs;
mod links;
mod list_comparisons;
mod list_texts;
mod list_times;
mod moments;
mod named_texts;
mod names;
mod order_tables;
mod origins;
mod own_tables;
mod plan_refs;
mod prepared_tasks;
mod proof;
mod rules;
mod runs;
mod schedules;
mod slacks;
mod solutions;
mod solver;
mod tables;
mod tasks;
mod templates;
mod verdicts;
mod views;
mod watchers;

pub use calendar_refusals::days_refusal;
pub use calendars::{Dates, calendar_of};
pub use checks::{Checked, check_text};
pub use comparisons::Pair;
pub use explanations::explain_run_in;
pub use files::{
    read_named, run_on_file, run_on_files, run_on_named, run_on_texts, run_with_options,
};
pub use inputs::{Inputs, SystemInputs};
pub use named_texts::{NamedText, Role};
pub use origins::Origin;
pub use plan_documents::{
    Capacity, Document, Options, Plan, Prepared, Reading, Rename, Subject, file_refusal,
    instance_with, names_of_lines, names_of_rows, need_refusal, notes_of, plan_of, prepare,
    read_document, read_instance, read_project, readable, replaced, unit_of, with_names,
};
pub use plan_errors::{CliFault, Code, Context, code_hint, error_json, explain_run, hint, masked};
pub use plan_views::MomentStyle;
pub use runs::{best_project_run, best_run, cpm_run, run_task, schedule_run, shop_run};
pub use schedules::{Scheduled, schedule_from};
pub use tasks::{Rows, Task};
pub use templates::{Template, template_run};
pub use watchers::{Log, NoteWatcher, ProofWatcher, SolveWatcher, Unlogged, Unwatched};
