//! The projects and the job shops in files and in lists, as values, and the errors of these files.
#![tactic(auto)]

mod capacities;
mod contents;
mod details;
mod documents;
mod imports;
mod infeasible;
mod labels;
mod list_options;
mod lists;
mod named_verdicts;
mod notes;
mod projects;
mod quotes;
mod refusals;
mod sentences;
mod shops;
mod spreadsheets;
mod starts;
mod table_faults;
mod waits;

pub use capacities::{Capacity, replaced};
pub use documents::{
    Document, Ids, Plan, Subject, ids_of, ids_of_rows, names_of_lines, names_of_rows, plan_of,
    read_document,
};
pub use imports::{file_import_text, file_shop_text};
pub use infeasible::{infeasible_refusal, shop_infeasible_refusal};
pub use list_options::{Prepared, options_refusal, prepare};
pub use lists::{Reading, readable};
pub use named_verdicts::verdict_sentence;
pub use notes::{note_line, notes_of};
pub use plan_spreadsheet::{Options, Rename, unit_of};
pub use projects::{instance_with, read_project};
pub use quotes::quoted;
pub use refusals::{file_refusal, need_refusal, rule_refusal};
pub use sentences::with_names;
pub use shops::{open_shop, read_instance};
pub use spreadsheets::{plain_of, spreadsheet_refusal};
pub use starts::{read_starts, starts_of};
pub use table_faults::table_refusal;
