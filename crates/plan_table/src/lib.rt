//! Planner's lists: a table of activities as a project file, a table of orders as a job shop file.
#![tactic(auto)]

mod cells;
mod checked;
mod columns;
mod csv_step;
mod durations;
mod entries;
mod fault;
mod header;
mod jobs;
mod jobshop;
mod kinds;
mod laws;
mod listing;
mod names;
mod needs;
mod overrides;
mod predecessors;
mod reading;
mod records;
mod rows;
mod settlement;
mod shop_header;
mod shop_names;
mod shop_reading;
mod shop_table;
mod sm;
mod synonyms;
mod table;
mod templates;

pub use cells::{same, same_name};
pub use entries::{cell_at, filled_from, id_place, is_blank_row};
pub use fault::{ReadError, TableCode, TableFault, TextFault};
pub use header::{Column, Head, key_of, read_heads, same_kind};
pub use jobshop::shop_text;
pub use kinds::{ListKind, is_plan_file, list_kind};
pub use laws::{
    accepted_lists_stay, limited_columns_stay, names_change_nothing, plan_files_are_no_lists,
};
pub use listing::read_rows_of;
pub use names::{NameLine, activity_ids, activity_names, first_name, resource_names};
pub use overrides::{Override, given};
pub use predecessors::{Label, number_by};
pub use reading::{read_sound_table, read_table, read_table_with};
pub use records::Row;
pub use settlement::{
    Body, cell_of, gives_capacity, gives_successors, has_capacity, ids_place, is_capacities, settle,
};
pub use shop_names::{machine_names, order_names};
pub use shop_reading::read_shop_table;
pub use shop_table::{ShopStep, ShopTable};
pub use sm::project_text;
pub use table::{Activity, Resource, Table};
pub use templates::{PROJECT_TEMPLATE, SHOP_TEMPLATE};
