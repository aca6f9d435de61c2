//! Tables and charts of schedules as values: plain text, CSV and JSON are made from them.
#![tactic(auto)]

mod bar_tables;
mod bars;
mod bounds;
mod chart;
mod chart_texts;
mod chart_values;
mod charts;
mod comparisons;
mod dates;
mod days;
mod headings;
mod id_comparisons;
mod line_lists;
mod links;
mod moments;
mod plans;
mod predecessors;
mod rows;
mod schedules;
mod slacks;
mod solutions;
mod steps;

pub use bar_tables::chart_bars;
pub use bars::{Bar, ChartRow, StepNumber};
pub use bounds::{bound_line, kind_line, with_line};
pub use chart::{Chart, Owner};
pub use chart_texts::{chart_text, chart_text_with_ids};
pub use chart_values::{chart_json, chart_json_with_ids};
pub use charts::chart_view;
pub use comparisons::comparison_view;
pub use dates::date_view;
pub use days::days_view;
pub use id_comparisons::{IdSchedule, id_comparison_view};
pub use line_lists::{name_view, verdict_view};
pub use links::{
    ActivityLinks, needs_text, predecessors_text, project_links, texts_column, with_links,
};
pub use moments::{MomentStyle, MomentTexts, moments_view, plan_moments};
pub use plans::PlanRef;
pub use schedules::schedule_view;
pub use slacks::slack_view;
pub use solutions::best_view;
