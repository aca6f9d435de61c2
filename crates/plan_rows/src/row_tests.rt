//! Tests of the rules of rows, for untrusted tables.

mod files;
mod keyed;
mod other_rows;
mod places;
mod review;
mod rows;
mod tested;
mod whole;

pub use other_rows::Beside;
pub use review::Review;
pub use rows::{is_desk_row, is_plan_row, is_published_row};
pub use whole::is_world;
