//! The clause kernel of `plan solve`: facts and clauses about the starts of a scheduling problem,
//! each of which is proved to hold in every plan that costs less than the best one so far.
#![tactic(auto)]

mod conflict;
mod facts;
mod fault;
mod feasible;
mod input;
mod kernel;
mod known;
mod laws;
mod literal;
mod reason;
mod shop;

pub use fault::KernelFault;
pub use input::{Absence, Arc, Input, Order, StartWindow, with_orders};
pub use kernel::Kernel;
pub use known::{Lesson, MOST_LITERALS, PER_CLAUSE};
pub use laws::plain_problems_stay_the_same;
pub use literal::{LIMIT, Literal};
pub use reason::{Member, Reason};
