//! Plans with the capacities of their bound places.

use plan_rows::PlanRow;

// A bound place, and the capacity of its code if the code is published.
#[derive(Clone, Copy, Drop)]
pub(crate) struct BoundPlace {
    pub place: u64,
    pub capacity: Option<u64>,
}

// A plan with its bound places in ascending order.
#[derive(Drop)]
pub(crate) struct BoundPlan {
    pub plan: PlanRow,
    pub places: Vec<BoundPlace>,
}
