//! A rectangle of a chart.

/// A rectangle of a chart, for an activity or an absence: its id and name, the ids of its
/// predecessors, its first instant, its length in time units, and its need of each resource.
#[derive(Drop)]
pub struct Rectangle<'a> {
    pub id: &'a [u8],
    pub name: &'a [u8],
    pub predecessors: &'a [u8],
    pub from: u64,
    pub lasts: u64,
    pub needs: Vec<u64>,
}
