//! A planner's list: activities with their predecessors, and resources.

use std::alloc::Global;
use std::marker::Model;

/// An activity: the line of its row, its id, its name, its duration, the numbers of its predecessors, and what it
/// needs of each resource.
#[derive(Drop)]
pub struct Activity {
    pub line: u64,
    pub id: String,
    pub name: String,
    pub duration: u32,
    pub predecessors: Vec<u32>,
    pub needs: Vec<u32>,
}

/// A resource: its name, and how much there is of it.
#[derive(Drop)]
pub struct Resource {
    pub name: String,
    pub capacity: u32,
}

/// A table of at most 500 activities without a cycle. The activities are numbered from 2. Their ids
/// are the table's own if it has a column of ids; otherwise they are the numbers of rows.
#[derive(Drop)]
pub struct Table {
    pub own_ids: bool,
    pub activities: Vec<Activity>,
    pub resources: Vec<Resource>,
}

impl Model for Table {
    ghost use Rattle.plan_table.specs.Table as spec;
    ghost use Rattle.plan_table.specs.Limits.{IsTable};

    ghost Value = { spec.Table };

    ghost view = { λ t. spec.table_of t.own_ids t.activities.items t.resources.items };

    ghost invariant = { λ t. IsTable (spec.table_of t.own_ids t.activities.items t.resources.items) };
}
