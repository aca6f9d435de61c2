//! A list of orders: a job shop.

use std::alloc::Global;
use std::marker::Model;

/// A step of an order: the numbers of its order and its machine, counted from 0, and its time
/// (0–10,000 time units).
#[derive(Clone, Copy, Debug)]
pub struct ShopStep {
    pub order: u32,
    pub machine: u32,
    pub time: u32,
}

/// A list of 1–50 orders on 1–20 machines. Orders and machines are numbered in the order of their
/// first appearance. The steps of an order are in the order of the list; no order has more steps
/// than there are machines.
#[derive(Drop)]
pub struct ShopTable {
    pub orders: Vec<String>,
    pub machines: Vec<String>,
    pub steps: Vec<ShopStep>,
}

impl Model for ShopTable {
    ghost use Rattle.std.specs.Prelude.{map, string_bytes};
    ghost use Rattle.plan_table.specs.ShopTable as spec;

    ghost Value = { spec.ShopTable };

    ghost view = { λ t. record {
      orders = map string_bytes t.orders.items;
      machines = map string_bytes t.machines.items;
      steps = t.steps.items;
    } };

    ghost invariant = { λ t. spec.IsShopTable (record {
      orders = map string_bytes t.orders.items;
      machines = map string_bytes t.machines.items;
      steps = t.steps.items;
    }) };
}
