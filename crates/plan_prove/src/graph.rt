//! Disjunctive graph of a shop.

ghost use Rattle.std.specs.Prelude.{◌≡◌, ◌<◌, ◌≤◌, ◌↔◌, All, IfOk, OnOk, IsTrue};
ghost use Rattle.plan_shop.specs.Shop as flat;
ghost use Rattle.plan_shop.specs.Shop.{IsShop};
ghost use Rattle.plan_shop.specs.Docs.{IsSmallShop};
ghost use Rattle.plan_prove.specs.Graphs as spec;

use plan_shop::Shop;
use std::alloc::{AllocError, Global};

/// Two steps by their flat numbers.
#[derive(Clone, Copy, Drop)]
pub struct Pair {
    pub first: u32,
    pub second: u32,
}

/// A disjunctive graph (Roy and Sussmann 1964). It contains the times of the steps in flat order
/// and the arcs from step to step that every schedule keeps. Either step of a pair may go first. A
/// clique contains the steps of positive time of a machine, no two of which may overlap. Only the
/// search uses the machine of each step and the rules of each step. Rules are numbered: first the
/// arcs, then the pairs.
#[derive(Drop)]
pub struct Graph {
    pub times: Vec<u32>,
    pub arcs: Vec<Pair>,
    pub pairs: Vec<Pair>,
    pub cliques: Vec<Vec<u32>>,
    pub machines: Vec<u32>,
    pub rules: Vec<Vec<u32>>,
}

// Returns the number of steps.
fn count(shop: &Shop) -> u32
    ensures value { result ≡ flat.count_steps shop.now }
    ensures few { result ≤ 1000 }
    ensures shop { IsSmallShop shop.now }
{
    shop.jobs() * shop.machines()
}

// Returns the times of all steps.
fn times(alloc: Global, shop: &Shop) -> Result<Vec<u32>, AllocError>
    ensures times { IfOk result (λ times. times.items ≡ spec.times_of shop.now) }
    ensures shop { IsShop shop.now }
{
    let mut times = Vec::new(alloc);
    for x in 0..count(shop) {
        times.push(shop.step(x).time as u32)?;
    }
    Ok(times)
}

// Returns the arcs: each step and its successor in the job.
fn arcs(alloc: Global, shop: &Shop) -> Result<Vec<Pair>, AllocError>
    ensures { IfOk result (λ arcs. All (spec.IsArcOf shop.now) arcs.items) }
{
    let mut arcs = Vec::new(alloc);
    let machines = shop.machines();
    for second in 1..count(shop) {
        let first = second - 1;
        if second / machines == first / machines {
            arcs.push(Pair { first, second })?;
        }
    }
    Ok(arcs)
}

// Tests whether two steps are on one machine and both have positive time.
fn compete(shop: &Shop, first: u32, second: u32) -> bool
    requires first { first < flat.count_steps shop.now }
    requires second { second < flat.count_steps shop.now }
    ensures { IsTrue result ↔ spec.Compete shop.now first second }
{
    let (one, other) = (shop.step(first), shop.step(second));
    one.machine == other.machine && one.time > 0 && other.time > 0
}

// Appends the pairs of a step and the steps before it.
fn add_pairs(shop: &Shop, second: u32, pairs: &mut Vec<Pair>) -> Result<(), AllocError>
    requires step { second < flat.count_steps shop.now }
    requires pairs { All (spec.IsPairOf shop.now) pairs.old.items }
    ensures { OnOk result (All (spec.IsPairOf shop.now) pairs.new.items) }
{
    for first in 0..second {
        if compete(shop, first, second) {
            pairs.push(Pair { first, second })?;
        }
    }
    Ok(())
}

// Returns the pairs of steps that compete for a machine.
fn pairs(alloc: Global, shop: &Shop) -> Result<Vec<Pair>, AllocError>
    ensures { IfOk result (λ pairs. All (spec.IsPairOf shop.now) pairs.items) }
{
    let mut pairs = Vec::new(alloc);
    for second in 0..count(shop) {
        add_pairs(shop, second, &mut pairs)?;
    }
    Ok(pairs)
}

// Tests whether a step is on a machine and has positive time.
fn lasts_on(shop: &Shop, x: u32, machine: u32) -> bool
    requires { x < flat.count_steps shop.now }
    ensures { result ≡ spec.lasts_on shop.now machine x }
{
    let step = shop.step(x);
    step.machine == machine && step.time > 0
}

// Returns the steps of positive time of a machine.
fn clique(alloc: Global, shop: &Shop, machine: u32) -> Result<Vec<u32>, AllocError>
    ensures { IfOk result (λ clique. clique.items ≡ spec.lasting_on shop.now machine) }
{
    let mut clique = Vec::new(alloc);
    for x in 0..count(shop) {
        if lasts_on(shop, x, machine) {
            clique.push(x)?;
        }
    }
    Ok(clique)
}

// Returns the steps of positive time, machine by machine.
fn cliques(alloc: Global, shop: &Shop) -> Result<Vec<Vec<u32>>, AllocError>
    ensures { IfOk result (λ cliques. All (spec.IsCliqueOf shop.now) cliques.items) }
{
    let mut cliques = Vec::new(alloc);
    for machine in 0..shop.machines() {
        cliques.push(clique(alloc, shop, machine)?)?;
    }
    Ok(cliques)
}

// Returns the machines of all steps.
fn machines(alloc: Global, shop: &Shop) -> Result<Vec<u32>, AllocError> {
    let mut machines = Vec::new(alloc);
    for x in 0..count(shop) {
        machines.push(shop.step(x).machine)?;
    }
    Ok(machines)
}

// Appends a rule to those of a step.
fn add_rule(rules: &mut Vec<Vec<u32>>, step: u32, rule: u32) -> Result<(), AllocError> {
    if let Some(list) = rules.get_mut(step as usize) {
        list.push(rule)?;
    }
    Ok(())
}

// Appends rules to those of their steps, numbered from `from`. Returns the next number.
fn add_rules(rules: &mut Vec<Vec<u32>>, pairs: &[Pair], from: u32) -> Result<u32, AllocError> {
    let mut rule = from;
    for pair in pairs {
        add_rule(rules, pair.first, rule)?;
        add_rule(rules, pair.second, rule)?;
        rule = rule.saturating_add(1);
    }
    Ok(rule)
}

// Returns the rules of each step.
fn rules(
    alloc: Global,
    shop: &Shop,
    arcs: &[Pair],
    pairs: &[Pair],
) -> Result<Vec<Vec<u32>>, AllocError> {
    let mut rules = Vec::new(alloc);
    for _x in 0..count(shop) {
        rules.push(Vec::new(alloc))?;
    }
    let next = add_rules(&mut rules, arcs, 0)?;
    add_rules(&mut rules, pairs, next)?;
    Ok(rules)
}

/// Returns the disjunctive graph of a shop (Roy and Sussmann 1964).
pub fn graph_of(alloc: Global, shop: &Shop) -> Result<Graph, AllocError>
    ensures { IfOk result (spec.IsGraphOf shop.now) }
{
    let arcs = arcs(alloc, shop)?;
    let pairs = pairs(alloc, shop)?;
    let rules = rules(alloc, shop, &arcs, &pairs)?;
    Ok(Graph {
        times: times(alloc, shop)?,
        arcs,
        pairs,
        cliques: cliques(alloc, shop)?,
        machines: machines(alloc, shop)?,
        rules,
    })
}
