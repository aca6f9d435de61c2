//! Questions to a memo: all data on which a best schedule depends.

ghost use Rattle.std.specs.Prelude.{◌≡◌, map, IfOk};
ghost use Rattle.plan_shop.specs.Shop.{IsShop};
ghost use Rattle.plan_sgs.specs.Instances.{IsInstance};
ghost use Rattle.plan_exact.specs.Memos.{asked_of_shop, asked_of_project, asked_by};

use plan_net::Network;
use plan_orlib::Step;
use plan_sgs::Instance;
use plan_shop::Shop;
use std::alloc::{AllocError, Global};

/// A whole shop and a budget.
#[derive(PartialEq, Eq, Hash, Drop)]
pub struct ShopQuestion {
    machines: u32,
    jobs: u32,
    steps: Vec<Step>,
    budget: u64,
}

/// The network of a project with its lags and needs, the capacities and a budget.
#[derive(PartialEq, Eq, Hash, Drop)]
pub struct ProjectQuestion {
    durations: Vec<u64>,
    arcs: Vec<(u32, u32)>,
    lags: Vec<u64>,
    needs: Vec<Vec<u64>>,
    capacities: Vec<u64>,
    budget: u64,
}

/// The question for the best schedule of a shop or of a project within a budget.
#[derive(PartialEq, Eq, Hash, Drop)]
pub enum Question {
    Shop(ShopQuestion),
    Project(ProjectQuestion),
}

// Returns the durations of the activities of a network.
fn durations_of(alloc: Global, network: &Network) -> Result<Vec<u64>, AllocError>
    ensures { IfOk result (λ durations. durations.items ≡ network.now.durations) }
{
    let mut durations = Vec::with_capacity(alloc, network.len())?;
    for k in 0..network.len() {
        durations.push(network.duration(k as u32 + 1))?;
    }
    Ok(durations)
}

// Returns the lags of a network in the order of its arcs.
fn lags_of(alloc: Global, network: &Network) -> Result<Vec<u64>, AllocError>
    ensures { IfOk result (λ lags. lags.items ≡ network.now.lags) }
{
    let arcs = network.arcs();
    let mut lags = Vec::with_capacity(alloc, arcs.len())?;
    for (i, j) in arcs {
        lags.push(network.lag_between(*i, *j))?;
    }
    Ok(lags)
}

// Returns the needs of the activities of an instance, one row for each.
fn needs_of(alloc: Global, instance: &Instance) -> Result<Vec<Vec<u64>>, AllocError>
    ensures { IfOk result (λ needs.
        map (λ row. row.items) needs.items ≡ instance.now.project.needs) }
{
    let count = instance.network().len();
    let mut needs = Vec::with_capacity(alloc, count)?;
    for k in 0..count {
        let row = Vec::from_slice(alloc, instance.needs(k as u32 + 1))?;
        needs.push(row)?;
    }
    Ok(needs)
}

impl Question {
    /// Returns the question for a shop.
    pub fn of_shop(alloc: Global, shop: &Shop, budget: u64) -> Result<Question, AllocError>
        ensures asked { IfOk result (λ question.
            asked_by question ≡ asked_of_shop shop.now budget) }
        ensures shop { IsShop shop.now }
    {
        let count = shop.jobs() * shop.machines();
        let mut steps = Vec::with_capacity(alloc, count as usize)?;
        for i in 0..count {
            steps.push(shop.step(i))?;
        }
        Ok(Question::Shop(ShopQuestion {
            machines: shop.machines(),
            jobs: shop.jobs(),
            steps,
            budget,
        }))
    }

    /// Returns the question for a project and its capacities.
    pub fn of_project(
        alloc: Global,
        instance: &Instance,
        budget: u64,
    ) -> Result<Question, AllocError>
        ensures asked { IfOk result (λ question.
            asked_by question ≡ asked_of_project instance.now budget) }
        ensures instance { IsInstance instance.now }
    {
        let network = instance.network();
        Ok(Question::Project(ProjectQuestion {
            durations: durations_of(alloc, network)?,
            arcs: Vec::from_slice(alloc, network.arcs())?,
            lags: lags_of(alloc, network)?,
            needs: needs_of(alloc, instance)?,
            capacities: Vec::from_slice(alloc, instance.caps())?,
            budget,
        }))
    }
}
