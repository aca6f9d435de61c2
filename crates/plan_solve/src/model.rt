//! The numbers of a problem, by what propagation looks up.

use crate::arrays::{at, empty_rows, mark, push_to, row};
use plan_kernel::{Absence, Input, Order};
use std::alloc::{AllocError, Global};

/// Activity `to`, or the cost if `to` is the number of activities, is no earlier than `weight` after
/// the start of activity `from`.
#[derive(Clone, Copy, Drop)]
pub struct Link {
    pub from: u32,
    pub to: u32,
    pub weight: u32,
}

/// The numbers of a problem. Activities, resources, arcs and orders are numbered from 0.
#[derive(Drop)]
pub struct Model {
    /// How many activities there are.
    pub count: u32,
    /// How many resources there are.
    pub kinds: u32,
    pub durations: Vec<u32>,
    needs: Vec<u32>,
    capacities: Vec<u32>,
    // the arcs, and behind them a link to the cost from each activity without an arc or with a tail
    links: Vec<Link>,
    arcs: u32,
    orders: Vec<Order>,
    /// Missing amounts of resources.
    pub absences: Vec<Absence>,
    tails: Vec<u32>,
    /// For each activity the links that begin with it.
    pub links_from: Vec<Vec<u32>>,
    /// For each activity, and then the cost, the links that end with it.
    pub links_to: Vec<Vec<u32>>,
    /// For each activity its orders.
    pub orders_of: Vec<Vec<u32>>,
    /// For each resource the activities that last and need it.
    pub users: Vec<Vec<u32>>,
    /// The resources of which each user needs all, and of which nothing is ever missing.
    pub is_unary: Vec<bool>,
    /// For each activity the unary resources that it needs.
    pub unary_of: Vec<Vec<u32>>,
    /// The activities whose use of a resource is counted by instants: those that need one that isn't
    /// unary.
    pub is_counted: Vec<bool>,
}

// The least of two numbers that fit 32 bits.
fn narrow(number: usize) -> u32 {
    (number & 0xffff_ffff) as u32
}

// The needs of all activities, one after another.
fn flat_needs(alloc: Global, input: &Input) -> Result<Vec<u32>, AllocError> {
    let mut needs = Vec::new(alloc);
    for list in &input.needs {
        needs.extend_from_slice(list.as_slice())?;
    }
    Ok(needs)
}

// How much there is of each resource. No more than 2^32 - 1 is ever in use.
fn capacities_of(alloc: Global, input: &Input) -> Result<Vec<u32>, AllocError> {
    let mut capacities = Vec::with_capacity(alloc, input.capacities.len())?;
    for &capacity in &input.capacities {
        capacities.push(capacity.min(0xffff_ffff) as u32)?;
    }
    Ok(capacities)
}

// The arcs, with the durations of the activities that they begin with.
fn links_of(alloc: Global, input: &Input) -> Result<Vec<Link>, AllocError> {
    let mut links = Vec::with_capacity(alloc, input.arcs.len())?;
    for arc in &input.arcs {
        links.push(Link {
            from: arc.from,
            to: arc.to,
            weight: at(&input.durations, arc.from).saturating_add(arc.lag),
        })?;
    }
    Ok(links)
}

impl Model {
    /// The numbers of a problem.
    pub fn new(alloc: Global, input: &Input) -> Result<Model, AllocError> {
        let (count, kinds) = (input.durations.len(), input.capacities.len());
        let mut model = Model {
            count: narrow(count),
            kinds: narrow(kinds),
            durations: Vec::from_slice(alloc, input.durations.as_slice())?,
            needs: flat_needs(alloc, input)?,
            capacities: capacities_of(alloc, input)?,
            links: links_of(alloc, input)?,
            arcs: narrow(input.arcs.len()),
            orders: Vec::from_slice(alloc, input.orders.as_slice())?,
            absences: Vec::from_slice(alloc, input.absences.as_slice())?,
            tails: Vec::from_slice(alloc, input.tails.as_slice())?,
            links_from: empty_rows(alloc, count)?,
            links_to: empty_rows(alloc, count.saturating_add(1))?,
            orders_of: empty_rows(alloc, count)?,
            users: empty_rows(alloc, kinds)?,
            is_unary: vec![in alloc; true; kinds]?,
            unary_of: empty_rows(alloc, count)?,
            is_counted: vec![in alloc; false; count]?,
        };
        model.list_links()?;
        model.link_ends()?;
        model.list_orders()?;
        model.mark_absences();
        for resource in 0..model.kinds {
            model.list_users(resource)?;
            model.list_unary(resource)?;
        }
        Ok(model)
    }

    fn list_links(&mut self) -> Result<(), AllocError> {
        for (place, link) in self.links.iter().enumerate() {
            push_to(&mut self.links_from, link.from, narrow(place))?;
            push_to(&mut self.links_to, link.to, narrow(place))?;
        }
        Ok(())
    }

    // Links the activities without successors, and those with tails, to the cost.
    fn link_ends(&mut self) -> Result<(), AllocError> {
        for from in 0..self.count {
            let tail = at(&self.tails, from);
            if tail > 0 || row(&self.links_from, from).is_empty() {
                let weight = self.duration(from).saturating_add(tail);
                let (place, to) = (narrow(self.links.len()), self.count);
                self.links.push(Link { from, to, weight })?;
                push_to(&mut self.links_from, from, place)?;
                push_to(&mut self.links_to, to, place)?;
            }
        }
        Ok(())
    }

    fn list_orders(&mut self) -> Result<(), AllocError> {
        for (place, order) in self.orders.iter().enumerate() {
            push_to(&mut self.orders_of, order.first, narrow(place))?;
            push_to(&mut self.orders_of, order.second, narrow(place))?;
        }
        Ok(())
    }

    // Marks the resources of which something is missing at times.
    fn mark_absences(&mut self) {
        for absence in self.absences.iter() {
            mark(&mut self.is_unary, absence.resource, false);
        }
    }

    fn list_users(&mut self, resource: u32) -> Result<(), AllocError> {
        let capacity = at(&self.capacities, resource);
        for activity in 0..self.count {
            let need = self.need(activity, resource);
            if need > 0 && self.duration(activity) > 0 {
                push_to(&mut self.users, resource, activity)?;
                if need != capacity {
                    mark(&mut self.is_unary, resource, false);
                }
            }
        }
        Ok(())
    }

    fn list_unary(&mut self, resource: u32) -> Result<(), AllocError> {
        if (resource as usize) < self.is_unary.len() && self.is_unary[resource as usize] {
            for &activity in row(&self.users, resource) {
                push_to(&mut self.unary_of, activity, resource)?;
            }
        } else {
            for &activity in row(&self.users, resource) {
                mark(&mut self.is_counted, activity, true);
            }
        }
        Ok(())
    }

    /// How long an activity lasts.
    pub fn duration(&self, activity: u32) -> u32 {
        at(&self.durations, activity)
    }

    /// Returns the need of an activity for a resource.
    pub fn need(&self, activity: u32, resource: u32) -> u32 {
        at(
            &self.needs,
            activity.wrapping_mul(self.kinds).wrapping_add(resource),
        )
    }

    /// How much there is of a resource.
    pub fn capacity(&self, resource: u32) -> u32 {
        at(&self.capacities, resource)
    }

    /// Returns the absent amount of a resource at an instant.
    pub fn absent(&self, resource: u32, instant: u32) -> u64 {
        self.absent_in(resource, instant, instant.saturating_add(1))
    }

    /// Returns the absent energy of a resource between two instants.
    pub fn absent_in(&self, resource: u32, from: u32, until: u32) -> u64 {
        let mut sum: u64 = 0;
        for absence in &self.absences {
            if absence.resource == resource {
                let first = absence.from.max(from);
                let time = absence.until.min(until).saturating_sub(first) as u64;
                sum = sum.saturating_add(time.saturating_mul(absence.amount as u64));
            }
        }
        sum
    }

    /// How much of a resource an activity leaves to others.
    pub fn room(&self, activity: u32, resource: u32) -> u32 {
        self.capacity(resource)
            .saturating_sub(self.need(activity, resource))
    }

    /// The link at a place; one from an activity to itself if there is none.
    pub fn link(&self, place: u32) -> Link {
        if (place as usize) < self.links.len() {
            self.links[place as usize]
        } else {
            Link {
                from: 0,
                to: 0,
                weight: 0,
            }
        }
    }

    /// The order at a place; one of an activity and itself if there is none.
    pub fn order(&self, place: u32) -> Order {
        if (place as usize) < self.orders.len() {
            self.orders[place as usize]
        } else {
            Order {
                first: 0,
                second: 0,
            }
        }
    }

    /// How many orders there are.
    pub fn orders(&self) -> u32 {
        narrow(self.orders.len())
    }

    /// Whether a link is an arc. If not, it leads to the cost.
    pub fn is_arc(&self, place: u32) -> bool {
        place < self.arcs
    }

    /// The quantity of the cost.
    pub fn end(&self) -> u32 {
        self.count
    }

    /// The quantity of an order.
    pub fn quantity(&self, order: u32) -> u32 {
        self.count.wrapping_add(1).wrapping_add(order)
    }

    /// The order of a quantity behind the cost.
    pub fn order_of(&self, quantity: u32) -> u32 {
        quantity.wrapping_sub(self.count).wrapping_sub(1)
    }
}
