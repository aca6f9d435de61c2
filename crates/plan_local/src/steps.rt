//! The steps of a job shop as lists of 32-bit numbers.

use crate::lists::{NONE, at};
use plan_shop::Shop;
use std::alloc::{AllocError, Global};

/// The steps of a job shop, by their flat numbers.
#[derive(Drop)]
pub struct Steps {
    /// The number of steps.
    pub count: u32,
    /// The number of jobs.
    pub jobs: u32,
    /// The number of machines.
    pub machines: u32,
    /// The job of each step, from 0.
    pub job: Vec<u32>,
    /// The machine of each step, from 0.
    pub machine: Vec<u32>,
    /// The processing time of each step.
    pub time: Vec<u32>,
    /// The steps before and behind each step in its job, [`NONE`] at the ends.
    pub before: Vec<u32>,
    pub behind: Vec<u32>,
}

impl Steps {
    // Returns no steps.
    fn empty(alloc: Global, shop: &Shop) -> Steps {
        Steps {
            count: 0,
            jobs: shop.jobs(),
            machines: shop.machines(),
            job: Vec::new(alloc),
            machine: Vec::new(alloc),
            time: Vec::new(alloc),
            before: Vec::new(alloc),
            behind: Vec::new(alloc),
        }
    }

    // Adds a step.
    fn add(&mut self, number: u32, machine: u32, time: u32) -> Result<(), AllocError> {
        let machines = self.machines.max(1);
        let place = number % machines;
        self.job.push(number / machines)?;
        self.machine.push(machine)?;
        self.time.push(time)?;
        self.before.push(if place == 0 {
            NONE
        } else {
            number.wrapping_sub(1)
        })?;
        self.behind.push(if place == machines - 1 {
            NONE
        } else {
            number.wrapping_add(1)
        })?;
        self.count = self.count.saturating_add(1);
        Ok(())
    }

    /// Returns the steps of a shop.
    pub fn of_shop(alloc: Global, shop: &Shop) -> Result<Steps, AllocError> {
        let mut steps = Steps::empty(alloc, shop);
        for number in 0..shop.jobs() * shop.machines() {
            let step = shop.step(number);
            steps.add(number, step.machine, (step.time & 0xffff) as u32)?;
        }
        Ok(steps)
    }

    /// Returns the processing time of a step, 0 if there is no such step.
    pub fn time(&self, step: u32) -> u32 {
        at(&self.time, step)
    }
}
