//! Resource profiles.
#![tactic(auto, unfolding(crate::specs::InUse::in_use, crate::specs::InUse::capacities))]

ghost use Rattle.std.specs.Prelude.{◌≡◌, ℕ, ◌^◌, ◌<◌, length, slice_index};
ghost use Rattle.plan_profile.specs.Steps.{lists, amount, AreRows, IsSteps, AreChanges, IsEndedBy};
ghost use Rattle.plan_profile.specs.declared.profile.TheConstants.{END};

use crate::row::{has_room, row_is_within, zeros};
use crate::rows::{copy_with_room, refill, row};
use crate::steps::{place_between, segment};
use std::alloc::{AllocError, Global};

/// The end of time, in whole time units: every interval that is placed ends by this instant.
pub const END: u64 = 10_000_000;

/// The amount of each resource in use at each instant, with the constant capacities of the
/// resources (the resource profiles of Kolisch and Hartmann 1999). Resources are numbered from 1;
/// instants are whole time units from 0 on. The cost of a call depends on the number of changes of
/// usage, not on the length of an interval. Only `new`, `place`, `copy` and `copy_into` allocate;
/// their only error is out of memory.
#[derive(Debug, Drop)]
pub struct Profile {
    caps: Vec<u64>,
    changes: Vec<u64>,
    rows: Vec<u64>,
    ghost wide: { AreRows (length caps.items) changes.items rows.items },
    ghost steps: { IsSteps changes.items (lists (length caps.items) changes.items rows.items) },
    ghost true_changes: { AreChanges changes.items
        (amount changes.items (lists (length caps.items) changes.items rows.items)) },
    ghost ended: { IsEndedBy END changes.items
        (lists (length caps.items) changes.items rows.items) },
    ghost small: { (k : ℕ) → slice_index caps.items k < 2 ^ 64 },
}

impl Profile {
    ghost use Rattle.std.specs.Prelude.{◌≡◌, ℕ, ◌+◌, ◌-◌, ◌≤◌, ◌<◌, ◌↔◌, length, vec_len, All};
    ghost use Rattle.std.specs.Prelude.{Contains, IsTrue, IfOk, OnOk, OnErr};
    ghost use Rattle.plan_profile.specs.Usage.{Fits, FitsEmpty, IsInTime, IsEarliest, IsChange};
    ghost use Rattle.plan_profile.specs.Usage.{IsRising, used_with};
    ghost use Rattle.plan_profile.specs.Steps.{changes_until, lists, HasRoomAt};
    ghost use Rattle.plan_profile.specs.InUse.{capacities, in_use};

    /// A profile in which nothing is in use, with a capacity for each resource.
    pub fn new(alloc: Global, caps: Vec<u64>) -> Result<Profile, AllocError>
        ensures caps { IfOk result (λ p. capacities p ≡ caps.items) }
        ensures none { IfOk result (λ p. (t k : ℕ) → in_use p t k ≡ 0) }
    {
        let rows = zeros(alloc, &caps)?;
        Ok(Profile {
            caps,
            changes: Vec::new(alloc),
            rows,
        })
    }

    // Returns the index of the row that is in force at an instant.
    fn row_in_force(&self, t: u64) -> usize
        ensures { result ≡ changes_until self.now.changes.items t }
    {
        segment(&self.changes, t)
    }

    // Tests whether needs, added to the amounts of a row, keep the capacities.
    fn row_has_room(&self, i: usize, needs: &[u64]) -> bool
        requires row { i ≤ vec_len self.now.changes }
        requires needs { length needs.now ≡ length (capacities self.now) }
        ensures { IsTrue result ↔ HasRoomAt (capacities self.now)
            (lists (length self.now.caps.items) self.now.changes.items self.now.rows.items)
            needs.now i }
    {
        has_room(&self.caps, row(&self.rows, self.caps.len(), i), needs)
    }

    /// The amount of resource `k`, numbered from 1, that is in use at instant `t`.
    pub fn usage(&self, t: u64, k: u32) -> u64
        requires first { 1 ≤ k }
        requires last { k ≤ length (capacities self.now) }
        ensures value { result ≡ in_use self.now t (k - 1) }
        ensures ended { 10000000 ≤ t → result ≡ 0 }
    {
        let i = self.row_in_force(t);
        row(&self.rows, self.caps.len(), i)[k as usize - 1]
    }

    /// Returns in rising order the instants at which the usage of some resource differs from that
    /// at the instant before. Before instant 0 nothing is in use.
    pub fn changes(&self) -> &[u64]
        ensures rising { IsRising result.now }
        ensures exact { (t : ℕ) → Contains result.now t
            ↔ IsChange (length (capacities self.now)) (in_use self.now) t }
        ensures in_time { All IsInTime result.now }
    {
        &self.changes
    }

    /// Tests whether each need is at most its capacity. `needs` contains an amount for each
    /// resource.
    pub fn fits_empty(&self, needs: &[u64]) -> bool
        requires { length needs.now ≡ length (capacities self.now) }
        ensures { IsTrue result ↔ FitsEmpty (capacities self.now) needs.now }
    {
        row_is_within(&self.caps, needs)
    }

    /// Tests whether the needs of an interval of `d` instants from `start` on, added to the usage,
    /// keep the capacities at each of these instants.
    pub fn fits(&self, start: u64, d: u64, needs: &[u64]) -> bool
        requires { length needs.now ≡ length (capacities self.now) }
        ensures { IsTrue result ↔ Fits (capacities self.now) (in_use self.now) start d needs.now }
    {
        if d == 0 {
            return true;
        }
        let first = self.row_in_force(start);
        for i in first..self.changes.len() + 1 {
            if first < i && self.changes[i - 1] - start >= d {
                return true;
            }
            if !self.row_has_room(i, needs) {
                return false;
            }
        }
        true
    }

    /// The least instant from `from` on at which an interval of `d` instants fits.
    pub fn earliest(&self, from: u64, d: u64, needs: &[u64]) -> u64
        requires from { IsInTime from }
        requires needs { length needs.now ≡ length (capacities self.now) }
        requires empty { 0 < d → FitsEmpty (capacities self.now) needs.now }
        ensures least { IsEarliest (capacities self.now) (in_use self.now) from d needs.now result }
        ensures in_time { IsInTime result }
    {
        if d == 0 {
            return from;
        }
        let first = self.row_in_force(from);
        let mut at = from;
        for i in first..self.changes.len() + 1 {
            if first < i && self.changes[i - 1] - at >= d {
                return at;
            }
            if !self.row_has_room(i, needs) {
                at = self.changes[i];
            }
        }
        at
    }

    /// Adds the needs of an interval of `d` instants from `start` on.
    pub fn place(&mut self, start: u64, d: u64, needs: &[u64]) -> Result<(), AllocError>
        requires end { IsInTime (start + d) }
        requires needs { length needs.now ≡ length (capacities self.old) }
        requires fits { Fits (capacities self.old) (in_use self.old) start d needs.now }
        ensures caps { capacities self.new ≡ capacities self.old }
        ensures ok { OnOk result ((t k : ℕ) → in_use self.new t k
            ≡ used_with (in_use self.old) start d needs.now t k) }
        ensures err { OnErr result (in_use self.new ≡ in_use self.old) }
    {
        if d == 0 {
            return Ok(());
        }
        place_between(&mut self.changes, &mut self.rows, start, start + d, needs)
    }

    /// A profile of the same capacities with the same amounts in use.
    pub fn copy(&self) -> Result<Profile, AllocError>
        ensures caps { IfOk result (λ p. capacities p ≡ capacities self.now) }
        ensures same { IfOk result (λ p. in_use p ≡ in_use self.now) }
    {
        let alloc = *self.caps.allocator();
        let caps = Vec::from_slice(alloc, &self.caps)?;
        let changes = copy_with_room(alloc, &self.changes, 2)?;
        let rows = copy_with_room(alloc, &self.rows, 2 * self.caps.len())?;
        Ok(Profile {
            caps,
            changes,
            rows,
        })
    }

    /// Returns a copy as [`Profile::copy`] does, in the memory of a profile that is no longer
    /// needed. Allocates only if that memory doesn't suffice.
    pub fn copy_into(&self, spare: Profile) -> Result<Profile, AllocError>
        ensures caps { IfOk result (λ p. capacities p ≡ capacities self.now) }
        ensures same { IfOk result (λ p. in_use p ≡ in_use self.now) }
    {
        let Profile {
            mut caps,
            mut changes,
            mut rows,
        } = spare;
        refill(&mut caps, &self.caps)?;
        refill(&mut changes, &self.changes)?;
        refill(&mut rows, &self.rows)?;
        Ok(Profile {
            caps,
            changes,
            rows,
        })
    }
}
