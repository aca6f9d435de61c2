//! The calls that change the tables.

ghost use Rattle.std.specs.Prelude.{◌≡◌, [], OnOk, OnErr};
ghost use Rattle.plan_rows.specs.World.{empty_world};
ghost use Rattle.plan_rows.specs.Changes.{apply, Publish, OpenDesk, SetKey, AddPlan};
ghost use Rattle.plan_rows.specs.Changes.{RemovePlan, BindPlace, SetCalendar, SetLag};
ghost use Rattle.plan_rows.specs.Rules.{IsWorld};
ghost use Rattle.plan_rows.specs.Tables.{world_kept};

use crate::kinds::{Kind, PlanKind};
use crate::rows::LagEntry;
use crate::tables::Tables;
use crate::tables::binds::{put_bind, take_binds};
use crate::tables::codes::put_code;
use crate::tables::desks::{add_desk, give_digest, next_number, raise_next};
use crate::tables::lags::{give_lag, take_lags};
use crate::tables::plans::{add_plan, give_calendar, take_plan};
use std::alloc::{AllocError, Global};

impl Tables {
    /// Creates tables without rows, for an office with this digest of its key.
    pub fn new(alloc: Global, office: [u8; 32]) -> Tables
        ensures { world_kept result ≡ empty_world office }
    {
        Tables {
            office,
            published: Vec::new(alloc),
            desks: Vec::new(alloc),
            plans: Vec::new(alloc),
            binds: Vec::new(alloc),
            lags: Vec::new(alloc),
        }
    }

    /// Publishes a code, or sets the capacity of a published one.
    pub fn publish(
        &mut self,
        alloc: Global,
        code: &str,
        kind: Kind,
        capacity: u64,
    ) -> Result<(), AllocError>
        requires { IsWorld (world_kept self.old) }
        ensures ok { OnOk result (world_kept self.new
            ≡ apply [] (Publish code.now kind capacity) (world_kept self.old)) }
        ensures err { OnErr result (world_kept self.new ≡ world_kept self.old) }
    {
        put_code(alloc, &mut self.published, code, kind, capacity)
    }

    /// Opens a desk, whose plans are numbered from 1.
    pub fn open_desk(
        &mut self,
        alloc: Global,
        desk: &str,
        digest: &[u8; 32],
    ) -> Result<(), AllocError>
        ensures ok { OnOk result (world_kept self.new
            ≡ apply desk.now (OpenDesk digest.now) (world_kept self.old)) }
        ensures err { OnErr result (world_kept self.new ≡ world_kept self.old) }
    {
        add_desk(alloc, &mut self.desks, desk, digest)
    }

    /// Sets the key of a desk.
    pub fn set_key(&mut self, desk: &str, digest: &[u8; 32])
        requires { IsWorld (world_kept self.old) }
        ensures { world_kept self.new ≡ apply desk.now (SetKey digest.now) (world_kept self.old) }
    {
        give_digest(&mut self.desks, desk, digest);
    }

    /// Adds a plan with the desk's next number, which rises by 1.
    pub fn add_plan(
        &mut self,
        alloc: Global,
        desk: &str,
        kind: PlanKind,
        name: &str,
        body: &[u8],
    ) -> Result<(), AllocError>
        requires { IsWorld (world_kept self.old) }
        ensures ok { OnOk result (world_kept self.new
            ≡ apply desk.now (AddPlan kind name.now body.now) (world_kept self.old)) }
        ensures err { OnErr result (world_kept self.new ≡ world_kept self.old) }
    {
        let n = next_number(&self.desks, desk);
        add_plan(alloc, &mut self.plans, desk, n, kind, name, body)?;
        raise_next(&mut self.desks, desk);
        Ok(())
    }

    /// Removes a plan with its binds and lags.
    pub fn remove_plan(&mut self, desk: &str, n: u64)
        ensures { world_kept self.new ≡ apply desk.now (RemovePlan n) (world_kept self.old) }
    {
        take_plan(&mut self.plans, desk, n);
        take_binds(&mut self.binds, desk, n);
        take_lags(&mut self.lags, desk, n);
    }

    /// Binds a code to a place of a plan. It replaces a code that is bound there.
    pub fn bind(
        &mut self,
        alloc: Global,
        desk: &str,
        n: u64,
        place: u64,
        code: &str,
    ) -> Result<(), AllocError>
        requires { IsWorld (world_kept self.old) }
        ensures ok { OnOk result (world_kept self.new
            ≡ apply desk.now (BindPlace n place code.now) (world_kept self.old)) }
        ensures err { OnErr result (world_kept self.new ≡ world_kept self.old) }
    {
        put_bind(alloc, &mut self.binds, desk, n, place, code)
    }

    /// Sets the calendar of a plan.
    pub fn set_calendar(
        &mut self,
        alloc: Global,
        desk: &str,
        n: u64,
        start: &str,
        days: &str,
    ) -> Result<(), AllocError>
        requires { IsWorld (world_kept self.old) }
        ensures ok { OnOk result (world_kept self.new
            ≡ apply desk.now (SetCalendar n start.now days.now) (world_kept self.old)) }
        ensures err { OnErr result (world_kept self.new ≡ world_kept self.old) }
    {
        give_calendar(alloc, &mut self.plans, desk, n, start, days)
    }

    /// Sets the lag of an arc of a project. 0 removes it.
    pub fn set_lag(
        &mut self,
        alloc: Global,
        desk: &str,
        n: u64,
        from: u32,
        to: u32,
        lag: u64,
    ) -> Result<(), AllocError>
        requires { IsWorld (world_kept self.old) }
        ensures ok { OnOk result (world_kept self.new
            ≡ apply desk.now (SetLag n from to lag) (world_kept self.old)) }
        ensures err { OnErr result (world_kept self.new ≡ world_kept self.old) }
    {
        give_lag(alloc, &mut self.lags, desk, n, LagEntry { from, to, lag })
    }
}
