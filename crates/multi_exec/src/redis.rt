use crate::dispatch::plan;
use crate::transaction::plan_all;
use kv_base::StoreFault;
use lives_model::{Plan, Planner, RawView};
use redis_model::Cmds;
use std::alloc::Global;

/// Plans every command, and the commands of a transaction one after the other.
#[derive(Clone, Copy, Drop)]
pub struct Redis;

impl Planner for Redis {
    ghost use Rattle.lives_model.specs.Plans.{AreAsked};

    ghost plans = { AreAsked };

    fn plan<V: RawView>(
        &self,
        alloc: Global,
        view: &mut V,
        moment: u64,
        base: u64,
        commands: &Cmds,
    ) -> Result<Plan, StoreFault> {
        match commands {
            Cmds::One(command) => plan(alloc, view, moment, base, command),
            Cmds::Many(commands) => plan_all(alloc, view, moment, base, commands),
        }
    }
}
