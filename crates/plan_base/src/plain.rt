//! The plan that answers and writes nothing.

ghost use Rattle.std.specs.Prelude.{◌≡◌};
ghost use Rattle.plan_base.specs.LifePlans.{answering};

use crate::deadline::ahead;
use batch_codec::Batch;
use lives_model::Plan;
use redis_model::Reply;
use std::alloc::Global;

/// The plan that answers and writes nothing, of a command whose only key has this deadline.
pub fn answering(alloc: Global, moment: u64, old: Option<u64>, reply: Reply) -> Plan
    ensures { result ≡ answering moment old reply }
{
    Plan {
        reply,
        batch: Batch::new(alloc),
        until: ahead(moment, old),
    }
}
