//! What is planned of a transaction whose first commands are planned.

ghost use Rattle.std.specs.Prelude.{◌≡◌, [], ◌∷◌, ◌++◌, None, IfOk};
ghost use Rattle.kv_base.specs.Map.{empty};
ghost use Rattle.batch_codec.specs.Batches.{joined};
ghost use Rattle.redis_model.specs.declared.reply.Reply.TheVariants as reply;
ghost use Rattle.lives_model.specs.Plans.{least};

use crate::joining::join;
use batch_codec::Batch;
use kv_base::NoMem;
use lives_model::Plan;
use redis_model::{Replies, Reply};
use std::alloc::Global;

/// The plans of the first commands of a transaction, together.
#[derive(Drop)]
pub struct GrowingPlan {
    /// Their batches, joined.
    pub batch: Batch,
    /// Their replies, in order.
    pub replies: Replies,
    /// The first of the deadlines that they look ahead to.
    pub until: Option<u64>,
}

impl GrowingPlan {
    /// The plan of no commands. It takes no memory.
    pub fn new(alloc: Global) -> GrowingPlan
        ensures batch { result.batch ≡ empty }
        ensures replies { result.replies ≡ [] }
        ensures until { result.until ≡ None }
    {
        GrowingPlan {
            batch: Batch::new(alloc),
            replies: Replies::new(alloc),
            until: None,
        }
    }

    /// One command more.
    pub fn with(self, alloc: Global, plan: Plan) -> Result<GrowingPlan, NoMem>
        ensures batch { IfOk result (λ growing. growing.batch ≡ joined self.batch plan.batch) }
        ensures replies { IfOk result (λ growing. growing.replies ≡ self.replies ++ plan.reply ∷ []) }
        ensures until { IfOk result (λ growing. growing.until ≡ least self.until plan.until) }
    {
        let GrowingPlan {
            batch,
            mut replies,
            until,
        } = self;
        let Plan {
            reply,
            batch: later,
            until: ahead,
        } = plan;
        replies.push(reply)?;
        let batch = join(alloc, batch, later)?;
        Ok(GrowingPlan {
            batch,
            replies,
            until: least(until, ahead),
        })
    }

    /// The plan of all of them, which answers their replies as an array.
    pub fn whole(self) -> Plan
        ensures batch { result.batch ≡ self.batch }
        ensures reply { result.reply ≡ reply.Array self.replies }
        ensures until { result.until ≡ self.until }
    {
        let GrowingPlan {
            batch,
            replies,
            until,
        } = self;
        Plan {
            reply: Reply::Array(replies),
            batch,
            until,
        }
    }
}

/// The sooner of two deadlines.
fn least(deadline: Option<u64>, other: Option<u64>) -> Option<u64>
    ensures { result ≡ least deadline other }
{
    match (deadline, other) {
        (None, later) => later,
        (deadline, None) => deadline,
        (Some(deadline), Some(other)) => Some(deadline.min(other)),
    }
}
