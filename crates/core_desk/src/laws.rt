ghost use Rattle.std.specs.Prelude.{ℕ, List, Result};
ghost use Rattle.redis_model.specs.declared.reply.Reply.{Reply};
ghost use Rattle.redis_model.specs.declared.history.Place.{Place};
ghost use Rattle.redis_model.specs.declared.desk.DeskFault.{DeskFault};
ghost use Rattle.redis_model.specs.Asks.{Ask};
ghost use Rattle.redis_model.specs.Desk.{Follows, LeavesPlaces, has_pin};
ghost use Rattle.redis_model.specs.Places.{Opening, state_at};
ghost use Rattle.core_model.specs.Core.{CoreState};
ghost use Rattle.core_model.specs.Filtered.{StandsFiltered};
ghost use Rattle.core_model.specs.Runs.{Event, IsCoreRun, seen_after};
ghost use Rattle.core_desk.specs.DeskCalls.{AreOfCall};

/// Where a core stands for a history, the events of a call, among those of others, leave it standing for one that goes on as a
/// desk's caller is owed: what was asked stands in it once, with the machine's reply there; a call that failed has left no
/// entry that changes a key; and each of the caller's jobs has ended.
pub fn calls_leave_their_places()
    ensures stands { (opening : Opening) (core new : CoreState) (seen : List Place) (es : List Event) →
        StandsFiltered opening core seen → IsCoreRun seen core es new → StandsFiltered opening new (seen_after seen es) }
    ensures history { (opening : Opening) (core new : CoreState) (seen : List Place) (caller now : ℕ) (ask : Ask) (result : Result Reply DeskFault) (es : List Event) →
        StandsFiltered opening core seen → AreOfCall caller now (has_pin (state_at opening.state seen) caller) ask result es → IsCoreRun seen core es new →
        Follows caller seen (seen_after seen es) × LeavesPlaces caller opening.state seen now ask result (seen_after seen es) }
{}
