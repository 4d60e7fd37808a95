ghost use Rattle.std.specs.Prelude.{◌≡◌, [], ◌∷◌};
ghost use Rattle.redis_model.specs.declared.reply.Reply.TheVariants as reply;
ghost use Rattle.core_model.specs.Opened.{new_core, new_opening};
ghost use Rattle.core_model.specs.Filtered.{StandsFiltered};
ghost use Rattle.core_model.specs.Runs.{IsCoreRun, AreAnswered, seen_after};
ghost use Rattle.core_example.specs.ExampleRun.{example_run, example_end, kept_plan, newest_plan};

/// The run leads from a new core to its end; the core at its end stands for the history of the run, and each call is answered
/// as the machine answers it. The caller that has kept the first value reads it, the other one reads the second.
pub fn an_example_run_is_answered()
    ensures runs { IsCoreRun [] new_core example_run example_end }
    ensures stands { StandsFiltered new_opening example_end (seen_after [] example_run) }
    ensures answers { AreAnswered new_opening.state [] example_run }
    ensures kept { kept_plan.reply ≡ reply.Bulk (49 ∷ []) }
    ensures newest { newest_plan.reply ≡ reply.Bulk (50 ∷ []) }
{}
