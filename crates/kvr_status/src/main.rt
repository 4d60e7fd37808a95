//! `kvr` once more, for a run with words that it refuses.
#![tactic(auto)]

use std::process::ExitCode;

fn main(rt: HostRuntime) -> ExitCode {
    kvr_main::run(rt, &rt)
}
