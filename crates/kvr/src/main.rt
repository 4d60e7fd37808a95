//! `kvr`: the server's programs.
#![tactic(auto)]

use std::process::ExitCode;

fn main(rt: HostRuntime) -> ExitCode {
    kvr_main::run(rt, &rt)
}
