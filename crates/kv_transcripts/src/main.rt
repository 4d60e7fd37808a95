//! Plays transcripts of whole runs of the server over an outside in memory, and prints what disagrees.
//!
//! The arguments name the files. `docs/TRANSCRIPTS.md` says how they are written. The status is 0 where all cases agree.
#![tactic(auto)]

mod bytes;
mod case;
mod fault;
mod numbers;
mod play;
mod run;
mod wire;

use anyhow::{Context, Result};
use std::process::ExitCode;
use std::{env, fs};

/// How many cases agree, and how many do not.
#[derive(Drop)]
struct Tally {
    agree: u64,
    disagree: u64,
}

/// Plays the cases of a file, each of which begins with what stands before the first one.
fn play_file(rt: &HostRuntime, file: &str) -> Result<Tally> {
    let mut tally = Tally {
        agree: 0,
        disagree: 0,
    };
    let text = fs::read_to_string(rt, file).context("reading a transcript")?;
    let (head, rest) = text.split_once(case::MARK).context("no case")?;
    for case in rest.split(case::MARK) {
        play_case(rt, file, head, case, &mut tally)?;
    }
    Ok(tally)
}

/// Plays a case for each value of its loops, and prints what disagrees.
fn play_case(
    rt: &HostRuntime,
    file: &str,
    head: &str,
    case: &str,
    tally: &mut Tally,
) -> Result<()> {
    let (name, _) = case.split_once('\n').unwrap_or((case, ""));
    for case in case::cases_of(rt.alloc(), head, case).context(name)? {
        match case::judge(rt.alloc(), &case)? {
            None => tally.agree = tally.agree.saturating_add(1),
            Some(finding) => {
                tally.disagree = tally.disagree.saturating_add(1);
                println!(rt; "{file}: {finding}")?;
            }
        }
    }
    Ok(())
}

fn main(rt: HostRuntime) -> Result<ExitCode> {
    let mut all_agree = true;
    for file in env::args(&rt)?.skip(1) {
        let tally = play_file(&rt, &file)?;
        println!(rt; "{file}: {} agree", tally.agree)?;
        all_agree = all_agree && tally.disagree == 0;
    }
    Ok(if all_agree {
        ExitCode::SUCCESS
    } else {
        ExitCode::FAILURE
    })
}
