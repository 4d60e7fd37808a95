//! The cases of a file.

use crate::fault::Fault;
use crate::numbers::{number, range};
use crate::play::play;
use crate::run::{Begin, Run};
use kv_fakes::{Calls, MemDisk};
use std::alloc::Global;

/// So many loops may stand in a case.
const MOST_LOOPS: usize = 3;

/// What stands before the name of a case.
pub const MARK: &str = "\n== ";

/// The cases that come of one, and of what each case of its file begins with: one for each value of each `@ for` line.
pub fn cases_of(alloc: Global, head: &str, case: &str) -> Result<Vec<String>, Fault> {
    let (name, body) = case.split_once('\n').unwrap_or((case, ""));
    let mut texts = vec![in alloc; format!(in alloc; "{name}\n{head}\n{body}")?]?;
    for _ in 0..MOST_LOOPS {
        let mut longer = Vec::new(alloc);
        for text in &texts {
            unroll(alloc, text, &mut longer)?;
        }
        texts = longer;
    }
    Ok(texts)
}

/// Adds the texts that come of the first `@ for` line, or the text itself where there is none.
fn unroll(alloc: Global, text: &str, texts: &mut Vec<String>) -> Result<(), Fault> {
    let Some((before, rest)) = text.split_once("\n@ for ") else {
        texts.push(String::from_str(alloc, text)?)?;
        return Ok(());
    };
    let (line, after) = rest.split_once('\n').ok_or(Fault::Directive)?;
    let (name, values) = line.split_once(" in ").ok_or(Fault::Directive)?;
    let body = format!(in alloc; "{before}\n{after}")?;
    for value in values.split(" | ") {
        match range(value) {
            Some((first, last)) => {
                for number in first..=last {
                    let value = format!(in alloc; "{number}")?;
                    texts.push(body.replace(alloc, name, &value)?)?;
                }
            }
            None => texts.push(body.replace(alloc, name, value)?)?,
        }
    }
    Ok(())
}

/// The runs of a case.
#[derive(Drop)]
struct Case {
    done: Vec<Run>,
    current: Run,
}

impl Case {
    /// Reads a line: it begins a run, or tells of the current one.
    fn read(&mut self, alloc: Global, line: &str) -> Result<(), Fault> {
        match beginning(line)? {
            Some(begin) => {
                let run = std::mem::replace(&mut self.current, Run::new(alloc, begin)?);
                self.done.push(run)?;
                Ok(())
            }
            None => self.current.read(alloc, line),
        }
    }
}

/// The beginning of a run that a line tells.
fn beginning(line: &str) -> Result<Option<Begin>, Fault> {
    if line == "@ run" {
        return Ok(Some(Begin::Again));
    }
    match line.strip_prefix("@ crash ") {
        Some(choice) => Ok(Some(Begin::Crash(number(choice)?))),
        None => Ok(None),
    }
}

/// Plays a case, and tells where it disagrees, or which line cannot be read.
pub fn judge(alloc: Global, text: &str) -> Result<Option<String>, Fault> {
    let (name, body) = text.split_once('\n').unwrap_or((text, ""));
    match judge_body(alloc, body)? {
        Some(finding) => Ok(Some(format!(in alloc; "{name}: {finding}")?)),
        None => Ok(None),
    }
}

fn judge_body(alloc: Global, body: &str) -> Result<Option<String>, Fault> {
    let mut case = Case {
        done: Vec::new(alloc),
        current: Run::new(alloc, Begin::Empty)?,
    };
    for line in body.lines() {
        if let Err(fault) = case.read(alloc, line) {
            return Ok(Some(format!(in alloc; "{line}: {fault}")?));
        }
    }
    let Case { mut done, current } = case;
    done.push(current)?;
    play_all(alloc, done)
}

/// Plays runs one after the other, and tells where the first one disagrees.
fn play_all(alloc: Global, runs: Vec<Run>) -> Result<Option<String>, Fault> {
    let mut files = MemDisk::new(alloc, Calls::new(alloc));
    for (number, run) in (1u64..).zip(runs) {
        if let Some(finding) = play(alloc, run, &mut files)? {
            return Ok(Some(format!(in alloc; "run {number}: {finding}")?));
        }
    }
    Ok(None)
}
