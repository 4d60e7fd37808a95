//! Reads configurations, and prints those that are not read as their cases say.
//!
//! `data/cases.txt` has the cases, with an empty line between each two: a document, and behind `=> ` what it is read as.
//! `data/kvr.toml` is the configuration at the top of the repository.
#![tactic(auto)]

use anyhow::{Context, Result};
use conf_file::{Conf, ConfFault, parse_conf, read_conf};
use kv_base::PathText;
use kv_real::FileIn;
use std::alloc::{AllocError, Global};
use std::fs;

/// What an answer says, as a case tells it.
fn shown(alloc: Global, answer: Result<Conf, ConfFault>) -> Result<String, AllocError> {
    match answer {
        Ok(conf) => {
            let dir = conf.dir.text();
            let listen = conf.listen.text();
            let workers = conf.workers;
            format!(in alloc; "{dir} at {listen} by {workers}")
        }
        Err(fault) => format!(in alloc; "{fault}"),
    }
}

/// Whether a case agrees, and else prints it.
fn agrees(rt: &HostRuntime, case: &str) -> Result<bool> {
    let (document, answer) = case.rsplit_once("=> ").context("a case")?;
    let answer = answer.trim_end();
    let told = shown(rt.alloc(), parse_conf(rt.alloc(), document.as_bytes()))?;
    if told.as_str() == answer {
        return Ok(true);
    }
    println!(rt; "{document}is read as: {told}, and not: {answer}")?;
    Ok(false)
}

/// A document of so many bytes.
fn document_of(alloc: Global, length: usize) -> Result<String, AllocError> {
    let mut document = String::from_str(alloc, "dir = \"d\"\nlisten = \"h:1\"\n")?;
    for _ in document.len()..length {
        document.push('#')?;
    }
    Ok(document)
}

/// Prints what a document of so many bytes is read as.
fn print_long(rt: &HostRuntime, length: usize) -> Result<()> {
    let document = document_of(rt.alloc(), length)?;
    let told = shown(rt.alloc(), parse_conf(rt.alloc(), document.as_bytes()))?;
    println!(rt; "{length} bytes: {told}")?;
    Ok(())
}

/// Prints what a file is read as.
fn print_file(rt: &HostRuntime, path: &str) -> Result<()> {
    let name = PathText::new(rt.alloc(), path).ok().context("no memory")?;
    let mut file = FileIn::new(rt, name);
    let told = shown(rt.alloc(), read_conf(rt.alloc(), &mut file))?;
    println!(rt; "{path}: {told}")?;
    Ok(())
}

fn main(rt: HostRuntime) -> Result<()> {
    let text = fs::read_to_string(&rt, "cases.txt").context("reading the cases")?;
    let mut agreed = 0u64;
    for case in text.split("\n\n") {
        if agrees(&rt, case)? {
            agreed = agreed.saturating_add(1);
        }
    }
    println!(rt; "{agreed} cases agree")?;
    let told = shown(
        rt.alloc(),
        parse_conf(rt.alloc(), b"dir = '\xff'\nlisten = 'h:1'"),
    )?;
    println!(rt; "no UTF-8: {told}")?;
    print_long(&rt, 65536)?;
    print_long(&rt, 65537)?;
    print_file(&rt, "kvr.toml")?;
    print_file(&rt, "none.toml")
}
