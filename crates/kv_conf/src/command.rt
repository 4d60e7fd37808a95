//! The command line as `clap` knows it.

ghost use Rattle.std.specs.Prelude.{◌≡◌, ◌≢◌, IfOk, IsErrOf, None, false, map, option_map, string_bytes};
ghost use Rattle.clap.specs.Words.{app_of, found_of, kind_of, rows_of, rule_of, subcommand_rows_of};
ghost use Rattle.clap.specs.declared.builder.command.Command.TheViews.{out-Command};
ghost use Rattle.clap.specs.declared.error.kind.ErrorKind.TheVariants.{OutOfMemory};
ghost use Rattle.kv_conf.specs.Parsed.{bare as bare_app, kvr_app, load_program, option_rule, parsed, program as program_in};

use crate::words::WordsFault;
use clap::error::ErrorKind;
use clap::{Arg, ArgMatches, Command, Error};
use std::alloc::{AllocError, Global};

/// An option `--name`, which has to be there once, with one value.
fn option<'a>(alloc: Global, name: &'a str) -> Arg<'a>
    ensures rule { rule_of result ≡ option_rule name.entry.now }
    ensures local { result.global ≡ false }
{
    Arg::new(alloc, name).long(name).required(true)
}

/// A program with one option.
fn program<'a>(alloc: Global, name: &'a str, only: &'a str) -> Result<Command<'a>, AllocError>
    ensures shape { IfOk result (λ c. app_of c ≡ program_in name.entry.now only.entry.now) }
    ensures local { IfOk result (λ c. (out-Command c).has_globals ≡ false) }
{
    Command::new(alloc, name).arg(option(alloc, only))
}

fn load<'a>(alloc: Global) -> Result<Command<'a>, AllocError>
    ensures shape { IfOk result (λ c. app_of c ≡ load_program) }
    ensures local { IfOk result (λ c. (out-Command c).has_globals ≡ false) }
{
    Command::new(alloc, "load")
        .arg(option(alloc, "dir"))?
        .arg(option(alloc, "seed"))?
        .arg(option(alloc, "count"))
}

/// A command with no flag or word of `clap`'s own, whose words have no program's name in front.
fn bare<'a>(alloc: Global) -> Command<'a>
    ensures { app_of result ≡ bare_app }
{
    Command::new(alloc, "kvr")
        .no_binary_name(true)
        .disable_help_flag(true)
        .disable_help_subcommand(true)
}

/// The programs and their options.
fn command<'a>(alloc: Global) -> Result<Command<'a>, AllocError>
    ensures { IfOk result (λ c. app_of c ≡ kvr_app) }
{
    let script = program(alloc, "script", "dir")?;
    let drill = program(alloc, "drill", "dir")?;
    let load = load(alloc)?;
    let serve = program(alloc, "serve", "conf")?;
    bare(alloc)
        .subcommand(script)?
        .subcommand(drill)?
        .subcommand(load)?
        .subcommand(serve)
}

fn fault_of(error: &Error) -> WordsFault
    ensures { result ≡ WordsFault.Usage → kind_of error.now ≢ OutOfMemory }
{
    match error.kind() {
        ErrorKind::OutOfMemory => WordsFault::NoMem,
        _ => WordsFault::Usage,
    }
}

/// What `clap` finds in the words.
pub fn parse<'a>(alloc: Global, words: &'a [String]) -> Result<ArgMatches<'a>, WordsFault>
    ensures found { IfOk result (λ m. subcommand_rows_of m ≡ parsed (map (λ word. string_bytes word) words.entry.now)) }
    ensures usage { IsErrOf result WordsFault.Usage → parsed (map (λ word. string_bytes word) words.entry.now) ≡ None }
{
    let command = match command(alloc) {
        Ok(command) => command,
        Err(_) => return Err(WordsFault::NoMem),
    };
    match command.try_get_matches_from(words) {
        Ok(matches) => Ok(matches),
        Err(error) => Err(fault_of(&error)),
    }
}

/// The program that was found, and its options.
pub fn found<'m, 'a>(matches: &'m ArgMatches<'a>) -> Option<(&'a str, &'m ArgMatches<'a>)>
    ensures { option_map (λ p. (p.0.now, rows_of (found_of p.1.now))) result ≡ subcommand_rows_of matches.now }
{
    matches.subcommand()
}
