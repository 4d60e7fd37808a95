//! What a program is told, by the matches of `clap`.

ghost use Rattle.std.specs.Prelude.{◌≡◌, IfOk, IsErrOf, None, Some, option_map};
ghost use Rattle.clap.specs.Words.{first_of, found_of, rows_of};
ghost use Rattle.kv_conf.specs.CommandLine.{path as path_in};
ghost use Rattle.kv_conf.specs.Parsed.{path_of, number_of, load_by, told_by};

use crate::words::{Words, WordsFault};
use clap::ArgMatches;
use kv_base::{PathText, read_u64};
use std::alloc::Global;

/// The value of an option.
fn value<'a>(options: &ArgMatches<'a>, name: &str) -> Option<&'a str>
    ensures { option_map (λ text. text.now) result ≡ first_of name.now (rows_of (found_of options.now)) }
{
    options.get_str(name)
}

/// The value of an option which is a path: it is not empty.
fn path<'a>(options: &ArgMatches<'a>, name: &str) -> Option<&'a str>
    ensures { option_map (λ text. text.now) result ≡ path_of name.now (rows_of (found_of options.now)) }
{
    let text = value(options, name)?;
    if text.is_empty() { None } else { Some(text) }
}

/// The value of an option which is a number.
fn number(options: &ArgMatches<'_>, name: &str) -> Option<u64>
    ensures { result ≡ number_of name.now (rows_of (found_of options.now)) }
{
    read_u64(value(options, name)?.as_bytes())
}

fn load(alloc: Global, options: &ArgMatches<'_>) -> Result<Words, WordsFault>
    ensures read { IfOk result (λ words. load_by (rows_of (found_of options.now)) ≡ Some words) }
    ensures usage { IsErrOf result WordsFault.Usage → load_by (rows_of (found_of options.now)) ≡ None }
{
    let dir = path(options, "dir").ok_or(WordsFault::Usage)?;
    let seed = number(options, "seed").ok_or(WordsFault::Usage)?;
    let count = number(options, "count").ok_or(WordsFault::Usage)?;
    let dir = PathText::new(alloc, dir)?;
    Ok(Words::Load { dir, seed, count })
}

/// The path that an option names, in memory of its own.
fn owned_path(alloc: Global, options: &ArgMatches<'_>, name: &str) -> Result<PathText, WordsFault>
    ensures read { IfOk result (λ path. path_of name.now (rows_of (found_of options.now)) ≡ Some path) }
    ensures usage { IsErrOf result WordsFault.Usage → path_of name.now (rows_of (found_of options.now)) ≡ None }
{
    let path = path(options, name).ok_or(WordsFault::Usage)?;
    Ok(PathText::new(alloc, path)?)
}

/// What the options tell the program of this name.
pub fn told(alloc: Global, program: &str, options: &ArgMatches<'_>) -> Result<Words, WordsFault>
    ensures read { IfOk result (λ words. told_by program.now (rows_of (found_of options.now)) ≡ Some words) }
    ensures usage { IsErrOf result WordsFault.Usage → told_by program.now (rows_of (found_of options.now)) ≡ None }
{
    match program {
        "script" => Ok(Words::Script(owned_path(alloc, options, "dir")?)),
        "drill" => Ok(Words::Drill(owned_path(alloc, options, "dir")?)),
        "load" => load(alloc, options),
        "serve" => Ok(Words::Serve(owned_path(alloc, options, "conf")?)),
        _ => Err(WordsFault::Usage),
    }
}
