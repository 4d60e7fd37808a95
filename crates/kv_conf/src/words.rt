//! What the words of a command line ask for.

ghost use Rattle.std.specs.Prelude.{◌≡◌, Some, None, IfOk, IsErrOf, map, string_bytes};
ghost use Rattle.std.specs.List.{list_all};
ghost use Rattle.kv_conf.specs.CommandLine.{asked_line as asked_by};
ghost use Rattle.kv_conf.specs.Parsed.{found as found_in, is_offered as is_offered_word};

use crate::command::{found, parse};
use crate::told::told;
use kv_base::{NoMem, PathText};
use std::alloc::Global;

/// A program and what it is told.
#[derive(Debug, Drop)]
pub enum Words {
    /// `script --dir D`: one session from standard input to standard output.
    Script(PathText),
    /// `drill --dir D`: a written schedule of events.
    Drill(PathText),
    /// `load --dir D --seed N --count N`: a generated workload.
    Load {
        /// The folder of the store.
        dir: PathText,
        /// The number from which the workload is generated.
        seed: u64,
        /// How many commands it has.
        count: u64,
    },
    /// `serve --conf FILE`: a server over TCP, by a file of its configuration.
    Serve(PathText),
}

/// Why words are not read.
#[derive(Clone, Copy, Debug, PartialEq, Eq)]
pub enum WordsFault {
    /// The words are off the grammar.
    Usage,
    /// There is no memory for what the words say.
    NoMem,
}

impl From<NoMem> for WordsFault {
    ghost use Rattle.std.specs.Prelude.{◌≡◌};
    ghost use Rattle.kv_conf.specs.declared.words.WordsFault.TheVariants.{NoMem as no_memory};

    ghost from_gives = { λ _ fault. fault ≡ no_memory };

    fn from(_error: NoMem) -> WordsFault {
        WordsFault::NoMem
    }
}

/// Whether `clap` may see the word: it would take a `-` for a value, a `--` for an end of options, and `-ab` for short flags.
fn is_offered(word: &str) -> bool
    ensures { result ≡ is_offered_word word.now }
{
    match word.strip_prefix("--") {
        Some(name) => !name.is_empty(),
        None => !word.starts_with('-'),
    }
}

fn are_offered(words: &[String]) -> bool
    ensures { result ≡ list_all (λ word. is_offered_word (string_bytes word)) words.now }
{
    words.iter().all(|word| is_offered(word.as_str()))
}

/// Reads words that `clap` may see.
fn read_offered(alloc: Global, words: &[String]) -> Result<Words, WordsFault>
    ensures read { IfOk result (λ told. found_in (map (λ word. string_bytes word) words.now) ≡ Some told) }
    ensures usage { IsErrOf result WordsFault.Usage → found_in (map (λ word. string_bytes word) words.now) ≡ None }
{
    let matches = parse(alloc, words)?;
    match found(&matches) {
        Some((program, options)) => told(alloc, program, options),
        None => Err(WordsFault::Usage),
    }
}

/// Reads the words of a command line behind the program's own name.
///
/// The first word names the program, `script`, `drill`, `load` or `serve`. Each of its options follows exactly once, in
/// any order, as `--x v` or as `--x=v`: `--dir` of `script` and `drill`; `--dir`, `--seed` and `--count` of `load`;
/// `--conf` of `serve`. A value that is a word of its own does not begin with `-`. Folders and files are not empty.
/// Numbers are whole, below 2^64, in decimal digits with no sign and no zero in front of another digit. Other words are
/// `Usage`, `--help` and `--version` too. Where memory runs out `NoMem` may come for any words.
pub fn read_words(alloc: Global, words: &[String]) -> Result<Words, WordsFault>
    ensures read { IfOk result (λ told. asked_by (map (λ word. string_bytes word) words.now) ≡ Some told) }
    ensures usage { IsErrOf result WordsFault.Usage → asked_by (map (λ word. string_bytes word) words.now) ≡ None }
{
    if !are_offered(words) {
        return Err(WordsFault::Usage);
    }
    read_offered(alloc, words)
}
