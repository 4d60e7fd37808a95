//! The words of a request, which are copied.

ghost use Rattle.std.specs.Prelude.{◌≡◌, ◌<◌, ◌++◌, ◌∷◌, [], IfOk, OnOk, OnErr, length};
ghost use Rattle.std.specs.List.{before_first, after_first};
ghost use Rattle.std.specs.Str.Lines.{strip_carriage_return};
ghost use Rattle.resp_wire.specs.Grammar.{is_blank, line_words as words_of};

use kv_base::{Blob, Blobs, NoMem};
use memchr::memchr2;
use std::alloc::Global;

/// Adds a copy of the word, or nothing where memory is short.
pub fn keep(alloc: Global, words: &mut Blobs, word: &[u8]) -> Result<(), NoMem>
    ensures ok { OnOk result (words.new ≡ words.old ++ word.now ∷ []) }
    ensures err { OnErr result (words.new ≡ words.old) }
{
    let word = Blob::copy(alloc, word)?;
    words.push(word)?;
    Ok(())
}

/// The line without the carriage return that may end it.
fn without_return(line: &[u8]) -> &[u8]
    ensures { result.now ≡ strip_carriage_return line.now }
{
    match line {
        [front @ .., b'\r'] => front,
        _ => line,
    }
}

/// What stands before the first blank, and what stands behind it.
fn cut(text: &[u8]) -> (&[u8], &[u8])
    ensures part { result.0.now ≡ before_first is_blank text.now }
    ensures behind { result.1.now ≡ after_first is_blank text.now }
{
    match memchr2(b' ', b'\t', text) {
        Some(place) => {
            let (part, _) = text.split_at(place);
            let (_, behind) = text.split_at(place + 1);
            (part, behind)
        }
        None => (text, &[]),
    }
}

/// Copies of the words of a line. Where memory is short it has words.
#[tactic(auto, unfolding(crate::specs::Grammar::line_words))]
pub fn line_words(alloc: Global, line: &[u8]) -> Result<Blobs, NoMem>
    ensures ok { IfOk result (λ words. words ≡ words_of line.now) }
    ensures err { OnErr result (0 < length (words_of line.now)) }
{
    let mut words = Blobs::new(alloc);
    let mut rest = without_return(line);
    while !rest.is_empty() {
        let (part, behind) = cut(rest);
        if !part.is_empty() {
            keep(alloc, &mut words, part)?;
        }
        rest = behind;
    }
    Ok(words)
}
