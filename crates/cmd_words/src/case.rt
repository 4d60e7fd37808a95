//! Words in any case.

ghost use Rattle.std.specs.Prelude.{◌≡◌, IfOk};
ghost use Rattle.cmd_words.specs.Words.{is, lower};

use kv_base::{Blob, NoMem};
use std::alloc::Global;

/// Is it this name, in any case? A text of another length costs one comparison.
pub fn is_text(text: &[u8], name: &[u8]) -> bool
    ensures { result ≡ is name.now text.now }
{
    text.eq_ignore_ascii_case(name)
}

/// The same of a word.
pub fn is_word(word: &Blob, name: &[u8]) -> bool
    ensures { result ≡ is name.now word.now }
{
    is_text(word.bytes(), name)
}

/// A copy of the word, with small letters for ASCII capitals.
pub fn lower_case(alloc: Global, word: &Blob) -> Result<Blob, NoMem>
    ensures { IfOk result (λ blob. blob ≡ lower word.now) }
{
    let mut bytes = Vec::from_slice(alloc, word.bytes())?;
    bytes.as_mut_slice().make_ascii_lowercase();
    Ok(Blob::from_vec(bytes))
}
