ghost use Rattle.std.specs.Prelude.{◌≡◌, IfOk};

use crate::memory::NoMem;
use std::alloc::Global;
use std::marker::Model;

/// The path of a file or a folder, as text. Contracts see its bytes, which are UTF-8.
#[derive(Debug, Drop)]
pub struct PathText {
    text: String,
}

impl Model for PathText {
    ghost use Rattle.std.specs.Prelude.{List, ℕ, string_bytes};

    ghost Value = { List ℕ };

    ghost view = { λ p. string_bytes p.text };
}

impl PathText {
    /// The path that this text spells.
    pub fn new(alloc: Global, text: &str) -> Result<PathText, NoMem>
        ensures { IfOk result (λ path. path ≡ text.now) }
    {
        let text = String::from_str(alloc, text)?;
        Ok(PathText { text })
    }

    /// The text.
    pub fn text(&self) -> &str
        ensures { result.now ≡ self.now }
    {
        self.text.as_str()
    }
}
