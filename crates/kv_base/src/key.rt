ghost use Rattle.std.specs.Prelude.{◌≡◌, ◌<◌, ◌≤◌, length, IfOk, IfErr};

use crate::blob::Blob;
use sqlite_items::Items;
use std::marker::Model;

/// The most bytes that a key, a field or a member has.
pub const MAX_KEY: usize = 65535;

/// The name of a value: at most 65,535 bytes. Contracts see it as the list of its bytes.
#[derive(Debug, Drop)]
pub struct Key {
    blob: Blob,
}

/// A list of keys.
pub type Keys = Items<Key>;

impl Model for Key {
    ghost use Rattle.std.specs.Prelude.{List, ℕ, ◌≤◌, length};
    ghost use Rattle.std.specs.Coded.{coded_list, coded_ℕ};

    ghost Value = { List ℕ };

    ghost coded = { coded_list coded_ℕ };

    ghost view = { λ k. k.blob };

    ghost invariant = { λ k. length k.blob ≤ 65535 };
}

impl Key {
    /// The key of these bytes. The blob comes back where it has more than `MAX_KEY` bytes.
    pub fn new(blob: Blob) -> Result<Key, Blob>
        ensures key { IfOk result (λ key. (key ≡ blob) × (length blob ≤ MAX_KEY)) }
        ensures too_long { IfErr result (λ back. (back ≡ blob) × (MAX_KEY < length blob)) }
    {
        if blob.bytes().len() > MAX_KEY {
            return Err(blob);
        }
        Ok(Key { blob })
    }

    /// The bytes, of which there are at most `MAX_KEY`.
    pub fn bytes(&self) -> &[u8]
        ensures bytes { result.now ≡ self.now }
        ensures limit { length self.now ≤ MAX_KEY }
    {
        self.blob.bytes()
    }

    /// The bytes as a blob, which stays the key's.
    pub fn blob(&self) -> &Blob
        ensures { result.now ≡ self.now }
    {
        &self.blob
    }

    /// The bytes as a blob, which takes no memory.
    pub fn into_blob(self) -> Blob
        ensures { result ≡ self }
    {
        let Key { blob } = self;
        blob
    }
}
