//! The raw key of a key's metadata.

ghost use Rattle.std.specs.Prelude.{◌≡◌, IfOk, IsTrue};
ghost use Rattle.kv_base.specs.RawKeys.{is_raw_text};
ghost use Rattle.lives_model.specs.Rows.{meta_key};

use kv_base::{Blob, Key, NoMem};
use std::alloc::Global;
use std::marker::Model;

/// The raw key of a key's metadata. A plan builds it once, reads the metadata there, and moves it into its batch. Contracts
/// see it as the key.
#[derive(Drop)]
pub struct MetaKey {
    raw: Blob,
}

impl Model for MetaKey {
    ghost use Rattle.std.specs.Prelude.{List, ℕ};
    ghost use Rattle.std.specs.Coded.{coded_list, coded_ℕ};
    ghost use Rattle.plan_base.specs.MetaKeys.{IsMetaRaw, key_in};

    ghost Value = { List ℕ };

    ghost coded = { coded_list coded_ℕ };

    ghost view = { λ k. key_in k.raw };

    ghost invariant = { λ k. IsMetaRaw k.raw };
}

impl MetaKey {
    /// The raw key of a key's metadata.
    #[tactic(auto, using(crate::specs::MetaKeyLaws::key_is_in, crate::specs::MetaKeyLaws::meta_is_raw))]
    pub fn new(alloc: Global, key: &Key) -> Result<MetaKey, NoMem>
        ensures { IfOk result (λ raw. raw ≡ key.now) }
    {
        let raw = meta_codec::meta_key(alloc, key)?;
        Ok(MetaKey { raw })
    }

    /// Its bytes.
    pub fn bytes(&self) -> &[u8]
        ensures { result.now ≡ meta_key self.now }
    {
        self.raw.bytes()
    }

    /// Its bytes as a blob, which takes no memory.
    pub fn into_blob(self) -> Blob
        ensures raw { result ≡ meta_key self }
        ensures raw_key { IsTrue (is_raw_text result) }
    {
        let MetaKey { raw } = self;
        raw
    }
}
