//! Laws of the definitions, which the check proves. Each function's contract is one.

ghost use Rattle.std.specs.Prelude.{◌≡◌, ◌≢◌, ◌++◌, ℕ, IsTrue, Some};
ghost use Rattle.kv_base.specs.Map.{Bytes};
ghost use Rattle.kv_base.specs.RawKeys.{IsOfLife, RawKey, is_key, is_raw_within, is_version, life_prefix, meta_space, raw_text, read_raw};
ghost use Rattle.kv_base.specs.MetaValues.{MetaValue, is_meta_within, meta_text, read_meta};

/// A raw key within its limits is read back from its bytes.
#[tactic(auto, using(crate::specs::RawKeyLaws::raw_is_read))]
pub fn raw_keys_are_read()
    ensures { (raw : RawKey) → IsTrue (is_raw_within raw) → read_raw (raw_text raw) ≡ Some raw }
{}

/// Nothing else is read: what is read is within its limits, and has these bytes.
pub fn only_raw_keys_are_read()
    ensures { (bytes : Bytes) (raw : RawKey) → read_raw bytes ≡ Some raw → (bytes ≡ raw_text raw) × IsTrue (is_raw_within raw) }
{}

/// Raw keys that differ in space, key, version, subkey, score or member have different bytes.
#[tactic(auto, using(crate::specs::RawKeyLaws::raw_keys_differ))]
pub fn raw_keys_differ()
    ensures { (raw other : RawKey) → IsTrue (is_raw_within raw) → IsTrue (is_raw_within other) → raw_text raw ≡ raw_text other → raw ≡ other }
{}

/// A raw key that begins with the prefix of a life is one of that life: of its space, its key and its version.
#[tactic(auto, using(crate::specs::RawKeyLaws::only_its_rows_have_its_prefix))]
pub fn only_its_rows_have_its_prefix()
    ensures { (raw : RawKey) (space : ℕ) (key : Bytes) (version : ℕ) (rest : Bytes) →
        space ≢ meta_space → IsTrue (is_raw_within raw) → IsTrue (is_key key) → IsTrue (is_version version) →
        raw_text raw ≡ life_prefix space key version ++ rest → IsOfLife space key version raw }
{}

/// Metadata within its limits is read back from its bytes.
#[tactic(auto, using(crate::specs::MetaValueLaws::meta_is_read))]
pub fn metadata_is_read()
    ensures { (meta : MetaValue) → IsTrue (is_meta_within meta) → read_meta (meta_text meta) ≡ Some meta }
{}

/// Nothing else is read: what is read is within its limits, and has these bytes.
pub fn only_metadata_is_read()
    ensures { (bytes : Bytes) (meta : MetaValue) → read_meta bytes ≡ Some meta → (bytes ≡ meta_text meta) × IsTrue (is_meta_within meta) }
{}
