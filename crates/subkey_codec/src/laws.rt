//! Laws of the definitions, which the check proves. Each function's contract is one.

ghost use Rattle.std.specs.Prelude.{◌≡◌, ◌<◌, ◌^◌, ℕ, ℤ, IsTrue, Some};
ghost use Rattle.std.specs.Ordering.{int_cmp, nat_cmp, ordering_then};
ghost use Rattle.kv_base.specs.Map.{Bytes, byte_cmp};
ghost use Rattle.kv_base.specs.Fields.{u64 as number};
ghost use Rattle.kv_base.specs.Number.{fits};
ghost use Rattle.kv_base.specs.RawKeys.{ElementKey, ScoreKey, raw_text, score_number};
ghost use Rattle.subkey_codec.specs.Numbers.{read_index, read_score_bytes};

/// A place in a list is read back from its bytes.
#[tactic(auto, using(crate::specs::NumberLaws::index_is_read))]
pub fn indices_are_read()
    ensures { (index : ℕ) → index < 2 ^ 64 → read_index (number index) ≡ Some index }
{}

/// Nothing else is read: what is read has these bytes.
#[tactic(auto, using(crate::specs::NumberLaws::only_index_is_read))]
pub fn only_indices_are_read()
    ensures { (bytes : Bytes) (index : ℕ) → read_index bytes ≡ Some index → bytes ≡ number index }
{}

/// A score is read back from its bytes.
#[tactic(auto, using(crate::specs::NumberLaws::score_bytes_are_read))]
pub fn scores_are_read()
    ensures { (score : ℤ) → IsTrue (fits score) → read_score_bytes (number (score_number score)) ≡ Some score }
{}

/// Nothing else is read: what is read has these bytes.
#[tactic(auto, using(crate::specs::NumberLaws::only_score_is_read))]
pub fn only_scores_are_read()
    ensures { (bytes : Bytes) (score : ℤ) → read_score_bytes bytes ≡ Some score → bytes ≡ number (score_number score) }
{}

/// The elements of a list stand in the order of their places.
#[tactic(auto, using(crate::specs::OrderLaws::elements_ascend))]
pub fn elements_stand_by_place()
    ensures { (key : Bytes) (version index other : ℕ) → index < 2 ^ 64 → other < 2 ^ 64 →
        byte_cmp (raw_text (ElementKey key version (number index))) (raw_text (ElementKey key version (number other))) ≡ nat_cmp index other }
{}

/// The members of a sorted set stand by score in the order of their scores, and where these are equal in the order of
/// their bytes.
#[tactic(auto, using(crate::specs::OrderLaws::members_ascend))]
pub fn members_stand_by_score()
    ensures { (key : Bytes) (version : ℕ) (score later : ℤ) (member other : Bytes) → IsTrue (fits score) → IsTrue (fits later) →
        byte_cmp (raw_text (ScoreKey key version score member)) (raw_text (ScoreKey key version later other))
        ≡ ordering_then (int_cmp score later) (byte_cmp member other) }
{}
