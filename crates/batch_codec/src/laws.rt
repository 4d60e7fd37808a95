//! Laws of the definitions, which the check proves. Each function's contract is one.

ghost use Rattle.std.specs.Prelude.{◌≡◌, ◌<◌, ◌^◌, ℕ, Some, length, option_map};
ghost use Rattle.kv_base.specs.Map.{Bytes, Map, get};
ghost use Rattle.batch_codec.specs.Batches.{Batch, after, joined, over};
ghost use Rattle.batch_codec.specs.Bodies.{body_of, read_body};
ghost use Rattle.batch_codec.specs.BodyLaws.{IsBodyOf, IsWritable};
ghost use Rattle.batch_codec.specs.declared.record.Record.{Record};

/// After a batch, what stands at a raw key is what the batch puts there, nothing where it deletes, and else what stood
/// there before.
pub fn batches_write_their_rows()
    ensures { (rows : Map Bytes) (batch : Batch) (raw : Bytes) → get (after rows batch) raw ≡ over (get batch raw) (get rows raw) }
{}

/// Of two batches that are joined, the later one decides where both have a raw key.
pub fn later_batches_win()
    ensures { (batch later : Batch) (raw : Bytes) → get (joined batch later) raw ≡ over (option_map (λ x. Some x) (get later raw)) (get batch raw) }
{}

/// A record within its limits is read back from its body.
#[tactic(auto, using(crate::specs::BodyLaws::body_is_read))]
pub fn records_are_read()
    ensures { (seq moment : ℕ) (batch : Batch) → IsWritable seq moment batch → length (body_of seq moment batch) < 2 ^ 32 →
        read_body (body_of seq moment batch) ≡ Some (record { seq = seq; moment = moment; batch = batch }) }
{}

/// Nothing else is read: what is read is within its limits, and has these bytes.
pub fn only_records_are_read()
    ensures { (bytes : Bytes) (read : Record) → read_body bytes ≡ Some read → IsBodyOf bytes read }
{}
