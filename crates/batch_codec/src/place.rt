ghost use Rattle.std.specs.Prelude.{T, IfOk, IfErr};
ghost use Rattle.std.specs.FinMap.Entries.{is_sorted};
ghost use Rattle.kv_base.specs.Map.{byte_cmp};
ghost use Rattle.batch_codec.specs.BatchMaps.{IsBetween, IsThere};
ghost use Rattle.batch_codec.specs.Slots.{slot_entries};

use crate::slot::Entry;

/// Where the raw key stands in the order of raw keys, or where it would stand.
///
/// Behind the last one it is found at once, so that a batch is filled in order at little cost.
pub fn place(entries: &[Entry], raw: &[u8]) -> Result<usize, usize>
    requires { T (is_sorted byte_cmp (slot_entries entries.now)) }
    ensures found { IfOk result (λ at. IsThere entries.now raw.now at) }
    ensures absent { IfErr result (λ at. IsBetween entries.now raw.now at) }
{
    match entries.last() {
        Some(last) if last.raw.bytes().cmp(raw).is_lt() => Err(entries.len()),
        _ => entries.binary_search_by(|entry| entry.raw.bytes().cmp(raw)),
    }
}
