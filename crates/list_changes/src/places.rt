//! Places of items among so many.

ghost use Rattle.std.specs.Prelude.{◌≡◌, ◌<◌, IfSome};
ghost use Rattle.redis_model.specs.Lists.{place};

/// The place of an item among so many, if it is one; a negative place counts from the end, where -1 is the last.
pub fn place(count: u64, at: i64) -> Option<u64>
    ensures place { result ≡ place count at }
    ensures within { IfSome result (λ place. place < count) }
{
    let from_end = at.unsigned_abs();
    if at < 0 {
        if from_end <= count {
            Some(count - from_end)
        } else {
            None
        }
    } else if from_end < count {
        Some(from_end)
    } else {
        None
    }
}
