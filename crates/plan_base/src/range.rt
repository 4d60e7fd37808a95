//! Ranges of places in a string or a list.

ghost use Rattle.std.specs.Prelude.{◌≡◌, ◌≤◌};
ghost use Rattle.redis_model.specs.Strings.{end_at, start_at};

/// The place at which a range begins, of so many. A negative place counts from the end, where -1 is the last; what lies
/// beyond an end counts up to it (Redis command reference, GETRANGE and LRANGE).
pub fn start_at(count: u64, first: i64) -> u64
    ensures { result ≡ start_at count first }
{
    if first < 0 {
        count.saturating_sub(first.unsigned_abs())
    } else {
        first as u64
    }
}

/// The place behind the last one of a range, of so many.
pub fn end_at(count: u64, last: i64) -> u64
    ensures place { result ≡ end_at count last }
    ensures within { result ≤ count }
{
    if last < 0 {
        count.saturating_sub(last.unsigned_abs() - 1)
    } else {
        count.min(last as u64 + 1)
    }
}
