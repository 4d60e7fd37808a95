//! Replies of more than one family.

ghost use Rattle.std.specs.Prelude.{◌≡◌};
ghost use Rattle.redis_model.specs.Outcome.{bulk_or_null, yes_no};

use kv_base::Blob;
use redis_model::Reply;

/// A value as a bulk, or null where there is none.
pub fn bulk_or_null(value: Option<Blob>) -> Reply
    ensures { result ≡ bulk_or_null value }
{
    match value {
        None => Reply::Null,
        Some(value) => Reply::Bulk(value),
    }
}

/// 1 for yes and 0 for no.
pub fn yes_no(yes: bool) -> Reply
    ensures { result ≡ yes_no yes }
{
    if yes { Reply::Int(1) } else { Reply::Int(0) }
}
