//! The ends of ranges of scores, as texts.

ghost use Rattle.std.specs.Prelude.{◌≡◌};
ghost use Rattle.cmd_words.specs.Bounds.{end_by, read_bound as bound_at};

use crate::case::is_text;
use kv_base::read_score;
use redis_model::Bound;

/// An end of a range: `-inf`, `+inf`, `inf` or a score. A `(` before a score leaves it out.
#[tactic(auto, unfolding(crate::specs::Bounds::read_bound))]
pub fn read_bound(text: &[u8]) -> Option<Bound>
    ensures { result ≡ bound_at text.now }
{
    let (first, rest) = text.split_first()?;
    if *first == b'(' {
        end(rest, true)
    } else {
        end(text, false)
    }
}

/// An end of a range behind its `(`, if it has one.
fn end(text: &[u8], past: bool) -> Option<Bound>
    ensures { result ≡ end_by past text.now }
{
    if is_text(text, b"-inf") {
        Some(Bound::Least)
    } else if is_text(text, b"+inf") || is_text(text, b"inf") {
        Some(Bound::Greatest)
    } else {
        let score = read_score(text)?;
        if past {
            Some(Bound::Past(score))
        } else {
            Some(Bound::Closed(score))
        }
    }
}
