ghost use Rattle.std.specs.Prelude.{◌≡◌, ◌<◌, ◌≤◌, ◌^◌, [], ◌∷◌, length, take, drop, IfSome, IfNone};
ghost use Rattle.record_body.specs.Framed.{framed_number};
ghost use Rattle.gated_log.specs.Gated.{records};
ghost use Rattle.gated_log.specs.Walk.{StandsAt};

use crate::steps::OPEN;

/// An open record in a file's bytes.
#[derive(Clone, Copy, Debug)]
pub struct GatedRecord<'a> {
    /// The body.
    pub body: &'a [u8],
    /// The place behind it, where the next record's gate stands.
    pub next: usize,
}

/// How many bytes stand before a body: its gate and its length.
const HEAD: usize = 5;

/// The length in a record's head, behind its gate.
fn body_length(head: &[u8]) -> usize
    requires { HEAD ≤ length head.now }
    ensures number { result ≡ framed_number (take 4 (drop 1 head.now)) }
    ensures limit { result < 2 ^ 32 }
{
    u32::from_be_bytes([head[1], head[2], head[3], head[4]]) as usize
}

/// The open record at this place, where one is: the gate is 01, and the body is whole in the file.
pub fn next_record(bytes: &[u8], place: usize) -> Option<GatedRecord<'_>>
    requires { place ≤ length bytes.now }
    ensures stands { IfSome result (λ found. StandsAt place found.next found.body.now bytes.now) }
    ensures within { IfSome result (λ found. found.next ≤ length bytes.now) }
    ensures counts { IfSome result (λ found.
        records (drop place bytes.now) ≡ found.body.now ∷ records (drop found.next bytes.now)) }
    ensures none { IfNone result (records (drop place bytes.now) ≡ []) }
{
    let (_, rest) = bytes.split_at(place);
    if rest.len() < HEAD || rest[0] != OPEN {
        return None;
    }
    let length = body_length(rest);
    let (_, behind) = rest.split_at(HEAD);
    if behind.len() < length {
        return None;
    }
    let (body, _) = behind.split_at(length);
    Some(GatedRecord {
        body,
        next: place + HEAD + length,
    })
}
