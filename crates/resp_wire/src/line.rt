//! An inline line, which is found without memory.

ghost use Rattle.std.specs.Prelude.{◌≡◌, ◌<◌, length, slice_index, true};
ghost use Rattle.resp_wire.specs.Grammar.{line as line_at};
ghost use Rattle.resp_wire.specs.Lines.{IsSearched, is_stop};
ghost use Rattle.resp_wire.specs.Parts.{Gives};

use crate::stop::{ProtocolFault, Stop};
use memchr::memchr3;

/// The most bytes of an inline line before its line feed.
const MAX_LINE: usize = 65_536;

/// The line in front without its line feed, of which so many bytes were searched before, and the text behind it.
pub fn line(searched: usize, bytes: &[u8]) -> Result<(&[u8], &[u8]), Stop>
    requires { IsSearched searched bytes.now }
    ensures { Gives (λ x. (x.0.now, x.1.now)) result (line_at bytes.now) }
{
    let (window, _) = bytes.split_at(bytes.len().min(MAX_LINE + 1));
    let (_, fresh) = window.split_at(searched);
    match memchr3(b'\n', b'"', b'\'', fresh) {
        Some(place) => stopped_at(searched + place, bytes),
        None if bytes.len() > MAX_LINE => Err(Stop::Bad(ProtocolFault::TooLong, bytes.len())),
        None => Err(Stop::More),
    }
}

/// The line in front whose first line feed or quote stands at this place.
fn stopped_at(place: usize, bytes: &[u8]) -> Result<(&[u8], &[u8]), Stop>
    requires searched { IsSearched place bytes.now }
    requires within { place < length bytes.now }
    requires stop { is_stop (slice_index bytes.now place) ≡ true }
    ensures { Gives (λ x. (x.0.now, x.1.now)) result (line_at bytes.now) }
{
    if bytes[place] == b'\n' {
        let (line, _) = bytes.split_at(place);
        let (_, behind) = bytes.split_at(place + 1);
        Ok((line, behind))
    } else if place == MAX_LINE {
        Err(Stop::Bad(ProtocolFault::TooLong, bytes.len()))
    } else {
        Err(Stop::Bad(ProtocolFault::Quote, bytes.len() - place))
    }
}
