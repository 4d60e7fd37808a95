ghost use Rattle.std.specs.Prelude.{◌≡◌};
ghost use Rattle.kv_outside.specs.Writing.{Writes};
ghost use Rattle.resp_wire.specs.Fault.{fault_line, wire_fault, fault_text};

use crate::stop::ProtocolFault;
use itoa::Buffer;
use kv_outside::{Failed, Sink, write_pieces};
use std::fmt::{Display, Error, Formatter, Write};

/// Why a session's input is refused: a fault of a request, or an end inside one. It prints as it stands in the line
/// that `write_fault` writes.
#[derive(Clone, Copy, Debug, PartialEq, Eq)]
pub enum WireFault {
    /// `ProtocolFault::BadMark`.
    BadMark,
    /// `ProtocolFault::BadLength`.
    BadLength,
    /// `ProtocolFault::TooLong`.
    TooLong,
    /// `ProtocolFault::Quote`.
    Quote,
    /// The input ends inside a request, whose first byte is the place.
    Cut,
}

impl From<ProtocolFault> for WireFault {
    ghost from_gives = { λ kind fault. fault ≡ wire_fault kind };

    fn from(kind: ProtocolFault) -> WireFault {
        match kind {
            ProtocolFault::BadMark => WireFault::BadMark,
            ProtocolFault::BadLength => WireFault::BadLength,
            ProtocolFault::TooLong => WireFault::TooLong,
            ProtocolFault::Quote => WireFault::Quote,
        }
    }
}

impl WireFault {
    /// The words that name the fault.
    fn text(self) -> &'static str
        ensures { result.now ≡ fault_text self }
    {
        match self {
            WireFault::BadMark => "bad mark",
            WireFault::BadLength => "bad length",
            WireFault::TooLong => "too long",
            WireFault::Quote => "quote",
            WireFault::Cut => "cut",
        }
    }
}

impl Display for WireFault {
    fn fmt<W: Write>(&self, f: &mut Formatter<W>) -> Result<(), Error> {
        f.write_str(self.text())
    }
}

/// Writes the line that tells a client of a fault: `-ERR Protocol error: KIND at PLACE`, with the place as the number of
/// bytes of the input before it, and a line end. Where the sink fails it holds a front of the line, and the answer is
/// `Failed`. Nothing is allocated.
///
/// Of `NextFault::Wire(kind, left)` the place is the number of bytes fed in all less `left`, and so it is of
/// `WireFault::Cut` where `Reader::finish` answers `left`.
pub fn write_fault<K: Sink>(fault: WireFault, place: u64, sink: &mut K) -> Result<(), Failed>
    ensures { Writes (K.held sink.old) (K.held sink.new) (K.faults sink.old) (K.faults sink.new) (fault_line fault place) result }
{
    let mut buffer = Buffer::new();
    let digits = buffer.format(place).as_bytes();
    write_pieces(
        &[
            b"-ERR Protocol error: ",
            fault.text().as_bytes(),
            b" at ",
            digits,
            b"\r\n",
        ],
        sink,
    )
}
