ghost use Rattle.std.specs.Prelude.{◌≡◌};
ghost use Rattle.resp_wire.specs.declared.stop.NextFault.TheVariants.{NoMem as no_mem};

use kv_base::NoMem;

/// What is wrong with a request.
#[derive(Clone, Copy, Debug, PartialEq, Eq)]
pub enum ProtocolFault {
    /// A byte stands where another must: no `*` or `$`, or no line end.
    BadMark,
    /// What follows a `*` or `$` is no number as it is written here.
    BadLength,
    /// More words or bytes than a request or an inline line may have.
    TooLong,
    /// A `"` or `'` in an inline line, which has no quoted words here.
    Quote,
}

/// Why there is no next request.
#[derive(Clone, Copy, Debug, PartialEq, Eq)]
pub enum NextFault {
    /// Want of memory. All bytes are kept, so the call may be tried again.
    NoMem,
    /// A fault, and how many of the bytes fed so far stand from its place on: its place in the input, from 0, is the
    /// number of bytes fed in all less these. It comes again at each further call. The place is the wrong byte for
    /// `BadMark` and `Quote`, for `TooLong` of an inline line its first byte, and else the `*` or `$` before the number.
    Wire(ProtocolFault, usize),
}

impl From<NoMem> for NextFault {
    ghost from_gives = { λ _ e. e ≡ no_mem };

    fn from(_error: NoMem) -> NextFault {
        NextFault::NoMem
    }
}

/// Why a part of a text was not read.
#[derive(Clone, Copy, Debug, PartialEq, Eq)]
pub enum Stop {
    /// The text ends before the part does.
    More,
    /// A fault, and how many bytes are left from its place on.
    Bad(ProtocolFault, usize),
}
