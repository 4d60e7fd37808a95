// The limits of what a manifest says.
ghost use Rattle.std.specs.Prelude.{◌≡◌};
ghost use Rattle.edit_codec.specs.States.{are_numbers};

/// The greatest number of a segment.
const LAST_LOG: u64 = (1 << 62) - 1;

/// The greatest sequence.
const LAST_SEQUENCE: u64 = (1 << 42) - 2;

/// The latest moment, in milliseconds.
const LAST_MOMENT: u64 = 1 << 61;

/// The number behind that of the last run.
const RUNS: u64 = 1 << 62;

/// Are these the numbers of a state?
pub fn are_numbers(log: u64, last: u64, floor: u64, next_run: u64) -> bool
    ensures { result ≡ are_numbers log last floor next_run }
{
    1 <= log
        && log <= LAST_LOG
        && last <= LAST_SEQUENCE
        && floor <= LAST_MOMENT
        && 1 <= next_run
        && next_run <= RUNS
}
