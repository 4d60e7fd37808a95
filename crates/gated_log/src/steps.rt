// What a gated log does with its file, each as one step that keeps the records.
ghost use Rattle.std.specs.Prelude.{◌≡◌, ◌≤◌, ◌<◌, ◌+◌, ◌^◌, [], ◌∷◌, ◌++◌, List, ℕ, length, Option, IfOk, OnOk, IfSome, MatchBool};
ghost use Rattle.kv_outside.specs.Causes.{HasCause};
ghost use Rattle.kv_outside.specs.Disk.{Touches, NothingNew, Agrees, CrashLeaves, IsDurable};
ghost use Rattle.gated_log.specs.Gated.{records, EndsAt, HasRecordsOrNone, IsShut, HasShutGate, HasNoShutGate};
ghost use Rattle.gated_log.specs.States.{Shows};
ghost use Rattle.gated_log.specs.Steps.{TriesAt, Stores};

use kv_base::FileName;
use kv_outside::{Failed, Files};

/// The gate of a record that counts.
pub(crate) const OPEN: u8 = 1;

/// The gate of a record that does not count.
pub(crate) const SHUT: u8 = 0;

/// Writes the bytes at this place, which is not beyond the end, and syncs.
pub(crate) fn store<F: Files>(
    files: &mut F,
    log: &mut F::Log,
    at: u64,
    bytes: &[u8],
) -> Result<(), Failed>
    requires { IfSome (F.bytes_of log.old) (λ d. at ≤ length d) }
    ensures tried { TriesAt at bytes.now (F.name_of log.old) (F.disk files.old) (F.disk files.new) (F.bytes_of log.old) (F.bytes_of log.new) }
    ensures stored { OnOk result (Stores at bytes.now (F.name_of log.old) (F.disk files.old) (F.disk files.new) (F.bytes_of log.old) (F.bytes_of log.new)) }
    ensures limit { OnOk result (at + length bytes.now ≤ 2 ^ 63) }
    ensures name { F.name_of log.new ≡ F.name_of log.old }
    ensures cause { HasCause (F.faults files.old) (F.faults files.new) result }
{
    files.write_at(log, at, bytes)?;
    files.sync(log)
}

/// Opens the file, and syncs it: from then on a crash leaves what it reads as.
pub(crate) fn open_synced<F: Files>(files: &mut F, name: FileName) -> Result<F::Log, Failed>
    ensures name { IfOk result (λ log. F.name_of log ≡ name) }
    ensures opened { IfOk result (λ log. Agrees (F.disk files.old) name (F.bytes_of log)) }
    ensures agrees { IfOk result (λ log. Agrees (F.disk files.new) name (F.bytes_of log)) }
    ensures durable { IfOk result (λ log. IsDurable (F.disk files.new) name (F.bytes_of log)) }
    ensures disk { NothingNew (F.disk files.old) (F.disk files.new) }
    ensures cause { HasCause (F.faults files.old) (F.faults files.new) result }
{
    let mut log = files.open(name)?;
    files.sync(&mut log)?;
    Ok(log)
}

/// Opens the file, and takes away what it has.
pub(crate) fn open_empty<F: Files>(files: &mut F, name: FileName) -> Result<F::Log, Failed>
    ensures name { IfOk result (λ log. F.name_of log ≡ name) }
    ensures empty { IfOk result (λ log. IfSome (F.bytes_of log) (λ c. c ≡ [])) }
    ensures agrees { IfOk result (λ log. Agrees (F.disk files.new) name (F.bytes_of log)) }
    ensures any_moment { CrashLeaves (F.disk files.old) name (λ c. length c ≤ 1)
        → Touches name (F.disk files.old) (F.disk files.new) (λ c. length c ≤ 1) }
    ensures cause { HasCause (F.faults files.old) (F.faults files.new) result }
{
    let mut log = files.open(name)?;
    if files.length(&log)? > 0 {
        files.cut(&mut log, 0)?;
    }
    Ok(log)
}

/// Is the byte at this place there, and not 01?
fn is_shut<F: Files>(files: &mut F, log: &F::Log, at: u64) -> Result<bool, Failed>
    ensures gate { IfOk result (λ shut. IfSome (F.bytes_of log.now) (λ d.
        MatchBool shut (HasShutGate at d) (HasNoShutGate at d))) }
    ensures disk { NothingNew (F.disk files.old) (F.disk files.new) }
    ensures cause { HasCause (F.faults files.old) (F.faults files.new) result }
{
    let mut gate = [OPEN];
    let count = files.read(log, at, &mut gate)?;
    Ok(count > 0 && gate[0] != OPEN)
}

/// Closes the gate at the end of the records, where it is open or not there, and syncs. A gate that is closed is not
/// written. It answers the place of that gate: the end, or the file's length where that is less.
pub(crate) fn close_end<F: Files>(files: &mut F, log: &mut F::Log, end: u64) -> Result<u64, Failed>
    ensures any_moment { (bodies : List (List ℕ)) → IsDurable (F.disk files.old) (F.name_of log.old) (F.bytes_of log.old)
        → CrashLeaves (F.disk files.old) (F.name_of log.old) (EndsAt end bodies)
        → Touches (F.name_of log.old) (F.disk files.old) (F.disk files.new) (EndsAt end bodies) }
    ensures shut { IfOk result (λ place. IfSome (F.bytes_of log.new) (HasShutGate place)) }
    ensures told { IfOk result (λ place. (bodies : List (List ℕ)) → IfSome (F.bytes_of log.old) (EndsAt end bodies)
        → IfSome (F.bytes_of log.new) (IsShut place bodies)) }
    ensures agrees { OnOk result (Agrees (F.disk files.old) (F.name_of log.old) (F.bytes_of log.old)
        → Agrees (F.disk files.new) (F.name_of log.old) (F.bytes_of log.new)) }
    ensures durable { OnOk result (Agrees (F.disk files.old) (F.name_of log.old) (F.bytes_of log.old)
        → IsDurable (F.disk files.old) (F.name_of log.old) (F.bytes_of log.old)
        → IsDurable (F.disk files.new) (F.name_of log.old) (F.bytes_of log.new)) }
    ensures rests { IfOk result (λ place. (bodies : List (List ℕ))
        → Agrees (F.disk files.old) (F.name_of log.old) (F.bytes_of log.old)
        → IsDurable (F.disk files.old) (F.name_of log.old) (F.bytes_of log.old)
        → CrashLeaves (F.disk files.old) (F.name_of log.old) (EndsAt end bodies)
        → Shows (F.disk files.new) (F.name_of log.old) (F.bytes_of log.new) (IsShut place bodies)) }
    ensures place { IfOk result (λ place. place ≤ end) }
    ensures small { IfOk result (λ place. place ≤ 2 ^ 63) }
    ensures in_range { IfOk result (λ place. IfSome (F.bytes_of log.new) (λ d. place < length d)) }
    ensures name { F.name_of log.new ≡ F.name_of log.old }
    ensures cause { HasCause (F.faults files.old) (F.faults files.new) result }
{
    let place = end.min(files.length(log)?);
    if is_shut(files, log, place)? {
        return Ok(place);
    }
    store(files, log, place, &[SHUT])?;
    Ok(place)
}

/// Closes the first gate, where it is open or not there, and syncs. A gate that is closed is not written.
pub(crate) fn close_first<F: Files>(files: &mut F, log: &mut F::Log) -> Result<(), Failed>
    ensures any_moment { (bodies : List (List ℕ)) → IsDurable (F.disk files.old) (F.name_of log.old) (F.bytes_of log.old)
        → CrashLeaves (F.disk files.old) (F.name_of log.old) (λ c. records c ≡ bodies)
        → Touches (F.name_of log.old) (F.disk files.old) (F.disk files.new) (HasRecordsOrNone bodies) }
    ensures told { OnOk result (IfSome (F.bytes_of log.new) (IsShut 0 [])) }
    ensures rests { OnOk result (Agrees (F.disk files.old) (F.name_of log.old) (F.bytes_of log.old)
        → IsDurable (F.disk files.old) (F.name_of log.old) (F.bytes_of log.old)
        → Shows (F.disk files.new) (F.name_of log.old) (F.bytes_of log.new) (IsShut 0 [])) }
    ensures in_range { OnOk result (IfSome (F.bytes_of log.new) (λ d. 0 < length d)) }
    ensures name { F.name_of log.new ≡ F.name_of log.old }
    ensures cause { HasCause (F.faults files.old) (F.faults files.new) result }
{
    if is_shut(files, log, 0)? {
        return Ok(());
    }
    store(files, log, 0, &[SHUT])
}
