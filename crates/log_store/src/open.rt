ghost use Rattle.std.specs.Prelude.{◌≡◌, ◌≤◌, IfOk, IfErr, false};
ghost use Rattle.log_store.specs.Keeping.{IsOpened, FailsToOpen};

use crate::store::LogStore;
use kv_base::{FileName, StoreFault};
use kv_outside::Files;
use mem_table::MemTable;
use std::alloc::Global;
use wal_log::{Segment, Stamp, read_all};

/// The number of the log's only segment.
const LOG: u64 = 1;

/// Before the first record of all, which has the sequence 1.
const BEFORE_ALL: Stamp = Stamp { seq: 0, moment: 0 };

impl<F: Files> LogStore<F> {
    /// Opens the log, and makes the rows again that its records come to. A log that is not there is an empty one. What a
    /// crash left of an append that was cut off is behind a closed gate from then on.
    ///
    /// It fails where a call to the files failed, where memory is short, and where the log is damaged: `Damaged` names
    /// the place of the first record that cannot stand there.
    pub fn open(alloc: Global, files: &mut F) -> Result<LogStore<F>, StoreFault>
        ensures opened { IfOk result (λ store. IsOpened (F.disk files.old) (F.disk files.new) store) }
        ensures sure { IfOk result (λ store. store.log.unsure ≡ false) }
        ensures planned { IfOk result (λ store. store.planned ≡ 0) }
        ensures fault { IfErr result (λ e. FailsToOpen (F.disk files.old) (F.faults files.old) (F.faults files.new) e) }
        ensures later { F.faults files.old ≤ F.faults files.new }
    {
        let found = read_all(alloc, files, LOG, BEFORE_ALL)?;
        let records = found.records.as_slice();
        let table = MemTable::replay(alloc, records)?;
        let Stamp { seq, moment } = found.last;
        let Ok(log) = Segment::resume(files, FileName::Segment(LOG), found.end) else {
            return Err(StoreFault::Failed);
        };
        Ok(LogStore {
            table,
            log,
            sequence: seq,
            floor: moment,
            written: moment,
            planned: 0,
        })
    }
}
