use kv_base::{FileName, TableId};
use redis_model::{Command, Desk, DeskFault, Reply};

/// The sequence behind which none is left.
const LAST_SEQUENCE: u64 = (1 << 42) - 2;

/// The length of a body that is too long for a record.
const TOO_LONG: u64 = 1 << 32;

/// A desk that answers each call with another fault, and with `PONG` behind the last one. It stands for no history.
#[derive(Drop)]
pub struct FaultyDesk {
    calls: u64,
    last: Option<u64>,
    failures: u64,
    fault: Option<DeskFault>,
    sequence: u64,
    body: u64,
}

impl FaultyDesk {
    pub fn new() -> FaultyDesk {
        FaultyDesk {
            calls: 0,
            last: None,
            failures: 0,
            fault: None,
            sequence: 0,
            body: 0,
        }
    }
}

fn damaged(file: FileName, place: u64) -> Option<DeskFault> {
    Some(DeskFault::Damaged { file, place })
}

/// The fault of the call of this number, from 0.
fn fault_at(call: u64) -> Option<DeskFault> {
    match call {
        0 => Some(DeskFault::IoError),
        1 => Some(DeskFault::NoMem),
        2 => damaged(FileName::SlotA, 0),
        3 => damaged(FileName::SlotB, 1),
        4 => damaged(FileName::Segment(7), 12),
        5 => damaged(FileName::Table(TableId { run: 7, part: 2 }), 4096),
        6 => Some(DeskFault::SeqFull),
        7 => Some(DeskFault::TooBig),
        _ => None,
    }
}

impl Desk for FaultyDesk {
    ghost use Rattle.std.specs.Prelude.{[], None, false};

    ghost told = { λ d. record {
      stands = λ opening seen. ⊥;
      kept = λ failed. Unit {0};
      number = 0;
      pinned = false;
      readings = None;
      last = d.last;
      faults = d.failures;
      fault = d.fault;
      off = λ file place. Unit {0};
      sequence = d.sequence;
      body = d.body;
      planned = λ now ask. Unit {0};
      met = None;
    } };

    ghost loans = { λ d. [] };

    ghost knows = { λ d opening seen stands. absurd stands };

    fn now(&mut self) -> u64 {
        self.last = Some(5);
        5
    }

    fn call(&mut self, _now: u64, command: Command) -> Result<Reply, DeskFault> {
        drop(command);
        let fault = fault_at(self.calls);
        self.calls = self.calls.wrapping_add(1);
        match fault {
            None => {
                self.fault = None;
                self.body = 0;
                Ok(Reply::Pong)
            }
            Some(DeskFault::IoError) => {
                self.fault = Some(DeskFault::IoError);
                self.failures = self.failures.saturating_add(1);
                Err(DeskFault::IoError)
            }
            // No command is told that a job is open.
            Some(DeskFault::NoMem | DeskFault::Busy) => {
                self.fault = Some(DeskFault::NoMem);
                Err(DeskFault::NoMem)
            }
            Some(DeskFault::Damaged { file, place }) => {
                self.fault = Some(DeskFault::Damaged { file, place });
                Err(DeskFault::Damaged { file, place })
            }
            Some(DeskFault::SeqFull) => {
                self.fault = Some(DeskFault::SeqFull);
                self.sequence = LAST_SEQUENCE;
                self.body = 1;
                Err(DeskFault::SeqFull)
            }
            Some(DeskFault::TooBig) => {
                self.fault = Some(DeskFault::TooBig);
                self.sequence = 0;
                self.body = TOO_LONG;
                Err(DeskFault::TooBig)
            }
        }
    }
}
