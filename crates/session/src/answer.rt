ghost use Rattle.std.specs.Prelude.{◌≡◌, ◌++◌, codes, decimal};
ghost use Rattle.kv_outside.specs.Writing.{Writes};
ghost use Rattle.session.specs.Answer.{say, quits, refusal_line, error_line, desk_fault_line, damage_line};

use cmd_words::CommandFault;
use itoa::Buffer;
use kv_base::{FileName, TableId};
use kv_outside::{Failed, Sink, write_pieces};
use redis_model::{DeskFault, Reply};
use resp_wire::write_reply;

/// The answer to a request.
#[derive(Drop)]
pub enum Answer {
    /// The machine's reply.
    Reply(Reply),
    /// The words are no command, or there was no memory to read them.
    Refused(CommandFault),
    /// The words ask for what is not served yet.
    Unserved,
    /// The desk has no reply.
    Fault(DeskFault),
    /// `QUIT`: the session is over.
    Quit,
}

impl Answer {
    /// Whether the session is over with this answer.
    pub fn is_quit(&self) -> bool
        ensures { result ≡ quits self.now }
    {
        matches!(self, Answer::Quit)
    }
}

fn write_refusal<K: Sink>(fault: &CommandFault, sink: &mut K) -> Result<(), Failed>
    ensures { Writes (K.held sink.old) (K.held sink.new) (K.faults sink.old) (K.faults sink.new) (refusal_line fault.now) result }
{
    let text = fault.text();
    write_error(text.before, text.name, text.after, sink)
}

/// Writes an error whose text is given in pieces.
fn write_error<K: Sink>(
    before: &[u8],
    name: &[u8],
    after: &[u8],
    sink: &mut K,
) -> Result<(), Failed>
    ensures { Writes (K.held sink.old) (K.held sink.new) (K.faults sink.old) (K.faults sink.new) (error_line (before.now ++ name.now ++ after.now)) result }
{
    write_pieces(&[b"-", before, name, after, b"\r\n"], sink)
}

/// Writes the line `-DAMAGED FILE PLACE`: what was read of the file is off its grammar at that place. It takes no memory.
pub fn write_damaged<K: Sink>(file: FileName, place: u64, sink: &mut K) -> Result<(), Failed>
    ensures { Writes (K.held sink.old) (K.held sink.new) (K.faults sink.old) (K.faults sink.new) (damage_line file place) result }
{
    match file {
        FileName::SlotA => write_damage(b"slot-a", place, sink),
        FileName::SlotB => write_damage(b"slot-b", place, sink),
        FileName::Segment(number) => write_damaged_segment(number, place, sink),
        FileName::Table(id) => write_damaged_table(id, place, sink),
    }
}

fn write_damage<K: Sink>(name: &[u8], place: u64, sink: &mut K) -> Result<(), Failed>
    ensures { Writes (K.held sink.old) (K.held sink.new) (K.faults sink.old) (K.faults sink.new) (error_line (codes "DAMAGED " ++ name.now ++ codes " " ++ decimal place)) result }
{
    let mut at = Buffer::new();
    let at = at.format(place).as_bytes();
    write_pieces(&[b"-DAMAGED ", name, b" ", at, b"\r\n"], sink)
}

fn write_damaged_segment<K: Sink>(number: u64, place: u64, sink: &mut K) -> Result<(), Failed>
    ensures { Writes (K.held sink.old) (K.held sink.new) (K.faults sink.old) (K.faults sink.new) (damage_line (FileName.Segment number) place) result }
{
    let mut name = Buffer::new();
    let mut at = Buffer::new();
    let name = name.format(number).as_bytes();
    let at = at.format(place).as_bytes();
    write_pieces(&[b"-DAMAGED wal-", name, b" ", at, b"\r\n"], sink)
}

fn write_damaged_table<K: Sink>(id: TableId, place: u64, sink: &mut K) -> Result<(), Failed>
    ensures { Writes (K.held sink.old) (K.held sink.new) (K.faults sink.old) (K.faults sink.new) (damage_line (FileName.Table id) place) result }
{
    let mut run = Buffer::new();
    let mut part = Buffer::new();
    let mut at = Buffer::new();
    let run = run.format(id.run).as_bytes();
    let part = part.format(id.part).as_bytes();
    let at = at.format(place).as_bytes();
    write_pieces(&[b"-DAMAGED t-", run, b"-", part, b" ", at, b"\r\n"], sink)
}

fn write_fault<K: Sink>(fault: DeskFault, sink: &mut K) -> Result<(), Failed>
    ensures { Writes (K.held sink.old) (K.held sink.new) (K.faults sink.old) (K.faults sink.new) (desk_fault_line fault) result }
{
    match fault {
        DeskFault::IoError => write_pieces(&[b"-IOERR a file call failed\r\n"], sink),
        DeskFault::NoMem => write_pieces(&[b"-NOMEM no memory\r\n"], sink),
        DeskFault::Damaged { file, place } => write_damaged(file, place, sink),
        DeskFault::SeqFull => write_pieces(&[b"-ERR sequence exhausted\r\n"], sink),
        DeskFault::TooBig => write_pieces(&[b"-ERR batch too large\r\n"], sink),
        DeskFault::Busy => write_pieces(&[b"-BUSY another job is open\r\n"], sink),
    }
}

/// Writes an answer. It takes no memory.
#[tactic(auto, unfolding(crate::specs::Answer::say))]
pub fn write_answer<K: Sink>(answer: &Answer, sink: &mut K) -> Result<(), Failed>
    ensures { Writes (K.held sink.old) (K.held sink.new) (K.faults sink.old) (K.faults sink.new) (say answer.now) result }
{
    match answer {
        Answer::Reply(reply) => write_reply(reply, sink),
        Answer::Refused(fault) => write_refusal(fault, sink),
        Answer::Unserved => write_refusal(&CommandFault::Unknown, sink),
        Answer::Fault(fault) => write_fault(*fault, sink),
        Answer::Quit => write_reply(&Reply::Ok, sink),
    }
}
