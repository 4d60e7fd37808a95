ghost use Rattle.std.specs.Prelude.{◌≡◌, ◌<◌, [], length, OnOk};
ghost use Rattle.session.specs.Answer.{say};
ghost use Rattle.session.specs.Serving.{Sends};

use crate::answer::{Answer, write_answer};
use kv_outside::{Failed, OutputBuffer, Sink};

/// What waits in the output is passed on where it is as long as this.
const FULL: usize = 65536;

/// Adds the answer to what waits. Where much waits, or where there is no memory for more, it is passed on.
pub fn send<K: Sink>(answer: &Answer, output: &mut OutputBuffer, sink: &mut K) -> Result<(), Failed>
    ensures sent { Sends (K.held sink.old) (K.held sink.new) output.old.bytes output.new.bytes (K.faults sink.old) (K.faults sink.new) (say answer.now) result }
    ensures little { OnOk result (length output.new.bytes < FULL) }
{
    let before = output.len();
    match write_answer(answer, output) {
        Ok(()) => pass_on(output, sink),
        Err(_) => {
            output.truncate(before);
            output.flush(sink)?;
            write_answer(answer, sink)
        }
    }
}

/// Passes on what waits, where it is much: so little waits afterwards.
fn pass_on<K: Sink>(output: &mut OutputBuffer, sink: &mut K) -> Result<(), Failed>
    ensures sent { Sends (K.held sink.old) (K.held sink.new) output.old.bytes output.new.bytes (K.faults sink.old) (K.faults sink.new) [] result }
    ensures little { OnOk result (length output.new.bytes < FULL) }
{
    if output.len() < FULL {
        return Ok(());
    }
    output.flush(sink)
}
