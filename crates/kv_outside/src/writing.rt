ghost use Rattle.std.specs.Prelude.{◌≡◌, List};
ghost use Rattle.std.specs.List.{flat_map};
ghost use Rattle.kv_outside.specs.Writing.{Writes};

use crate::failed::Failed;
use crate::sink::Sink;

/// Writes all of the piece, or a front of it where the sink fails.
pub fn write_all<K: Sink>(piece: &[u8], sink: &mut K) -> Result<(), Failed>
    ensures { Writes (K.held sink.old) (K.held sink.new) (K.faults sink.old) (K.faults sink.new) piece.now result }
{
    let mut done = 0;
    while done < piece.len() {
        let (_, rest) = piece.split_at(done);
        let count = sink.write(rest)?;
        if count == 0 {
            return Err(Failed);
        }
        done += count;
    }
    Ok(())
}

/// Writes the pieces one after the other, or a front of them where the sink fails.
pub fn write_pieces<K: Sink>(pieces: &[&[u8]], sink: &mut K) -> Result<(), Failed>
    ensures { Writes (K.held sink.old) (K.held sink.new) (K.faults sink.old) (K.faults sink.new) (flat_map (λ piece. piece.now) pieces.now) result }
{
    for piece in pieces {
        write_all(piece, sink)?;
    }
    Ok(())
}
