ghost use Rattle.std.specs.Prelude.{Option, List, ℕ, Bool, length};
ghost use Rattle.std.specs.Io.{ReadsAtMost};
ghost use Rattle.std.specs.Io.KnownBytes.{ReadConsumes};
ghost use Rattle.kv_outside.specs.Causes.{HasCause};
ghost use Rattle.kv_outside.specs.Source.{MarksEnd};

use crate::failed::Failed;

/// Bytes that come in.
pub trait Source {
    /// The bytes that are left, where they are told.
    ghost left: { Self → Option (List ℕ) };

    /// Whether a read has answered the end of the input.
    ghost ended: { Self → Bool };

    /// How often a read has failed. The count never falls, and stays at 2^64 - 1.
    ghost faults: { Self → ℕ };

    /// Hands out the next bytes and answers how many these are. A 0 for a buffer with room means the end of the
    /// input. A read that fails hands out nothing, and leaves the bytes left as they were.
    fn read(&mut self, out: &mut [u8]) -> Result<usize, Failed>
        ensures bound { ReadsAtMost result out.new }
        ensures bytes { ReadConsumes (left self.old) (left self.new) result out.new }
        ensures end { MarksEnd (ended self.old) (ended self.new) (length out.new) result }
        ensures cause { HasCause (faults self.old) (faults self.new) result };
}
