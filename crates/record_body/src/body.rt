ghost use Rattle.std.specs.Prelude.{◌≡◌, ◌≤◌, length};
ghost use Rattle.record_body.specs.Framed.{framed};

use std::marker::Model;

/// The most bytes that a body has: 2^32 - 1.
pub const MAX_BODY: usize = 4_294_967_295;

/// How many bytes stand before the body: its length.
pub(crate) const BEFORE: usize = 4;

/// How many bytes stand behind the body: the next gate.
pub(crate) const BEHIND: usize = 1;

/// A body of at most 2^32 - 1 bytes, ready to be written behind its gate. Contracts see it as the list of its bytes.
#[derive(Drop)]
pub struct RecordBody {
    pub(crate) buffer: Vec<u8>,
}

impl Model for RecordBody {
    ghost use Rattle.std.specs.Prelude.{List, ℕ};
    ghost use Rattle.std.specs.Coded.{coded_list, coded_ℕ};
    ghost use Rattle.record_body.specs.Framed.{framed_body, IsFramed};

    ghost Value = { List ℕ };

    ghost coded = { coded_list coded_ℕ };

    ghost view = { λ r. framed_body r.buffer.items };

    ghost invariant = { λ r. IsFramed r.buffer.items };
}

impl RecordBody {
    /// What an append writes behind the gate: the body's length, the body, and the next gate, closed.
    pub fn framed(&self) -> &[u8]
        ensures framed { result.now ≡ framed self.now }
        ensures limit { length self.now ≤ MAX_BODY }
    {
        self.buffer.as_slice()
    }

    /// The body's bytes.
    pub fn bytes(&self) -> &[u8]
        ensures bytes { result.now ≡ self.now }
        ensures limit { length self.now ≤ MAX_BODY }
    {
        let (front, _) = self.buffer.as_slice().split_at(self.buffer.len() - BEHIND);
        let (_, body) = front.split_at(BEFORE);
        body
    }

    /// How many bytes the body has.
    pub fn len(&self) -> usize
        ensures len { result ≡ length self.now }
        ensures limit { result ≤ MAX_BODY }
    {
        self.buffer.len() - BEFORE - BEHIND
    }
}
