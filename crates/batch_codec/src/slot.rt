use kv_base::Blob;

/// What a batch does at a raw key.
#[derive(Debug, Drop)]
pub enum Slot {
    /// Puts a value there.
    Put(Blob),
    /// Deletes what is there.
    Del,
}

impl Slot {
    ghost use Rattle.std.specs.Prelude.{◌≡◌, option_map};
    ghost use Rattle.batch_codec.specs.Slots.{slot_value};

    /// The value that is put, or `None` for a delete.
    pub fn value(&self) -> Option<&[u8]>
        ensures { option_map (λ value. value.now) result ≡ slot_value self.now }
    {
        match self {
            Slot::Put(value) => Some(value.bytes()),
            Slot::Del => None,
        }
    }
}

/// A raw key, and what a batch does there.
#[derive(Drop)]
pub struct Entry {
    pub raw: Blob,
    pub slot: Slot,
}
