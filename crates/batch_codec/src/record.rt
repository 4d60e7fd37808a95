use crate::batch::Batch;

/// What a record of the log says: a batch, its sequence and its moment in milliseconds.
#[derive(Drop)]
pub struct Record {
    pub seq: u64,
    pub moment: u64,
    pub batch: Batch,
}
