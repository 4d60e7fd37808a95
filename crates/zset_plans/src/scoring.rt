use kv_base::Blob;

/// What a command makes of the score of a member of a sorted set.
#[derive(Drop)]
pub struct Scoring {
    /// The member.
    pub member: Blob,
    /// The score that it has, where it is there.
    pub before: Option<i64>,
    /// The score that it is to have; without one it goes.
    pub after: Option<i64>,
}
