//! Both sides of a move: the list that an item leaves, and the one that it comes to.

use list_changes::ListFound;
use list_plans::ListSight;
use plan_base::MetaKey;
use redis_model::End;

/// What was found at a key, and the end of its list that is meant.
#[derive(Drop)]
pub(crate) struct Sought {
    /// The raw key of the key's metadata.
    pub key: MetaKey,
    pub found: ListFound,
    pub end: End,
}

/// A list at a key, and the end of it that is meant. A list that begins has no items yet.
#[derive(Drop)]
pub(crate) struct Place {
    /// The raw key of the key's metadata.
    pub key: MetaKey,
    /// The deadline of the key.
    pub deadline: Option<u64>,
    pub list: ListSight,
    pub end: End,
}
