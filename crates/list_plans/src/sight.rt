/// What the metadata of a list tells.
#[derive(Clone, Copy, Debug)]
pub struct ListSight {
    /// The version of its life, which stands in the raw keys of its items.
    pub version: u64,
    /// The index of its first item.
    pub head: u64,
    /// The index behind its last item.
    pub tail: u64,
}
