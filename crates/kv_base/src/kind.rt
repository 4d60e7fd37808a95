/// The collections whose elements have no places: all but lists.
#[derive(Clone, Copy, Debug, PartialEq, Eq)]
pub enum Kind {
    Hash,
    Set,
    ZSet,
}
