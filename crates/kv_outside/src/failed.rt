/// The one fault of a call to the outside.
#[derive(Clone, Copy, Debug, PartialEq, Eq)]
pub struct Failed;
