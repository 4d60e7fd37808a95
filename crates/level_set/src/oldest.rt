// The oldest of some tables.
ghost use Rattle.std.specs.Prelude.{◌≡◌, ◌<◌, length};
ghost use Rattle.level_set.specs.Choices.{is_upto as stands_upto};
ghost use Rattle.level_set.specs.Choices.{IsOldestAt};

use crate::home::Home;
use kv_base::TableId;

/// Is it of a lesser run than the other, or of the same and no greater part?
fn is_upto(id: TableId, other: TableId) -> bool
    ensures { result ≡ stands_upto id other }
{
    if id.run == other.run {
        id.part <= other.part
    } else {
        id.run < other.run
    }
}

/// The place of the table of the least run, and then the least part.
pub(crate) fn oldest(homes: &[Home]) -> usize
    requires { 0 < length homes.now }
    ensures { IsOldestAt homes.now result }
{
    let mut best = 0;
    for at in 1..homes.len() {
        if !is_upto(homes[best].desc.id, homes[at].desc.id) {
            best = at;
        }
    }
    best
}
