//! How the ends of a list move.

ghost use Rattle.std.specs.Prelude.{◌≡◌, ◌<◌, ◌^◌, IsTrue};
ghost use Rattle.list_changes.specs.Ends.{IsSightOn, is_too_long, sight_popped, sight_pushed};
ghost use Rattle.list_plans.specs.ListRows.{end_has_room};

use list_plans::ListSight;
use redis_model::End;

/// The most items that a list has.
const MAX_SIZE: u64 = 4294967295;

/// Are so many items more at an end too many?
pub fn is_too_long(end: End, list: ListSight, count: u64) -> bool
    requires list { IsSightOn list }
    requires count { count < 2 ^ 63 }
    ensures { result ≡ is_too_long end list count }
{
    let size = list.tail - list.head + count;
    MAX_SIZE < size || !end_has_room(end, list, count)
}

/// Do the indices of so many items more at an end have 64 bits?
fn end_has_room(end: End, list: ListSight, count: u64) -> bool
    ensures { result ≡ end_has_room end list count }
{
    match end {
        End::Left => count <= list.head,
        End::Right => count <= u64::MAX - list.tail,
    }
}

/// The list after so many items more at an end.
#[tactic(auto, using(crate::specs::ItemLaws::room_before, crate::specs::ItemLaws::room_behind))]
pub fn sight_pushed(end: End, list: ListSight, count: u64) -> ListSight
    requires { IsTrue (end_has_room end list count) }
    ensures { result ≡ sight_pushed end count list }
{
    match end {
        End::Left => ListSight {
            version: list.version,
            head: list.head - count,
            tail: list.tail,
        },
        End::Right => ListSight {
            version: list.version,
            head: list.head,
            tail: list.tail + count,
        },
    }
}

/// The list after one item less at an end.
pub fn sight_popped(end: End, list: ListSight) -> ListSight
    requires { list.head < list.tail }
    ensures { result ≡ sight_popped end list }
{
    match end {
        End::Left => ListSight {
            version: list.version,
            head: list.head + 1,
            tail: list.tail,
        },
        End::Right => ListSight {
            version: list.version,
            head: list.head,
            tail: list.tail - 1,
        },
    }
}
