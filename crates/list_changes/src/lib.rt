//! What the planners of the commands on lists share: a list is found, its items are looked up, and the rows of a change are put
//! together.
//!
//! `specs/Found.antt` says what is found of a list, and `specs/Ends.antt` how its ends move.
#![tactic(auto, using(lives_model::specs::ViewLaws::reading))]

mod ends;
mod found;
mod items;
mod places;
mod plain;

pub use ends::{is_too_long, sight_popped, sight_pushed};
pub use found::{
    ListFound, end_index, find_list, item_raw, items_found, list_on, read_end, read_item,
    read_place,
};
pub use items::{cut_item, cut_items, put_item, put_items};
pub use places::place;
pub use plain::{gone_plan, list_plan};
