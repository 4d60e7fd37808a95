//! Rows: what a store has written at a raw key under a sequence, a value that was put or a delete.
//!
//! A store keeps many rows of one raw key. `specs/Rows.antt` says which of them shows at a sequence, and the map of raw
//! keys to values that rows are at a sequence; `specs/RowOrder.antt` has the order in which rows are kept, and what it is
//! to put rows among others; `specs/Replays.antt` has what records of batches come to, one after the other.
#![tactic(auto)]

mod laws;
mod rise;

pub use laws::{
    batches_leave_rows_in_order, batches_show_at_their_sequence, maps_have_what_shows,
    older_views_stay, one_place_shows, only_the_rows_decide, records_show_at_the_last_sequence,
    rows_in_front_win, rows_put_among_others_are_there, rows_put_among_others_show_alike,
    sorted_rows_are_what_records_come_to, the_newest_row_shows,
};
pub use rise::sequences_rise;
