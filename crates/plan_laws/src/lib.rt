//! Laws about rows and plans that no code states: that every map of keys has rows which mean it, so the definitions leave
//! nothing out, that a plan which has not lapsed is right on later rows too, and that a transaction is planned by planning its
//! commands one after the other.
//!
//! `specs/RowsFor.antt` has the rows for a map, `specs/HoldsLater.antt` the law over plans, which stands on the law of
//! `key_locality`, by which what a command does depends on its own keys alone. `specs/Transactions.antt` says what is known
//! of a transaction whose first commands are planned.
#![tactic(auto)]

mod laws;

pub use laws::{
    commands_leave_rows_ready, every_map_has_rows, plans_hold_later, plans_stay_plans,
    transactions_are_planned_command_by_command,
};
