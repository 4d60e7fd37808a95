//! What a command answers, changes and touches depends on its own keys alone.
//!
//! `specs/Agree.antt` says what it means that two maps are the same on some keys, and `specs/Between.antt` when a command
//! finds at a later moment what it found before. `specs/Local.antt` has the laws of one command on a map,
//! `specs/AliveLocal.antt` those of one command on what has not expired, `specs/Until.antt` how long they last, and
//! `specs/FoldLocal.antt` those of several commands. They rest on one lemma by cases over all commands, in
//! `specs/Carried.antt`. The functions of `laws` have no body: each names a law, which is proved.
#![tactic(auto)]

mod laws;

pub use laws::{
    changes_depend_on_own_keys, commands_lapse_at_the_least_deadline,
    commands_stay_right_until_a_deadline, other_keys_stay, replies_depend_on_own_keys,
    touches_depend_on_own_keys, transactions_leave_other_keys,
    transactions_stay_right_until_a_deadline,
};
