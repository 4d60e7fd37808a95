//! What a user of the server sees: commands, replies and the machine that answers.
//!
//! `specs/Apply.antt` is the table of the data commands on plain maps, family by family, after the Redis command
//! reference. `specs/Machine.antt` is the machine: what each entry of a history answers and leaves. `specs/Legal.antt`
//! says which histories may happen, `specs/Touched.antt` which keys a command touches, `specs/Stripes.antt` which stripes
//! its keys have, and `specs/Render.antt` which bytes a reply has on the wire. `Desk` is where a caller asks a store:
//! `specs/Desk.antt` says what a call leaves in the history and why it may fail. The functions of `laws` have no body:
//! each names a law over these definitions, which is proved.
#![tactic(auto)]

mod command;
mod desk;
mod families;
mod history;
mod laws;
mod reply;
mod stripes;
mod unbuilt;
mod upkeep;

pub use command::{
    Bound, Cmds, Command, Commands, End, Expiry, Limit, MAX_READING, Scores, When, ZAddHow,
};
pub use desk::{Desk, DeskFault, fault_in};
pub use history::{
    JobAsked, JobKind, JobMark, LEVELS, Mark, Marks, Note, Place, ReadView, Step, TableIds, Task,
};
pub use laws::{
    due_commands_stay_within_limits, moments_never_fall, reading_changes_nothing,
    reading_touches_nothing, replies_have_one_rendering, sets_of_the_same_stripes_are_equal,
    touched_keys_are_named, touched_keys_have_their_stripes, touched_keys_stand_once,
    untouched_keys_stay, valid_keys_stay_valid,
};
pub use reply::{Replies, Reply, ReplyError, TypeWord};
pub use stripes::{STRIPES, Stripes};
pub use unbuilt::{UnbuiltMap, UnbuiltRows};
pub use upkeep::Upkeep;
