//! The steps of the tally's table.
ghost use Rattle.std.specs.Prelude.{◌≡◌, ◌<◌, ◌∷◌, ◌++◌, [], IfOk};
ghost use Rattle.key_locks.specs.Tokens.{tokens_raised, HasPair, MeetsBook};
ghost use Rattle.token_views.specs.Views.{first_token, other_tokens};
ghost use Rattle.key_locks.specs.Rule.{all_tokens};

use crate::token::{Compare, FirstToken, Raise, TakeTokens, TallySeat, TallyTable};
use atomic_table::Table;
use std::alloc::{AllocError, Global};

/// A table, and the seat that has all tokens.
pub(crate) fn open(alloc: Global) -> Result<(TallyTable, TallySeat), AllocError>
    ensures { IfOk result (λ r. (r.0.shared.table_id.words ≡ 1)
        × (r.1.table_id ≡ r.0.shared.table_id) × (r.1.me ≡ (all_tokens, []))) }
{
    Table::of_words(alloc, &[0], &())
}

/// The seat gets the other's tokens, in front of its own.
pub(crate) fn take_in(table: &TallyTable, seat: &mut TallySeat, other: TallySeat)
    requires table { (seat.old.table_id ≡ table.now.shared.table_id)
        × (other.table_id ≡ table.now.shared.table_id) × (0 < table.now.shared.table_id.words) }
    requires slots { other.me.1 ≡ [] }
    ensures table { seat.new.table_id ≡ seat.old.table_id }
    ensures tokens { seat.new.me ≡ (other.me.0 ++ seat.old.me.0, seat.old.me.1) }
{
    table.shared.join_seat::<TakeTokens>(seat, other);
}

/// The first token goes to a seat of its own.
pub(crate) fn split_first(table: &TallyTable, seat: &mut TallySeat) -> TallySeat
    requires { (seat.old.table_id ≡ table.now.shared.table_id)
        × (0 < table.now.shared.table_id.words) }
    ensures table { (seat.new.table_id ≡ seat.old.table_id)
        × (result.table_id ≡ seat.old.table_id) }
    ensures tokens { (seat.new.me ≡ (other_tokens seat.old.me.0, seat.old.me.1))
        × (result.me ≡ (first_token seat.old.me.0, [])) }
{
    table.shared.split_seat::<FirstToken>(seat)
}

/// All tokens of the first one's stripe have one count.
pub(crate) fn compare(table: &TallyTable, seat: &mut TallySeat)
    requires { (seat.old.table_id ≡ table.now.shared.table_id)
        × (0 < table.now.shared.table_id.words) }
    ensures table { seat.new.table_id ≡ seat.old.table_id }
    ensures tokens { seat.new.me ≡ seat.old.me }
    ensures meets { MeetsBook seat.old.me.0 }
{
    table.shared.load::<Compare>(seat, 0);
}

/// The same, and that count is one more.
pub(crate) fn raise(table: &TallyTable, seat: &mut TallySeat)
    requires table { (seat.old.table_id ≡ table.now.shared.table_id)
        × (0 < table.now.shared.table_id.words) }
    requires pair { HasPair seat.old.me.0 }
    ensures table { seat.new.table_id ≡ seat.old.table_id }
    ensures tokens { seat.new.me ≡ (tokens_raised seat.old.me.0, seat.old.me.1) }
    ensures meets { MeetsBook seat.old.me.0 }
{
    table.shared.load::<Raise>(seat, 0);
}
