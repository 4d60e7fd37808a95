//! The name of a tally, which a lock keeps.
use std::marker::Brand;

/// Names the tally of one store. What lies under a lock is known by its type alone, so the type names the tally whose
/// shares lie there. Each call of a program picks its name.
pub trait NamesTally {
    ghost use Rattle.atomic_table.specs.Seated.{TableId};

    ghost tally: { TableId };
}

impl NamesTally for Brand {
    ghost use Rattle.token_views.specs.Views.{no_table};

    ghost tally = { no_table };
}
