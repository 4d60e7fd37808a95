//! The name of a hall, which a lock keeps.
use std::marker::Brand;

/// Names the hall of one store. What lies under a lock is known by its type alone, so the types of a hall and of its
/// passes name the hall's table. Each call of a program picks its name.
pub trait NamesHall {
    ghost use Rattle.atomic_table.specs.Seated.{TableId};

    ghost hall: { TableId };
}

impl NamesHall for Brand {
    ghost use Rattle.token_views.specs.Views.{no_table};

    ghost hall = { no_table };
}
