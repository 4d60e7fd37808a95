//! The version and the size of the life of a collection that is changed.

ghost use Rattle.std.specs.Prelude.{◌≡◌, ◌<◌, ◌^◌};
ghost use Rattle.plan_base.specs.Lives.{HasSizeIn};
ghost use Rattle.plan_base.specs.LifeSteps.{life_on};
ghost use Rattle.life_plans.specs.ChangePlans.{size_after};

use plan_base::{LifeSight, life_size};

/// The version of the life that a change writes to: of the one that was found, and else of a new one.
pub fn life_version(fresh: u64, found: Option<LifeSight>) -> u64
    ensures { result ≡ (life_on fresh found).version }
{
    match found {
        None => fresh,
        Some(life) => life.version,
    }
}

/// The number of elements after a change that adds and removes so many.
pub fn size_after(found: Option<LifeSight>, added: u64, removed: u64) -> u64
    requires size { HasSizeIn found }
    requires few { added < 2 ^ 63 }
    ensures { result ≡ size_after found added removed }
{
    let sum = life_size(found) + added;
    sum.saturating_sub(removed)
}
