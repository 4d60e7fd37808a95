//! What a command finds at its key before it changes the set there.

ghost use Rattle.std.specs.Prelude.{◌≡◌, IsTrue};
ghost use Rattle.kv_base.specs.MetaValues.{is_deadline};
ghost use Rattle.kv_base.specs.RawKeys.{is_version};
ghost use Rattle.plan_base.specs.Lives.{HasSizeIn, HasVersionIn};
ghost use Rattle.plan_base.specs.MetaRows.{expire_number};
ghost use Rattle.set_cmds.specs.Found.{IsSetFound};

use life_changes::LifeFound;
use meta_codec::Kind;
use plan_base::{LifeSight, MetaKey};

/// What was found at a key, where a new life gets the version `fresh`.
pub(crate) fn set_found(
    moment: u64,
    key: MetaKey,
    old: Option<u64>,
    life: Option<LifeSight>,
    fresh: u64,
) -> LifeFound
    requires fresh { IsTrue (is_version fresh) }
    requires version { HasVersionIn life }
    requires size { HasSizeIn life }
    requires deadline { IsTrue (is_deadline (expire_number old)) }
    ensures found { IsSetFound result key }
    ensures moment { result.moment ≡ moment }
    ensures old { result.old ≡ old }
    ensures life { result.life ≡ life }
    ensures fresh { result.fresh ≡ fresh }
{
    LifeFound {
        moment,
        key,
        kind: Kind::Set,
        old,
        life,
        fresh,
    }
}
