ghost use Rattle.std.specs.Prelude.{◌≡◌};
ghost use Rattle.life_pages.specs.LifeElements.{subkey_in};

use kv_base::Key;

/// How many bytes stand before and behind the key in the prefix of a life: its space, the length of a namespace, the
/// length of the key, and the version.
const AROUND_KEY: usize = 2 + 4 + 8;

/// What stands behind the prefix of a life in the raw key of one of its rows: a field, a member, an index. Of fewer bytes
/// than a prefix has nothing is left.
pub fn subkey_of<'a>(raw: &'a [u8], key: &Key) -> &'a [u8]
    ensures { result.now ≡ subkey_in key.now raw.now }
{
    let prefix = AROUND_KEY + key.bytes().len();
    if raw.len() < prefix {
        return &[];
    }
    &raw[prefix..]
}
