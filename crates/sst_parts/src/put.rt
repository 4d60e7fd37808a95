//! Numbers and texts, written behind what a buffer has. A buffer for which there is no memory is not written any
//! further.

ghost use Rattle.std.specs.Prelude.{◌≡◌, ◌++◌, OnOk};
ghost use Rattle.kv_base.specs.Fields.{u32, u64, text as text_of};

use kv_base::NoMem;

/// These bytes.
pub(crate) fn put(buffer: &mut Vec<u8>, bytes: &[u8]) -> Result<(), NoMem>
    ensures { OnOk result (buffer.new.items ≡ buffer.old.items ++ bytes.now) }
{
    buffer.extend_from_slice(bytes)?;
    Ok(())
}

/// A number in four bytes.
#[tactic(auto, unfolding(kv_base::specs::Fields::u32))]
pub(crate) fn put_u32(buffer: &mut Vec<u8>, number: u32) -> Result<(), NoMem>
    ensures { OnOk result (buffer.new.items ≡ buffer.old.items ++ u32 number) }
{
    put(buffer, &number.to_be_bytes())
}

/// A number in eight bytes.
#[tactic(auto, unfolding(kv_base::specs::Fields::u64))]
pub(crate) fn put_u64(buffer: &mut Vec<u8>, number: u64) -> Result<(), NoMem>
    ensures { OnOk result (buffer.new.items ≡ buffer.old.items ++ u64 number) }
{
    put(buffer, &number.to_be_bytes())
}

/// A text behind its length, where that fits four bytes.
#[tactic(auto, unfolding(kv_base::specs::Fields::text), using(std::proofs::Common::append_assoc))]
pub(crate) fn put_text(buffer: &mut Vec<u8>, text: &[u8]) -> Result<(), NoMem>
    ensures { OnOk result (buffer.new.items ≡ buffer.old.items ++ text_of text.now) }
{
    let Ok(length) = u32::try_from(text.len()) else {
        return Err(NoMem);
    };
    put_u32(buffer, length)?;
    put(buffer, text)
}
