//! Rows in memory that planners are tested on, where there is memory.

ghost use Rattle.std.specs.Prelude.{◌≡◌, IfOk};

use batch_codec::Batch;
use kv_base::{Blob, NoMem, is_raw, is_value};
use lives_model::{ListView, RawView};
use std::test::Fail;

/// The metadata of `a`, `b` and `c`.
const A: &[u8] = b"\x6D\x00\x61";

const B: &[u8] = b"\x6D\x00\x62";

const C: &[u8] = b"\x6D\x00\x63";

/// The strings `1` and `2` with no deadline.
const ONE: &[u8] = b"\x81\x00\x00\x00\x00\x00\x00\x00\x00\x31";

const TWO: &[u8] = b"\x81\x00\x00\x00\x00\x00\x00\x00\x00\x32";

fn blob(rt: HostRuntime, bytes: &[u8]) -> Result<Blob, NoMem>
    ensures { IfOk result (λ blob. blob ≡ bytes.now) }
{
    Blob::copy(rt.alloc(), bytes)
}

/// The rows of `c`, `b` and `a`, put in this order.
fn three_rows(rt: HostRuntime) -> Result<ListView, NoMem> {
    let mut view = ListView::new(rt.alloc());
    view.insert(blob(rt, C)?, blob(rt, ONE)?)?;
    view.insert(blob(rt, B)?, blob(rt, ONE)?)?;
    view.insert(blob(rt, A)?, blob(rt, ONE)?)?;
    Ok(view)
}

/// Sets `a` to `2` and takes `b` away.
fn batch(rt: HostRuntime) -> Result<Batch, Fail> {
    if !is_value(A, TWO) || !is_raw(B) {
        return Err(Fail::from("rows"));
    }
    let mut batch = Batch::new(rt.alloc());
    batch.put(blob(rt, A)?, blob(rt, TWO)?)?;
    batch.delete(blob(rt, B)?)?;
    Ok(batch)
}

#[test]
fn rows_are_found_before_and_after_a_batch(rt: HostRuntime) -> Result<(), Fail> {
    let mut view = three_rows(rt)?;
    assert_eq!(rt; view.get(rt.alloc(), B)?, Some(blob(rt, ONE)?));
    let page = view.range(rt.alloc(), B, b"m", 1)?;
    assert_eq!(rt; page.len(), 1);
    assert_eq!(rt; page.get(0).ok_or("a row")?.raw.bytes(), B);

    view.write(rt.alloc(), &batch(rt)?)?;
    assert_eq!(rt; view.get(rt.alloc(), A)?, Some(blob(rt, TWO)?));
    assert_eq!(rt; view.get(rt.alloc(), B)?, None);
    assert_eq!(rt; view.range(rt.alloc(), b"", b"m", 9)?.len(), 2);
    Ok(())
}
