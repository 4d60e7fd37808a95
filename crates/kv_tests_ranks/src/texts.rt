//! Replies in words.

use kv_base::Blob;
use redis_model::Reply;
use std::alloc::Global;
use std::test::Fail;

/// What a reply has, in words; those of an array are parted by one space.
pub(crate) fn text_of(alloc: Global, reply: &Reply) -> Result<String, Fail> {
    let Reply::Array(parts) = reply else {
        return word_of(alloc, reply);
    };
    let mut text = String::new(alloc);
    for part in parts.as_slice() {
        if !text.is_empty() {
            text.push(' ')?;
        }
        let word = word_of(alloc, part)?;
        text.push_str(word.as_str())?;
    }
    Ok(text)
}

fn word_of(alloc: Global, reply: &Reply) -> Result<String, Fail> {
    match reply {
        Reply::Null => Ok(format!(in alloc; "null")?),
        Reply::Int(number) => Ok(format!(in alloc; "{number}")?),
        Reply::Bulk(bytes) => bulk_of(alloc, bytes),
        Reply::Error(_) => Ok(format!(in alloc; "error")?),
        _ => Ok(format!(in alloc; "other")?),
    }
}

fn bulk_of(alloc: Global, bytes: &Blob) -> Result<String, Fail> {
    let text = str::from_utf8(bytes.bytes()).ok().ok_or("no text")?;
    Ok(format!(in alloc; "{text}")?)
}
