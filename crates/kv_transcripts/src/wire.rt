//! Requests and replies as they go over the wire.

use crate::bytes::push_text;
use crate::fault::Fault;
use kv_base::{Blob, Blobs};
use std::alloc::Global;

/// Adds a line and its end.
fn push_line(bytes: &mut Vec<u8>, line: &str) -> Result<(), Fault> {
    bytes.extend_from_slice(line.as_bytes())?;
    bytes.extend_from_slice(b"\r\n")?;
    Ok(())
}

/// Adds a byte string: its length, and the bytes that a text stands for.
fn push_bulk(alloc: Global, bytes: &mut Vec<u8>, text: &str) -> Result<(), Fault> {
    let mut word = Vec::new(alloc);
    push_text(&mut word, text)?;
    let length = word.len();
    push_line(bytes, &format!(in alloc; "${length}")?)?;
    bytes.extend_from_slice(&word)?;
    push_line(bytes, "")
}

/// What stands between quotes.
pub fn quoted(word: &str) -> Option<&str> {
    word.strip_prefix('"')?.strip_suffix('"')
}

/// Adds a request of these words, as an array.
pub fn push_request(alloc: Global, bytes: &mut Vec<u8>, text: &str) -> Result<(), Fault> {
    let count = text.split_whitespace().count();
    push_line(bytes, &format!(in alloc; "*{count}")?)?;
    for word in text.split_whitespace() {
        push_bulk(alloc, bytes, quoted(word).unwrap_or(word))?;
    }
    Ok(())
}

/// Adds a reply: an error, which takes the whole text, or parts with spaces between them.
fn push_reply(alloc: Global, bytes: &mut Vec<u8>, text: &str) -> Result<(), Fault> {
    if text.starts_with('-') {
        return push_line(bytes, text);
    }
    for part in text.split_whitespace() {
        push_part(alloc, bytes, part)?;
    }
    Ok(())
}

fn push_part(alloc: Global, bytes: &mut Vec<u8>, part: &str) -> Result<(), Fault> {
    if let Some(text) = quoted(part) {
        return push_bulk(alloc, bytes, text);
    }
    if part == "nil" {
        return push_line(bytes, "$-1");
    }
    if part.starts_with('+') || part.starts_with(':') || part.starts_with('*') {
        return push_line(bytes, part);
    }
    if part == "nothing" {
        return Ok(());
    }
    Err(Fault::Reply)
}

/// Adds a reply to each output that may be wanted. Where the text has choices, each of them leads on from each output.
pub fn push_choices(alloc: Global, outputs: &mut Blobs, text: &str) -> Result<(), Fault> {
    let mut longer = Blobs::new(alloc);
    for choice in text.split(" | ") {
        for output in outputs.as_slice() {
            let mut output = Vec::from_slice(alloc, output.bytes())?;
            push_reply(alloc, &mut output, choice)?;
            longer.push(Blob::from_vec(output))?;
        }
    }
    *outputs = longer;
    Ok(())
}
