//! The bytes that texts of a transcript stand for.

use crate::fault::Fault;
use std::alloc::Global;

/// Adds the bytes of a text, in which a backslash begins an escape.
pub fn push_text(bytes: &mut Vec<u8>, text: &str) -> Result<(), Fault> {
    for (place, piece) in text.split('\\').enumerate() {
        if place == 0 {
            bytes.extend_from_slice(piece.as_bytes())?;
        } else {
            push_escaped(bytes, piece)?;
        }
    }
    Ok(())
}

/// Adds the bytes of what stands behind a backslash, up to the next one.
fn push_escaped(bytes: &mut Vec<u8>, piece: &str) -> Result<(), Fault> {
    let (mark, rest) = piece.split_at_checked(1).ok_or(Fault::Escape)?;
    let rest = match mark {
        "r" => push_before(bytes, b'\r', rest)?,
        "n" => push_before(bytes, b'\n', rest)?,
        "t" => push_before(bytes, b'\t', rest)?,
        "s" => push_before(bytes, b' ', rest)?,
        "x" => push_hex(bytes, rest)?,
        "(" => push_repeated(bytes, rest)?,
        _ => return Err(Fault::Escape),
    };
    bytes.extend_from_slice(rest.as_bytes())?;
    Ok(())
}

/// Adds a byte, and answers the rest.
fn push_before<'a>(bytes: &mut Vec<u8>, byte: u8, rest: &'a str) -> Result<&'a str, Fault> {
    bytes.push(byte)?;
    Ok(rest)
}

/// Adds the byte of two hexadecimal digits, and answers what is behind them.
fn push_hex<'a>(bytes: &mut Vec<u8>, text: &'a str) -> Result<&'a str, Fault> {
    let (digits, rest) = text.split_at_checked(2).ok_or(Fault::Escape)?;
    let byte = u8::from_str_radix(digits, 16).map_err(|_| Fault::Escape)?;
    push_before(bytes, byte, rest)
}

/// Of `N)c` adds N times the bytes of the character c, and answers what is behind it.
fn push_repeated<'a>(bytes: &mut Vec<u8>, text: &'a str) -> Result<&'a str, Fault> {
    let (count, text) = text.split_once(')').ok_or(Fault::Escape)?;
    let count = count.parse::<u32>().map_err(|_| Fault::Number)?;
    let (letter, rest) = text.split_at_checked(1).ok_or(Fault::Escape)?;
    for _ in 0..count {
        bytes.extend_from_slice(letter.as_bytes())?;
    }
    Ok(rest)
}

/// Adds the bytes of words of hexadecimal digits.
pub fn push_hex_words(alloc: Global, bytes: &mut Vec<u8>, text: &str) -> Result<(), Fault> {
    for word in text.split_whitespace() {
        let more = hex::decode(alloc, word).map_err(|_| Fault::Hex)?;
        bytes.extend_from_slice(&more)?;
    }
    Ok(())
}
