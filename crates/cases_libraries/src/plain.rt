//! Bytes from texts in which a backslash begins what can't be written.

use std::alloc::{AllocError, Global};

/// The bytes that a step's text means. They end with a line end, unless the text ends with a backslash.
pub fn bytes_of(alloc: Global, text: &str) -> Result<Vec<u8>, AllocError> {
    let mut bytes = plain_bytes(alloc, text)?;
    if !text.ends_with('\\') {
        bytes.push(b'\n')?;
    }
    Ok(bytes)
}

/// The bytes that a text means.
pub fn plain_bytes(alloc: Global, text: &str) -> Result<Vec<u8>, AllocError> {
    let mut bytes = Vec::new(alloc);
    let (front, rest) = text.split_once('\\').unwrap_or((text, ""));
    bytes.extend_from_slice(front.as_bytes())?;
    for part in rest.split('\\') {
        put_part(&mut bytes, part)?;
    }
    Ok(bytes)
}

/// Adds what follows a backslash, up to the next one.
fn put_part(bytes: &mut Vec<u8>, part: &str) -> Result<(), AllocError> {
    if let Some(repeated) = part.strip_prefix('(') {
        return put_repeated(bytes, repeated);
    }
    if let [letter, rest @ ..] = part.as_bytes() {
        if let Some(byte) = byte_of(*letter) {
            bytes.push(byte)?;
        }
        bytes.extend_from_slice(rest)?;
    }
    Ok(())
}

/// The byte that a letter after a backslash means. Any other letter, like a line end, means none.
fn byte_of(letter: u8) -> Option<u8> {
    match letter {
        b'n' => Some(b'\n'),
        b'r' => Some(b'\r'),
        b't' => Some(b'\t'),
        b's' => Some(b' '),
        b'f' => Some(255),
        _ => None,
    }
}

/// Adds a text as often as the number before its first colon says.
fn put_repeated(bytes: &mut Vec<u8>, repeated: &str) -> Result<(), AllocError> {
    let (count, text) = repeated.split_once(':').unwrap_or(("0", ""));
    let count: u32 = count.parse().unwrap_or(0);
    for _ in 0..count {
        bytes.extend_from_slice(text.as_bytes())?;
    }
    Ok(())
}
