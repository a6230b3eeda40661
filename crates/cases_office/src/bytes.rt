//! Bytes of texts, bags and requests, from the lines of a row.

use crate::chains::put_chain;
use std::alloc::{AllocError, Global};
use std::str;

/// Adds the text of a step, from its first word and what follows that. Some steps have none.
pub fn put_text(
    alloc: Global,
    what: &str,
    more: &str,
    lines: &str,
    text: &mut String,
) -> Result<(), AllocError> {
    match what {
        "bag" | "fail-read" | "fail-write" => put_bag(lines, text),
        "http" => put_request(more, lines, text),
        "chain" => put_chain(alloc, more, text),
        "deliver" => put_whole(lines, text),
        _ => Ok(()),
    }
}

/// Adds the text of these lines, without the last line end. No line is no text.
fn put_whole(lines: &str, text: &mut String) -> Result<(), AllocError> {
    if lines.is_empty() {
        return Ok(());
    }
    write!(text, "{lines}\n")
}

/// Adds the bag of these messages, which a line `--` separates.
fn put_bag(lines: &str, text: &mut String) -> Result<(), AllocError> {
    if !lines.is_empty() {
        for message in lines.split("\n--\n") {
            put_message(message, text)?;
        }
    }
    Ok(())
}

/// Appends its framing line and a message, without its last line end, to the bag.
pub fn put_message(message: &str, text: &mut String) -> Result<(), AllocError> {
    write!(
        text,
        "mail {}\n{message}\n",
        message.len().saturating_add(1)
    )
}

/// Adds the request for a method and a path, with a body if there is one, without its last line end.
fn put_request(what: &str, body: &str, text: &mut String) -> Result<(), AllocError> {
    let head = " HTTP/1.1\r\nHost: x\r\n";
    if body.is_empty() {
        return write!(text, "{what}{head}\r\n");
    }
    let length = body.len().saturating_add(1);
    write!(text, "{what}{head}Content-Length: {length}\r\n\r\n{body}\n")
}

/// Bytes as they are written out. A backslash begins what can't be written. Line ends in the row are none.
pub fn plain_bytes(alloc: Global, text: &str) -> Result<Vec<u8>, AllocError> {
    let mut bytes = Vec::new(alloc);
    put_plain(text, &mut bytes)?;
    Ok(bytes)
}

/// Adds these bytes.
fn put_plain(text: &str, bytes: &mut Vec<u8>) -> Result<(), AllocError> {
    let mut is_escaped = false;
    for byte in text.as_bytes() {
        let byte = *byte;
        if is_escaped {
            is_escaped = false;
            put_escaped(bytes, byte)?;
        } else if byte == b'\\' {
            is_escaped = true;
        } else if byte != b'\n' {
            bytes.push(byte)?;
        }
    }
    Ok(())
}

/// Adds what a letter after a backslash means: `\n` and `\r` are line ends, `\\` is a backslash, `\f` the byte 255,
/// `\x` 65,498 letters, `\y` 8,167.
fn put_escaped(bytes: &mut Vec<u8>, byte: u8) -> Result<(), AllocError> {
    let (meant, count) = match byte {
        b'n' => (b'\n', 1),
        b'r' => (b'\r', 1),
        b'f' => (255, 1),
        b'x' => (byte, 65_498),
        b'y' => (byte, 8_167),
        _ => (byte, 1),
    };
    put_letters(bytes, meant, count)
}

/// Adds a letter this many times.
fn put_letters(bytes: &mut Vec<u8>, letter: u8, count: u32) -> Result<(), AllocError> {
    for _ in 0..count {
        bytes.push(letter)?;
    }
    Ok(())
}

/// The text that these bytes are.
pub fn text_in(bytes: &[u8]) -> &str {
    str::from_utf8(bytes).unwrap_or("no text\n")
}

/// Adds a text, each carriage return as `\r`.
pub fn put_visible(text: &str, came: &mut String) -> Result<(), AllocError> {
    let mut parts = text.split('\r');
    came.push_str(parts.next().unwrap_or(""))?;
    for part in parts {
        came.push_str("\\r")?;
        came.push_str(part)?;
    }
    Ok(())
}
