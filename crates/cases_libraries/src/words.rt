//! The words of the program's command line, and faults of its arguments.

use office_cli_words::{ArgsFault, args_status, read_words, words_status};
use std::alloc::{AllocError, Global};

/// The words of a text.
pub fn words_of<'a>(alloc: Global, text: &'a str) -> Result<Vec<&'a str>, AllocError> {
    let mut words = Vec::new(alloc);
    for word in text.split_whitespace() {
        words.push(word)?;
    }
    Ok(words)
}

/// Adds what the words of a text ask for, or the status for words that ask for nothing.
pub fn put_words(alloc: Global, text: &str, came: &mut String) -> Result<(), AllocError> {
    let words = words_of(alloc, text)?;
    put_asked(alloc, &words, came)
}

/// Adds what words ask for, or the status for words that ask for nothing.
fn put_asked(alloc: Global, words: &[&str], came: &mut String) -> Result<(), AllocError> {
    match read_words(alloc, words) {
        Ok(asked) => write!(came, " {asked:?}"),
        Err(fault) => write!(came, " refused, status {}", words_status(&fault)),
    }
}

/// Adds the sentence of a fault of arguments, and its status.
pub fn put_args_fault(name: &str, came: &mut String) -> Result<(), AllocError> {
    let fault = match name {
        "NoMemory" => ArgsFault::NoMemory,
        _ => ArgsFault::NotUtf8,
    };
    write!(came, " {fault}, status {}", args_status(&fault))
}
