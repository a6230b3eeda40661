//! The words that a program was started with.

use cases_faults::Met;
use std::alloc::Global;
use std::env;
use std::env::Args;

/// The words, without the program's name.
pub fn read_words(rt: &HostRuntime) -> Result<Vec<String>, Met> {
    match env::args(rt) {
        Ok(args) => all_words(rt.alloc(), args),
        Err(_) => Err(Met::NoMemory),
    }
}

/// The words in a list.
fn all_words(alloc: Global, args: Args) -> Result<Vec<String>, Met> {
    let mut words = Vec::new(alloc);
    let mut is_name = true;
    for arg in args {
        if is_name {
            is_name = false;
        } else if words.push(arg).is_err() {
            return Err(Met::NoMemory);
        }
    }
    Ok(words)
}

/// Whether a part is asked for: one of the words begins its name, or there is none.
pub fn is_chosen(words: &[String], name: &str) -> bool {
    words.is_empty() || words.iter().any(|word| name.starts_with(word.as_str()))
}
