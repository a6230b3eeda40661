//! Texts of one sender's mail that were loaded together.
ghost use Rattle.std.specs.Prelude.{◌≡◌, [], Some, Contains, IfSome};
ghost use Rattle.std.specs.FinMap.{get};
ghost use Rattle.office_mail.specs.Kept.{Kept};
ghost use Rattle.office_store_testing_tables.specs.steps.Loaded.{AreLettersOf};

use office_store_keeper::Letter;
use std::alloc::Global;

/// Texts of one sender, by number.
#[derive(Drop)]
pub struct LoadedLetters {
    pub sender: u32,
    pub letters: Vec<Letter>,
}

/// A block without texts.
pub fn no_block(alloc: Global) -> LoadedLetters
    ensures { result.letters.items ≡ [] }
{
    LoadedLetters {
        sender: 0,
        letters: Vec::new(alloc),
    }
}

/// The letter with a number, found by binary search.
fn letter_of(letters: &[Letter], number: u32) -> Option<&Letter>
    ensures { IfSome result (λ letter. Contains letters.now letter.now × (letter.now.number ≡ number)) }
{
    let place = letters.partition_point(|letter| letter.number < number);
    let letter = letters.get(place)?;
    if letter.number == number {
        Some(letter)
    } else {
        None
    }
}

/// The text at a place, if it was loaded.
pub fn loaded_text(block: &LoadedLetters, sender: u32, number: u32) -> Option<&[u8]>
    ensures { IfSome result (λ text. (kept : Kept) → AreLettersOf kept block.now.sender block.now.letters.items → get kept (sender, number) ≡ Some text.now) }
{
    if block.sender != sender {
        return None;
    }
    let letter = letter_of(&block.letters, number)?;
    Some(letter.text.as_slice())
}
