//! The kept mail of a store, text by text.
#![tactic(auto, using(office_core_store::proofs::LastFacts::lasting))]

ghost use Rattle.std.specs.Prelude.{◌≡◌, IfOk};
ghost use Rattle.office_store_keeper.specs.Content.{IsNextNumber, letter_at};
ghost use Rattle.office_core_store.specs.ReadsStore.{ReadsStore};
ghost use Rattle.office_core_check.specs.steps.Reading.{IsFrom, IsLetterFrom, IsNextLetter};

use office_core_store::StoreFault;
use office_store_keeper::{Keeper, Letter};

/// A number, if it isn't below another.
fn number_from(from: u32, number: Option<u32>) -> Option<u32>
    ensures from { IsFrom from result }
    ensures same { IsFrom from number → result ≡ number }
{
    match number {
        Some(number) if from <= number => Some(number),
        _ => None,
    }
}

/// The least kept number of a sender from a number on, or none.
fn next_number<K: Keeper>(keeper: &mut K, sender: u32, from: u32) -> Result<Option<u32>, StoreFault>
    ensures next { K.is_trusted keeper.new → IfOk result (λ number. IsNextNumber (K.content keeper.old).kept sender from number) }
    ensures from { IfOk result (IsFrom from) }
    ensures looks { ReadsStore K.Keeper keeper.old keeper.new result }
{
    let number = keeper.next_number(sender, from)?;
    Ok(number_from(from, number))
}

/// The kept text of a sender's number with the number, or none.
fn letter_at<K: Keeper>(
    keeper: &mut K,
    sender: u32,
    number: u32,
) -> Result<Option<Letter>, StoreFault>
    ensures letter { K.is_trusted keeper.new → IfOk result (λ letter. letter ≡ letter_at (K.content keeper.old).kept sender number) }
    ensures from { IfOk result (IsLetterFrom number) }
    ensures looks { ReadsStore K.Keeper keeper.old keeper.new result }
{
    match keeper.find(sender, number)? {
        Some(text) => Ok(Some(Letter { number, text })),
        None => Ok(None),
    }
}

/// The first kept text of a sender from a number on, or none.
pub(crate) fn letter_from<K: Keeper>(
    keeper: &mut K,
    sender: u32,
    from: u32,
) -> Result<Option<Letter>, StoreFault>
    ensures next { K.is_trusted keeper.new → IfOk result (λ letter. IsNextLetter (K.content keeper.old).kept sender from letter) }
    ensures from { IfOk result (IsLetterFrom from) }
    ensures looks { ReadsStore K.Keeper keeper.old keeper.new result }
{
    match next_number(keeper, sender, from)? {
        Some(number) => letter_at(keeper, sender, number),
        None => Ok(None),
    }
}
