//! The kept numbers of a sender, one after another.
ghost use Rattle.std.specs.Prelude.{◌≡◌, ◌+◌, ◌≤◌, IfOk};
ghost use Rattle.office_store_keeper.specs.Content.{IsNextNumber, letter_at};
ghost use Rattle.office_core.specs.Preserves.{AsksOffice, Holds};
ghost use Rattle.office_core_queries.specs.steps.Numbers.{IsAbove, IsLetterAbove, HasNumber, IsNextLetter};

use office_core::Office;
use office_core_store::StoreFault;
use office_mail::MAX_NUMBER;
use office_store_keeper::{Keeper, Letter};

/// A number, if it is above another and a message may have it.
fn number_above(last: u32, number: Option<u32>) -> Option<u32>
    ensures above { IsAbove last result }
    ensures same { IsAbove last number → result ≡ number }
{
    match number {
        Some(number) if last < number && number <= MAX_NUMBER => Some(number),
        _ => None,
    }
}

/// The first kept number of a sender above another, or none.
pub fn next_above<K: Keeper>(
    office: &mut Office<K>,
    sender: u32,
    last: u32,
) -> Result<Option<u32>, StoreFault>
    requires last { last ≤ 999_999_999 }
    ensures next { Holds K.Keeper office.old office.new → IfOk result (λ number. IsNextNumber (K.content office.old).kept sender (last + 1) number) }
    ensures above { IfOk result (IsAbove last) }
    ensures asks { AsksOffice K.Keeper office.old office.new result }
{
    let number = office.next_number(sender, last + 1)?;
    Ok(number_above(last, number))
}

/// The kept text of a sender's number with the number, or none.
fn letter_at<K: Keeper>(
    office: &mut Office<K>,
    sender: u32,
    number: u32,
) -> Result<Option<Letter>, StoreFault>
    ensures letter { K.is_trusted office.new → IfOk result (λ letter. letter ≡ letter_at (K.content office.old).kept sender number) }
    ensures number { IfOk result (HasNumber number) }
    ensures asks { AsksOffice K.Keeper office.old office.new result }
{
    match office.kept_text(sender, number)? {
        Some(text) => Ok(Some(Letter { number, text })),
        None => Ok(None),
    }
}

/// The first kept text of a sender above a number, or none.
pub fn letter_above<K: Keeper>(
    office: &mut Office<K>,
    sender: u32,
    last: u32,
) -> Result<Option<Letter>, StoreFault>
    requires last { last ≤ 999_999_999 }
    ensures next { Holds K.Keeper office.old office.new → IfOk result (λ letter. IsNextLetter (K.content office.old).kept sender last letter) }
    ensures above { IfOk result (IsLetterAbove last) }
    ensures asks { AsksOffice K.Keeper office.old office.new result }
{
    match next_above(office, sender, last)? {
        Some(number) => letter_at(office, sender, number),
        None => Ok(None),
    }
}
