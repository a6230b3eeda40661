//! A part of the bag of all kept mail.
ghost use Rattle.std.specs.Prelude.{◌≡◌, ◌+◌, ◌≤◌, ◌++◌, [], ◌==◌, ◌||◌, OnOk, IfOk, length, map, nat_le};
ghost use Rattle.std.specs.List.{flat_map};
ghost use Rattle.office_mail.specs.Bag.{framed};
ghost use Rattle.office_store_keeper.specs.declared.values.Letter.{Letter};
ghost use Rattle.office_core.specs.Preserves.{AsksOffice, Holds};
ghost use Rattle.office_core_queries.specs.BagPart.{bag_part, fitting, letters_from};

use crate::numbers::letter_above;
use office_core::Office;
use office_core_store::StoreFault;
use office_mail::{Digits, MAX_NUMBER};
use office_store_keeper::{Keeper, MailText};
use std::alloc::AllocError;

/// How many bytes a part has at most, unless its first message is longer.
const ROOM: u128 = 65_536;

/// Adds a text to a bag, with the line before it.
fn push_framed(bag: &mut Vec<u8>, text: &[u8]) -> Result<(), AllocError>
    ensures { OnOk result (bag.new.items ≡ bag.old.items ++ framed text.now) }
{
    let digits = Digits::of(text.len() as u64);
    bag.extend_from_slice(b"mail ")?;
    bag.extend_from_slice(digits.as_slice())?;
    bag.extend_from_slice(b"\n")?;
    bag.extend_from_slice(text)
}

/// How long a text is with the line before it.
fn framed_len(text: &[u8]) -> u64
    ensures { result ≡ length (framed text.now) }
{
    let digits = Digits::of(text.len() as u64);
    text.len() as u64 + digits.len() as u64 + 6
}

/// Whether a text fits into a part that has that many bytes: the first one does in any case.
fn fits(bytes: usize, text: &[u8]) -> bool
    ensures { result ≡ ((bytes == 0) || nat_le (bytes + length (framed text.now)) 65_536) }
{
    bytes == 0 || bytes as u128 + framed_len(text) as u128 <= ROOM
}

/// Adds to a part those kept messages of a sender after a number that fit into it.
fn push_part<K: Keeper>(
    office: &mut Office<K>,
    sender: u32,
    behind: u32,
    bag: &mut Vec<u8>,
) -> Result<(), StoreFault>
    requires behind { behind ≤ 999_999_999 }
    ensures part { Holds K.Keeper office.old office.new → OnOk result (bag.new.items ≡ bag.old.items ++ flat_map framed (map (λ (l : Letter). l.text) (fitting (length bag.old.items) (letters_from (K.content office.old).kept sender (behind + 1))))) }
    ensures asks { AsksOffice K.Keeper office.old office.new result }
{
    let mut last = behind;
    while let Some(letter) = letter_above(office, sender, last)? {
        let text = letter.text.as_slice();
        if !fits(bag.len(), text) {
            return Ok(());
        }
        push_framed(bag, text)?;
        last = letter.number;
    }
    Ok(())
}

/// Adds to an empty part those kept messages of a sender from a number on that fit into it.
fn push_from<K: Keeper>(
    office: &mut Office<K>,
    sender: u32,
    from: u32,
    bag: &mut Vec<u8>,
) -> Result<(), StoreFault>
    ensures part { Holds K.Keeper office.old office.new → bag.old.items ≡ [] → OnOk result (bag.new.items ≡ bag_part (K.content office.old).kept sender from) }
    ensures asks { AsksOffice K.Keeper office.old office.new result }
{
    if from > MAX_NUMBER {
        return Ok(());
    }
    push_part(office, sender, from.saturating_sub(1), bag)
}

/// Some kept messages of a sender from a number on, as a bag: as many as fit into 65,536 bytes, and at least one. It is
/// empty if none is kept from that number on. The next part begins after the number of the last of these messages.
/// `sender` is its place in the setup.
///
/// It fails only if memory runs out or the store fails.
pub fn bag_part<K: Keeper>(
    office: &mut Office<K>,
    sender: u32,
    from: u32,
) -> Result<MailText, StoreFault>
    ensures part { Holds K.Keeper office.old office.new → IfOk result (λ bytes. bytes ≡ bag_part (K.content office.old).kept sender from) }
    // Nothing that is kept changes, and no run is finished.
    ensures asks { AsksOffice K.Keeper office.old office.new result }
{
    let mut bag = Vec::new(office.alloc());
    push_from(office, sender, from, &mut bag)?;
    Ok(MailText::of(bag))
}
