//! Finds kept texts one after another. A sender is asked once for its next number: if it has none, its numbers are free
//! from there on, and needn't be looked for.
#![tactic(auto, using(office_core_store::proofs::LastFacts::lasting))]

ghost use Rattle.std.specs.Prelude.{◌≡◌, ℕ, None, IfOk, IsTrue};
ghost use Rattle.std.specs.FinMap.{get};
ghost use Rattle.office_mail.specs.Kept.{Kept};
ghost use Rattle.office_store_keeper.specs.Content.{IsNextNumber};
ghost use Rattle.office_core.specs.steps.Asked.{AreFreeFrom, IsFreeFrom};
ghost use Rattle.office_core.specs.steps.AsksOnce.{AsksOnce};

use office_core_store::{StoreFault, stored};
use office_store_keeper::{Keeper, MailText};

/// What a sender answered when asked for its next number: the number from which its numbers are free, if any is known.
#[derive(Clone, Copy)]
pub struct NextFree {
    pub sender: u32,
    pub free_from: Option<u32>,
}

/// Whether a sender was asked.
fn is_asked(asked: &[NextFree], sender: u32) -> bool {
    asked.iter().any(|one| one.sender == sender)
}

/// Whether this answer of a sender shows that a number is free.
fn is_free_by(one: &NextFree, sender: u32, number: u32) -> bool
    ensures { (kept : Kept) → IsFreeFrom kept one.now.sender one.now.free_from → IsTrue result → get kept (sender, number) ≡ None }
{
    match one.free_from {
        Some(from) => one.sender == sender && from <= number,
        None => false,
    }
}

/// Whether a number is known to be free.
fn is_free(asked: &[NextFree], sender: u32, number: u32) -> bool
    ensures { (kept : Kept) → AreFreeFrom kept asked.now → IsTrue result → get kept (sender, number) ≡ None }
{
    'asked: for one in asked {
        if is_free_by(one, sender, number) {
            return true;
        }
    }
    false
}

/// The number from which numbers are free, if the next one was asked for from there.
fn free_from(next: Option<u32>, number: u32) -> Option<u32>
    ensures { (kept : Kept) (sender : ℕ) → IsNextNumber kept sender number next → IsFreeFrom kept sender result }
{
    match next {
        Some(_) => None,
        None => Some(number),
    }
}

/// Asks a sender for its next number, unless it was asked before.
fn ask<K: Keeper>(
    keeper: &mut K,
    asked: &mut Vec<NextFree>,
    sender: u32,
    number: u32,
) -> Result<(), StoreFault>
    ensures asks { AsksOnce K.Keeper keeper.old keeper.new asked.old.items asked.new.items result }
{
    if is_asked(asked, sender) {
        return Ok(());
    }
    let next = stored::next_number(keeper, sender, number)?;
    asked.push(NextFree {
        sender,
        free_from: free_from(next, number),
    })?;
    Ok(())
}

/// The kept text, or none.
pub fn find<K: Keeper>(
    keeper: &mut K,
    asked: &mut Vec<NextFree>,
    sender: u32,
    number: u32,
) -> Result<Option<MailText>, StoreFault>
    ensures found { K.is_trusted keeper.new → AreFreeFrom (K.content keeper.old).kept asked.old.items → IfOk result (λ text. text ≡ get (K.content keeper.old).kept (sender, number)) }
    ensures asks { AsksOnce K.Keeper keeper.old keeper.new asked.old.items asked.new.items result }
{
    ask(keeper, asked, sender, number)?;
    if is_free(asked, sender, number) {
        return Ok(None);
    }
    stored::find(keeper, sender, number)
}
