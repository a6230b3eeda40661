//! An office that is rebuilt from the mail of a store.
#![tactic(auto, using(office_core_store::proofs::LastFacts::lasting))]

ghost use Rattle.std.specs.Prelude.{◌≡◌, ◌≢◌, ◌≤◌, IsTrue, false, Some, None, Ok, IfOk, IfErr, IfSome};
ghost use Rattle.std.specs.FinMap.{get, insert};
ghost use Rattle.office_mail.specs.Kept.{placed};
ghost use Rattle.office_store_keeper.specs.Content.{no_content};
ghost use Rattle.office_store_keeper.specs.MemoryState.{content_of};
ghost use Rattle.office_core_store.specs.declared.faults.StoreFault.TheVariants as fault;
ghost use Rattle.office_core_store.specs.ReadsStore.{ReadsStore};
ghost use Rattle.office_core_check.specs.steps.Comparing.{IsAnew, IsTaken, IsAllTaken, IsShort, IsMade};
ghost use Rattle.office_core_check.specs.steps.Reading.{IsFront, IsOther};

use crate::Difference;
use crate::letters::letter_from;
use crate::memory::Bounded;
use deb_control::NoMemory;
use office_core::Office;
use office_core_replies::{DeliverFault, Held};
use office_core_store::StoreFault;
use office_mail::{MAX_NUMBER, MailFault, Setup};
use office_store_keeper::{Keeper, Letter};
use std::alloc::Global;

/// Whether an answer is that a message is held under this sender and number. Over a store in memory a fault means that
/// memory ran out.
fn is_held(answer: Result<Held, DeliverFault>, sender: u32, number: u32) -> Result<bool, StoreFault>
    ensures own { IfOk result (λ own. IsTrue own → answer ≡ Ok (record { sender = sender; number = number })) }
    ensures few { IfOk result (λ own. IsTrue own → number ≤ 999_999_999) }
    ensures other { IfOk result (λ own. own ≡ false → IsOther sender number answer) }
    ensures fault { IfErr result (λ f. f ≡ fault.NoMemory) }
{
    match answer {
        Ok(held) => Ok(held.sender == sender && held.number == number && number <= MAX_NUMBER),
        Err(DeliverFault::Mail(MailFault::NoMemory) | DeliverFault::Store) => {
            Err(StoreFault::NoMemory)
        }
        Err(DeliverFault::Mail(_) | DeliverFault::OtherText) => Ok(false),
    }
}

/// Delivers a letter of a sender to a rebuilt office, and returns whether it is a message of that sender and number.
fn take_letter(
    office: &mut Office<Bounded>,
    sender: u32,
    letter: &Letter,
) -> Result<bool, StoreFault>
    ensures own { IsAnew office.old → get (content_of office.old.plain).kept (sender, letter.now.number) ≡ None → IfOk result (λ own. IsTrue own →
        (content_of office.new.plain).kept ≡ insert (content_of office.old.plain).kept (sender, letter.now.number) letter.now.text) }
    ensures few { IfOk result (λ own. IsTrue own → letter.now.number ≤ 999_999_999) }
    ensures other { IsAnew office.old → get (content_of office.old.plain).kept (sender, letter.now.number) ≡ None → IfOk result (λ own. own ≡ false →
        placed office.old.plain.setup letter.now.text ≢ Some ((sender, letter.now.number), letter.now.text)) }
    ensures anew { IsAnew office.old → IsAnew office.new }
    ensures setup { office.new.plain.setup ≡ office.old.plain.setup }
    ensures fault { IfErr result (λ f. f ≡ fault.NoMemory) }
{
    let answer = office.deliver(letter.text.as_slice());
    is_held(answer, sender, letter.number)
}

/// Delivers the kept mail of a sender to a rebuilt office, and returns the number of the first text that isn't a
/// message of its place.
fn take_sender<K: Keeper>(
    keeper: &mut K,
    office: &mut Office<Bounded>,
    sender: u32,
) -> Result<Option<u32>, StoreFault>
    ensures taken { K.is_trusted keeper.new → IsAnew office.old → IsFront (K.content keeper.old).kept sender 0 (content_of office.old.plain).kept →
        IfOk result (IsTaken office.old.plain.setup (K.content keeper.old).kept sender (content_of office.new.plain).kept) }
    ensures anew { IsAnew office.old → IsAnew office.new }
    ensures setup { office.new.plain.setup ≡ office.old.plain.setup }
    ensures looks { ReadsStore K.Keeper keeper.old keeper.new result }
{
    let mut from = 0;
    while let Some(letter) = letter_from(keeper, sender, from)? {
        if !take_letter(office, sender, &letter)? {
            return Ok(Some(letter.number));
        }
        from = letter.number + 1;
    }
    Ok(None)
}

/// Delivers the kept mail of all senders to a rebuilt office, and returns the place of the first text that isn't a
/// message of its place.
fn take_mail<K: Keeper>(
    keeper: &mut K,
    office: &mut Office<Bounded>,
) -> Result<Option<Difference>, StoreFault>
    ensures taken { K.is_trusted keeper.new → IsAnew office.old → IsFront (K.content keeper.old).kept 0 0 (content_of office.old.plain).kept →
        IfOk result (IsAllTaken office.old.plain.setup (K.content keeper.old).kept (content_of office.new.plain).kept) }
    ensures anew { IsAnew office.old → IsAnew office.new }
    ensures setup { office.new.plain.setup ≡ office.old.plain.setup }
    ensures looks { ReadsStore K.Keeper keeper.old keeper.new result }
{
    'senders: for sender in 0..office.setup().senders().len() {
        if let Some(number) = take_sender(keeper, office, sender as u32)? {
            return Ok(Some(Difference::Mail {
                sender: sender as u32,
                number,
            }));
        }
    }
    Ok(None)
}

/// Finishes a rebuilt office's ready runs, as far as it has room, and returns the first of `runs` that isn't ready.
fn settle_to(office: &mut Office<Bounded>, runs: u32) -> Option<Difference>
    ensures short { IsAnew office.old → IfSome result (IsShort office.old.plain.setup (content_of office.old.plain).kept runs) }
    ensures kept { IsAnew office.old → (content_of office.new.plain).kept ≡ (content_of office.old.plain).kept }
    ensures anew { IsAnew office.old → IsAnew office.new }
    ensures setup { office.new.plain.setup ≡ office.old.plain.setup }
{
    match office.settle() {
        Ok(progress) if progress.ready < runs => Some(Difference::RunMail {
            run: progress.ready + 1,
        }),
        _ => None,
    }
}

/// An office for this setup, over a store in memory with room for that many runs.
pub(crate) fn new_office(
    alloc: Global,
    setup: &Setup,
    runs: u32,
) -> Result<Office<Bounded>, NoMemory>
    ensures setup { IfOk result (λ office. office.plain.setup ≡ setup.now) }
    ensures content { IfOk result (λ office. content_of office.plain ≡ no_content) }
{
    let store = Bounded::new(alloc, setup, runs)?;
    Ok(Office::new(alloc, setup.copy(alloc)?, store))
}

/// Delivers the kept mail of a store to a rebuilt office, which finishes its first runs, as many as it has room for
/// while memory lasts. Returns why no office takes this mail and finishes that many runs, if none does.
pub(crate) fn make_anew<K: Keeper>(
    keeper: &mut K,
    office: &mut Office<Bounded>,
    runs: u32,
) -> Result<Option<Difference>, StoreFault>
    ensures made { K.is_trusted keeper.new → IsAnew office.old → IsFront (K.content keeper.old).kept 0 0 (content_of office.old.plain).kept →
        IfOk result (IsMade office.new.plain.setup (K.content keeper.old).kept runs (content_of office.new.plain).kept) }
    ensures anew { IsAnew office.old → IsAnew office.new }
    ensures setup { office.new.plain.setup ≡ office.old.plain.setup }
    ensures looks { ReadsStore K.Keeper keeper.old keeper.new result }
{
    let difference = take_mail(keeper, office)?;
    if difference.is_some() {
        return Ok(difference);
    }
    Ok(settle_to(office, runs))
}
