//! Keeps texts together: their letters are gathered first, and then kept all at once.
#![tactic(auto, using(office_core_store::proofs::LastFacts::lasting))]

ghost use Rattle.std.specs.Prelude.{is_ok, ◌≡◌, ◌≢◌, ◌<◌, ◌++◌, ◌∷◌, [], false, Ok, Err, None, Some, IfOk, OnOk, OnErr, IfSome, bytes_eq, length, if◌then◌else◌};
ghost use Rattle.std.specs.Option.{option_map};
ghost use Rattle.office_store_keeper.specs.NewMail.{AreFree, with_letters, with_mail};
ghost use Rattle.office_mail.specs.Kept.{kept_from, place_of, IsPlace, Within};
ghost use Rattle.office_mail.specs.Lists.{Lists};
ghost use Rattle.office_mail.specs.Read.{read};
ghost use Rattle.office_core_store.specs.Counted.{Counted};
ghost use Rattle.office_core.specs.steps.Asked.{AreFreeFrom};
ghost use Rattle.office_core.specs.steps.AsksOnce.{AsksOnce};
ghost use Rattle.office_core.specs.steps.ChangesStore.{ChangesStore};
ghost use Rattle.office_core.specs.steps.GatherSteps.{ArePlaced, Gathers, TakesText, letter_of, own_text};
ghost use Rattle.office_core.specs.steps.OnlyTakesMail.{OnlyTakesMail};
ghost use Rattle.office_core.specs.Together.{AreHeldHere, answers_to};
ghost use Rattle.office_core_store.specs.ReadsStore.{ReadsStore};
ghost use Rattle.office_core.specs.steps.StaysOffice.{StaysOffice};

use crate::asked::{NextFree, find};
use crate::delivery::compare;
use office_core_replies::{DeliverFault, Held};
use office_core_store::StoreFault;
use office_mail::{MailFault, Message, Setup, read_message};
use office_store_keeper::{Keeper, MailText, NewLetter};
use std::alloc::Global;

/// The answer to a delivery.
pub type Reply = Result<Held, DeliverFault>;

/// What is gathered from texts: the letters to keep, and the answer to each text once they are kept.
#[derive(Drop)]
struct Batch {
    letters: Vec<NewLetter>,
    replies: Vec<Reply>,
}

/// The answer by a letter of the block itself, if one has this sender and number.
fn own_answer(letters: &[NewLetter], held: Held, text: &[u8]) -> Option<Reply>
    ensures { result ≡ option_map (λ kept. if bytes_eq kept text.now then Ok held else Err DeliverFault.OtherText) (own_text letters.now held.sender held.number) }
{
    'letters: for letter in letters {
        if letter.sender == held.sender && letter.number == held.number {
            return Some(compare(held, &letter.text, text));
        }
    }
    None
}

/// Adds a letter with this text, which is shared if possible.
fn add_letter(
    alloc: Global,
    letters: &mut Vec<NewLetter>,
    held: Held,
    text: &MailText,
) -> Result<(), StoreFault>
    ensures ok { OnOk result (letters.new.items ≡ letters.old.items ++ letter_of held text.now ∷ []) }
    ensures err { OnErr result (letters.new.items ≡ letters.old.items) }
    ensures short { OnErr result (result ≡ Err StoreFault.NoMemory) }
{
    let text = text.share(alloc)?;
    letters.push(NewLetter {
        sender: held.sender,
        number: held.number,
        text,
    })?;
    Ok(())
}

/// Answers a message by the block's own letters, or else by what is kept. If its number is free, its letter is added.
fn answer_message<K: Keeper>(
    alloc: Global,
    keeper: &mut K,
    asked: &mut Vec<NextFree>,
    letters: &mut Vec<NewLetter>,
    message: &Message,
    text: &MailText,
) -> Result<Reply, StoreFault>
    ensures takes { (setup : Lists) → read setup text.now ≡ Ok message.now → K.is_trusted keeper.new → AreFreeFrom (K.content keeper.old).kept asked.old.items → IfOk result (λ reply. TakesText setup (K.content keeper.old).kept letters.old.items letters.new.items text.now reply) }
    ensures placed { (setup : Lists) → IsPlace setup (place_of message.now) → ArePlaced setup letters.old.items → ArePlaced setup letters.new.items }
    ensures held { IfOk result (λ reply. IfOk reply (λ held. held.sender ≡ message.now.sender)) }
    ensures asks { AsksOnce K.Keeper keeper.old keeper.new asked.old.items asked.new.items result }
{
    let held = Held {
        sender: message.sender,
        number: message.number,
    };
    if let Some(reply) = own_answer(letters, held, text.as_slice()) {
        return Ok(reply);
    }
    match find(keeper, asked, held.sender, held.number)? {
        Some(kept) => Ok(compare(held, &kept, text.as_slice())),
        None => {
            add_letter(alloc, letters, held, text)?;
            Ok(Ok(held))
        }
    }
}

/// Whether memory ran out.
fn is_short(fault: MailFault) -> bool
    ensures { result ≡ false → fault ≢ MailFault.NoMemory }
{
    match fault {
        MailFault::NoMemory => true,
        _ => false,
    }
}

/// Answers one more text.
fn gather<K: Keeper>(
    alloc: Global,
    setup: &Setup,
    keeper: &mut K,
    asked: &mut Vec<NextFree>,
    letters: &mut Vec<NewLetter>,
    text: &MailText,
) -> Result<Reply, StoreFault>
    ensures takes { K.is_trusted keeper.new → AreFreeFrom (K.content keeper.old).kept asked.old.items → IfOk result (λ reply. TakesText setup.now (K.content keeper.old).kept letters.old.items letters.new.items text.now reply) }
    ensures placed { ArePlaced setup.now letters.old.items → ArePlaced setup.now letters.new.items }
    ensures place { IfOk result (λ reply. IfOk reply (λ held. held.sender < length setup.now.senders)) }
    ensures asks { AsksOnce K.Keeper keeper.old keeper.new asked.old.items asked.new.items result }
{
    match read_message(alloc, setup, text.as_slice()) {
        Ok(message) => {
            let answer = answer_message(alloc, keeper, asked, letters, &message, text);
            drop(message);
            answer
        }
        Err(fault) if is_short(fault) => Err(StoreFault::NoMemory),
        Err(fault) => Ok(Err(DeliverFault::Mail(fault))),
    }
}

/// Gathers texts, one after another.
fn gather_all<K: Keeper>(
    alloc: Global,
    setup: &Setup,
    keeper: &mut K,
    texts: &[MailText],
    block: &mut Batch,
) -> Result<(), StoreFault>
    requires letters { block.old.letters.items ≡ [] }
    requires replies { block.old.replies.items ≡ [] }
    ensures gathers { K.is_trusted keeper.new → OnOk result (Gathers setup.now (K.content keeper.old).kept block.new.letters.items block.new.replies.items texts.now) }
    ensures placed { ArePlaced setup.now block.new.letters.items }
    ensures each { OnOk result (length block.new.replies.items ≡ length texts.now) }
    ensures places { AreHeldHere setup.now block.new.replies.items }
    ensures looks { ReadsStore K.Keeper keeper.old keeper.new result }
{
    let mut asked = Vec::new(alloc);
    'texts: for text in texts {
        let reply = gather(alloc, setup, keeper, &mut asked, &mut block.letters, text)?;
        block.replies.push(reply)?;
    }
    Ok(())
}

/// Keeps gathered letters, and returns whether the store did so.
fn keep_letters<K: Keeper>(keeper: &mut K, letters: &[NewLetter]) -> Result<bool, StoreFault>
    requires free { K.is_trusted keeper.old → AreFree (K.content keeper.old).kept letters.now }
    ensures kept { K.is_trusted keeper.new → K.is_legible keeper.old → IfOk result (λ all. K.content keeper.new ≡ (if all then with_mail (K.content keeper.old) letters.now else K.content keeper.old)) }
    ensures mail { K.is_trusted keeper.new → IfOk result (λ all. (K.content keeper.new).kept ≡ (if all then with_letters (K.content keeper.old).kept letters.now else (K.content keeper.old).kept)) }
    ensures reports { K.is_trusted keeper.new → (K.content keeper.new).reports ≡ (K.content keeper.old).reports }
    ensures facts { K.is_trusted keeper.new → (K.content keeper.new).facts ≡ (K.content keeper.old).facts }
    ensures err { K.is_trusted keeper.new → OnErr result (K.content keeper.new ≡ K.content keeper.old) }
    ensures changes { ChangesStore K.Keeper keeper.old keeper.new (is_ok result) }
    ensures counted { Counted (K.refusals keeper.old) (K.refusals keeper.new) result }
{
    if letters.is_empty() {
        return Ok(true);
    }
    Ok(keeper.keep_all(letters)?)
}

/// Keeps texts together, and answers them; no answer if the store keeps them best one by one.
pub fn keep_texts<K: Keeper>(
    alloc: Global,
    setup: &Setup,
    keeper: &mut K,
    texts: &[MailText],
) -> Result<Option<Vec<Reply>>, StoreFault>
    ensures answers { K.is_trusted keeper.new → IfOk result (λ replies. IfSome replies (λ rs. rs.items ≡ answers_to setup.now (K.content keeper.old).kept texts.now)) }
    ensures kept { K.is_trusted keeper.new → IfOk result (λ replies. IfSome replies (λ rs. (K.content keeper.new).kept ≡ kept_from setup.now (K.content keeper.old).kept texts.now)) }
    ensures within { K.is_trusted keeper.new → Within (K.content keeper.old).kept (K.content keeper.new).kept }
    ensures office { StaysOffice K.Keeper setup.now keeper.old keeper.new }
    ensures none { K.is_trusted keeper.new → K.is_legible keeper.old → IfOk result (λ replies. replies ≡ None → K.content keeper.new ≡ K.content keeper.old) }
    ensures each { IfOk result (λ replies. IfSome replies (λ rs. length rs.items ≡ length texts.now)) }
    ensures places { IfOk result (λ replies. IfSome replies (λ rs. AreHeldHere setup.now rs.items)) }
    ensures runs { OnlyTakesMail K.Keeper keeper.old keeper.new result }
    ensures counted { Counted (K.refusals keeper.old) (K.refusals keeper.new) result }
{
    let mut block = Batch {
        letters: Vec::new(alloc),
        replies: Vec::new(alloc),
    };
    gather_all(alloc, setup, keeper, texts, &mut block)?;
    if keep_letters(keeper, &block.letters)? {
        let Batch { letters, replies } = block;
        drop(letters);
        Ok(Some(replies))
    } else {
        drop(block);
        Ok(None)
    }
}
