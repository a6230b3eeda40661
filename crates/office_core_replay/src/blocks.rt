//! A replay a block of messages at a time: the texts of a block are kept together, or else delivered one by one.
ghost use Rattle.std.specs.Prelude.{◌≡◌, ◌+◌, ◌<◌, ◌≤◌, ◌⊎◌, [], None, Some, false, flat_map, length, vec_len, vec_capacity, IfErr, IfSome, OnErr, OnOk};
ghost use Rattle.office_mail.specs.BagSteps.{ReadFails, CountsEach};
ghost use Rattle.office_mail.specs.Kept.{kept_from};
ghost use Rattle.office_mail.specs.Counts.{CountsFailure};
ghost use Rattle.office_core_replies.specs.Replies.{reply_line};
ghost use Rattle.office_mail.specs.Written.{Writes};
ghost use Rattle.office_core.specs.Together.{AreHeldHere, answers_to};
ghost use Rattle.office_core_replay.specs.steps.BlockSteps.{TakesLast, TakesTexts};
ghost use Rattle.office_core_replay.specs.Delivered.{KeepsMail};
ghost use Rattle.office_core_replay.specs.ReadsBag.{ReadsBag};
ghost use Rattle.office_core_replay.specs.steps.Calls.{DeliversBag, StopsBag, DeliversBlock, StopsBlock};
ghost use Rattle.office_core.specs.Preserves.{Preserves, Holds};
ghost use Rattle.office_core_facts.specs.State.{state_of};

use crate::end::either;
use crate::replays::{Delivered, deliver_each, deliver_one};
use crate::watcher::Watcher;
use office_core::{Office, Reply};
use office_core_replies::write_reply;
use office_mail::{Bag, BagFault, Feed, Setup, Sink, WriteFault};
use office_store_keeper::{Keeper, MailText};
use std::alloc::Global;

/// A block takes no more texts once they have that many bytes.
const FULL: usize = 1_048_576;

/// Delivers texts one by one, and returns whether one was lost. If the writer fails, the texts after that are lost.
fn deliver_texts<K: Keeper, W: Sink, V: Watcher>(
    office: &mut Office<K>,
    texts: &[MailText],
    writer: &mut W,
    watcher: &mut V,
) -> Result<bool, WriteFault>
    ensures carries { Preserves K.Keeper office.old office.new }
    ensures ok { DeliversBlock K.Keeper W.Sink office.old office.new texts.now writer.old writer.new result }
    ensures front { StopsBlock K.Keeper W.Sink office.old office.new texts.now writer.old writer.new result }
    ensures failures { CountsFailure (W.failures writer.old) (W.failures writer.new) result }
{
    let mut lost = false;
    'texts: for text in texts {
        let mark = deliver_one(office, text.as_slice(), writer, watcher)?;
        lost = either(lost, mark.is_lost());
    }
    Ok(lost)
}

/// Writes the lines that answer texts, in order. A watcher sees each answer before its line.
fn write_replies<W: Sink, V: Watcher>(
    setup: &Setup,
    texts: &[MailText],
    replies: &[Reply],
    writer: &mut W,
    watcher: &mut V,
) -> Result<(), WriteFault>
    requires each { length texts.now ≡ length replies.now }
    requires places { AreHeldHere setup.now replies.now }
    ensures { Writes W.Sink writer.old writer.new (flat_map (reply_line setup.now) replies.now) result }
{
    'lines: for place in 0..replies.len() {
        let reply = replies[place];
        watcher.delivered(texts[place].as_slice(), &reply);
        write_reply(setup, &reply, writer)?;
    }
    Ok(())
}

/// Whether one of these texts is held.
fn is_one_held(replies: &[Reply]) -> bool {
    replies.iter().any(|reply| reply.is_ok())
}

/// Settles once after texts, if one of them is held. Only the watcher learns of a fault of that settle.
fn settle_behind_texts<K: Keeper, V: Watcher>(
    office: &mut Office<K>,
    replies: &[Reply],
    watcher: &mut V,
)
    ensures carries { Preserves K.Keeper office.old office.new }
    ensures settles { Holds K.Keeper office.old office.new → KeepsMail (state_of K.Keeper office.old) (state_of K.Keeper office.new) [] }
{
    if is_one_held(replies) {
        let settled = office.settle();
        watcher.settled(&settled);
    }
}

/// Keeps texts together, and answers them; none if they are to be delivered one by one.
fn keep_together<K: Keeper>(office: &mut Office<K>, texts: &[MailText]) -> Option<Vec<Reply>>
    ensures carries { Preserves K.Keeper office.old office.new }
    ensures answers { Holds K.Keeper office.old office.new → IfSome result (λ replies. replies.items ≡ answers_to (K.setup office.old) (K.content office.old).kept texts.now) }
    ensures kept { Holds K.Keeper office.old office.new → IfSome result (λ replies. (K.content office.new).kept ≡ kept_from (K.setup office.old) (K.content office.old).kept texts.now) }
    ensures finished { Holds K.Keeper office.old office.new → (state_of K.Keeper office.new).finished ≡ (state_of K.Keeper office.old).finished }
    ensures none { Holds K.Keeper office.old office.new → result ≡ None → K.content office.new ≡ K.content office.old }
    ensures each { IfSome result (λ replies. length replies.items ≡ length texts.now) }
    ensures places { IfSome result (λ replies. AreHeldHere (K.setup office.old) replies.items) }
{
    match office.deliver_together(texts) {
        Ok(replies) => replies,
        Err(_) => None,
    }
}

/// Answers texts that are kept together, and settles after them.
fn answer_texts<K: Keeper, W: Sink, V: Watcher>(
    office: &mut Office<K>,
    texts: &[MailText],
    replies: &[Reply],
    writer: &mut W,
    watcher: &mut V,
) -> Result<(), WriteFault>
    requires each { length texts.now ≡ length replies.now }
    requires places { AreHeldHere (K.setup office.old) replies.now }
    ensures carries { Preserves K.Keeper office.old office.new }
    ensures settles { Holds K.Keeper office.old office.new → KeepsMail (state_of K.Keeper office.old) (state_of K.Keeper office.new) [] }
    ensures err { OnErr result (office.new ≡ office.old) }
    ensures writes { Writes W.Sink writer.old writer.new (flat_map (reply_line (K.setup office.old)) replies.now) result }
{
    write_replies(office.setup(), texts, replies, writer, watcher)?;
    settle_behind_texts(office, replies, watcher);
    Ok(())
}

/// Delivers texts, together or else one by one, and returns whether one was lost.
fn deliver_block<K: Keeper, W: Sink, V: Watcher>(
    office: &mut Office<K>,
    texts: &[MailText],
    writer: &mut W,
    watcher: &mut V,
) -> Result<bool, WriteFault>
    ensures carries { Preserves K.Keeper office.old office.new }
    ensures ok { DeliversBlock K.Keeper W.Sink office.old office.new texts.now writer.old writer.new result }
    ensures front { StopsBlock K.Keeper W.Sink office.old office.new texts.now writer.old writer.new result }
    ensures failures { CountsFailure (W.failures writer.old) (W.failures writer.new) result }
{
    match keep_together(office, texts) {
        Some(replies) => {
            answer_texts(office, texts, &replies, writer, watcher)?;
            Ok(false)
        }
        None => deliver_texts(office, texts, writer, watcher),
    }
}

/// Takes the next texts of a bag as long as there is room for them, or until they are long enough. If the bag stopped
/// after them, the result is `Err` with its end.
fn take_texts<R: Feed>(bag: &mut Bag<R>, texts: &mut Vec<MailText>) -> Result<(), Option<BagFault>>
    requires open { bag.old.ended ≡ false }
    requires none { texts.old.items ≡ [] }
    requires room { vec_len texts.old < vec_capacity texts.old }
    ensures took { OnOk result (TakesTexts bag.old bag.new texts.new.items) }
    ensures last { IfErr result (λ end. TakesLast bag.old bag.new texts.new.items end) }
    ensures open { OnOk result (bag.new.ended ≡ false) }
    ensures room { OnOk result (bag.new.room < bag.old.room) }
    ensures clean { OnOk result (bag.new.failures ≡ bag.old.failures) }
    ensures read_cause { IfErr result (λ end. end ≡ Some BagFault.ReadFault → ReadFails bag.old bag.new) }
    ensures read_clean { IfErr result (λ end. (end ≡ Some BagFault.ReadFault) ⊎ (bag.new.failures ≡ bag.old.failures)) }
    ensures reads { bag.new.reads ≤ 1_000_000 }
    ensures calls { bag.new.calls + bag.old.reads ≤ bag.old.calls + bag.new.reads }
    ensures counts { CountsEach bag.old bag.new }
    ensures capacity { vec_capacity texts.new ≡ vec_capacity texts.old }
{
    let mut bytes: usize = 0;
    'messages: loop {
        match bag.next() {
            Ok(Some(text)) => {
                bytes = bytes.saturating_add(text.len());
                texts.push_reserved(MailText::of(text));
                if bytes >= FULL || texts.len() >= texts.capacity() {
                    return Ok(());
                }
            }
            Ok(None) => return Err(None),
            Err(fault) => return Err(Some(fault)),
        }
    }
}

/// Delivers the messages of a bag, as many together as there is room for their texts, up to its end.
fn deliver_blocks<K: Keeper, R: Feed, W: Sink, V: Watcher>(
    office: &mut Office<K>,
    bag: &mut Bag<R>,
    texts: &mut Vec<MailText>,
    writer: &mut W,
    watcher: &mut V,
) -> Result<Delivered, WriteFault>
    requires open { bag.old.ended ≡ false }
    requires room { 0 < vec_capacity texts.old }
    ensures carries { Preserves K.Keeper office.old office.new }
    ensures all { DeliversBag K.Keeper W.Sink office.old office.new bag.old bag.new writer.old writer.new result }
    ensures front { StopsBag K.Keeper W.Sink office.old office.new bag.old bag.new writer.old writer.new result }
    ensures read { ReadsBag bag.old bag.new result (λ delivered. delivered.end) }
    ensures reads { bag.new.reads ≤ 1_000_000 }
    ensures counts { CountsEach bag.old bag.new }
    ensures failures { CountsFailure (W.failures writer.old) (W.failures writer.new) result }
{
    let mut lost = false;
    'rounds: loop {
        texts.clear();
        let taken = take_texts(bag, texts);
        let lost_more = deliver_block(office, texts, writer, watcher)?;
        lost = either(lost, lost_more);
        match taken {
            Ok(()) => {}
            Err(end) => return Ok(Delivered { end, lost }),
        }
    }
}

/// Room for that many texts of a block; none for one text, and none if memory is short.
fn room_for(alloc: Global, together: usize) -> Option<Vec<MailText>>
    ensures { IfSome result (λ texts. 0 < vec_capacity texts) }
{
    if together < 2 {
        return None;
    }
    Vec::with_capacity(alloc, together).ok()
}

/// Delivers the messages of a bag, as many together as the store keeps best, up to its end.
pub(crate) fn deliver_all<K: Keeper, R: Feed, W: Sink, V: Watcher>(
    office: &mut Office<K>,
    bag: &mut Bag<R>,
    writer: &mut W,
    watcher: &mut V,
) -> Result<Delivered, WriteFault>
    requires { bag.old.ended ≡ false }
    ensures carries { Preserves K.Keeper office.old office.new }
    ensures all { DeliversBag K.Keeper W.Sink office.old office.new bag.old bag.new writer.old writer.new result }
    // What a writer that fails leaves: the bag may have stopped already, after the last block.
    ensures front { StopsBag K.Keeper W.Sink office.old office.new bag.old bag.new writer.old writer.new result }

    // If the bag is refused for a read, one failed, or the last of 1,000,000 didn't meet the end. If it isn't, none
    // failed. Each counted read was a call of the reader.
    ensures read { ReadsBag bag.old bag.new result (λ delivered. delivered.end) }
    ensures reads { bag.new.reads ≤ 1_000_000 }
    ensures counts { CountsEach bag.old bag.new }

    ensures failures { CountsFailure (W.failures writer.old) (W.failures writer.new) result }
{
    match room_for(office.alloc(), office.keeps_together()) {
        Some(texts) => {
            let mut texts = texts;
            let delivered = deliver_blocks(office, bag, &mut texts, writer, watcher);
            drop(texts);
            delivered
        }
        None => deliver_each(office, bag, writer, watcher),
    }
}
