//! Replays of bags of mail.
ghost use Rattle.std.specs.Prelude.{◌≡◌, ◌≤◌, ◌⊎◌, false, IfOk, OnErr, is_ok};
ghost use Rattle.office_mail.specs.BagSteps.{CountsEach};
ghost use Rattle.office_core_replay.specs.ReadsBag.{ReadsBag};
ghost use Rattle.office_core_replay.specs.steps.Calls.{DeliversBag};
ghost use Rattle.office_core.specs.Preserves.{Preserves, Holds, StoreRefused};
ghost use Rattle.office_core_replay.specs.Delivered.{DeliversFront};
ghost use Rattle.office_core_replay.specs.steps.DeliverySteps.{DeliversOne, DeliversOneFront, Settles};
ghost use Rattle.office_core.specs.Laws.{RunsStand};
ghost use Rattle.office_core_replay.specs.Losses.{is_short};
ghost use Rattle.office_core_replay.specs.Replay.{ReplaysIn, StopsIn, ReplaysAll, ReplaysFront, StopsEarly, status_of};
ghost use Rattle.office_core_facts.specs.State.{state_of};
ghost use Rattle.office_mail.specs.Counts.{CountsFailure};
ghost use Rattle.office_core_replies.specs.Replies.{mark_of};

use crate::blocks::deliver_all;
use crate::end::{either, write_bag, write_end, write_refusal};
use crate::watcher::{Unwatched, Watcher};
use office_core::Office;
use office_core_replies::{DeliverFault, Held, Mark, write_reply};
use office_mail::{Bag, BagFault, Feed, MailFault, Sink, WriteFault};
use office_store_keeper::Keeper;

/// What an answer says of a delivery.
fn mark_of(reply: &Result<Held, DeliverFault>) -> Mark
    ensures { result ≡ mark_of reply.now }
{
    match reply {
        Err(DeliverFault::Mail(MailFault::NoMemory)) => Mark::LostForMemory,
        Err(DeliverFault::Store) => Mark::LostForStore,
        _ => Mark::Taken,
    }
}

/// Settles after a delivery that is held. Only the watcher learns of a fault of that settle: the next one continues.
pub fn settle_behind<K: Keeper, V: Watcher>(
    office: &mut Office<K>,
    reply: &Result<Held, DeliverFault>,
    watcher: &mut V,
)
    ensures carries { Preserves K.Keeper office.old office.new }
    ensures settles { Holds K.Keeper office.old office.new → Settles (state_of K.Keeper office.old) (state_of K.Keeper office.new) (is_ok reply.now) (StoreRefused K.Keeper office.old office.new) }
{
    if reply.is_ok() {
        let settled = office.settle();
        watcher.settled(&settled);
    }
}

/// Delivers a text, writes the line that answers it, and settles if it is held.
pub(crate) fn deliver_one<K: Keeper, W: Sink, V: Watcher>(
    office: &mut Office<K>,
    text: &[u8],
    writer: &mut W,
    watcher: &mut V,
) -> Result<Mark, WriteFault>
    ensures carries { Preserves K.Keeper office.old office.new }
    ensures ok { Holds K.Keeper office.old office.new → IfOk result (λ mark. DeliversOne (state_of K.Keeper office.old) (state_of K.Keeper office.new) text.now mark (W.written writer.old) (W.written writer.new) (StoreRefused K.Keeper office.old office.new)) }
    // What a writer that fails leaves: the text may be kept, and a prefix of the line was written.
    ensures front { Holds K.Keeper office.old office.new → OnErr result (DeliversOneFront (state_of K.Keeper office.old) (state_of K.Keeper office.new) text.now (W.written writer.old) (W.written writer.new) (StoreRefused K.Keeper office.old office.new)) }
    ensures failures { CountsFailure (W.failures writer.old) (W.failures writer.new) result }
{
    let reply = office.deliver(text);
    watcher.delivered(text, &reply);
    write_reply(office.setup(), &reply, writer)?;
    settle_behind(office, &reply, watcher);
    Ok(mark_of(&reply))
}

/// How a bag ended, and whether a delivery was lost.
#[derive(Clone, Copy)]
pub(crate) struct Delivered {
    pub(crate) end: Option<BagFault>,
    pub(crate) lost: bool,
}

/// Delivers the messages of a bag one by one, up to its end.
pub(crate) fn deliver_each<K: Keeper, R: Feed, W: Sink, V: Watcher>(
    office: &mut Office<K>,
    bag: &mut Bag<R>,
    writer: &mut W,
    watcher: &mut V,
) -> Result<Delivered, WriteFault>
    requires { bag.old.ended ≡ false }
    ensures carries { Preserves K.Keeper office.old office.new }
    ensures all { DeliversBag K.Keeper W.Sink office.old office.new bag.old bag.new writer.old writer.new result }
    ensures front { Holds K.Keeper office.old office.new → OnErr result (DeliversFront (state_of K.Keeper office.old) (state_of K.Keeper office.new) bag.old bag.new (W.written writer.old) (W.written writer.new) (StoreRefused K.Keeper office.old office.new)) }

    // If the bag is refused for a read, one failed, or the last of 1,000,000 didn't meet the end. If it isn't, none
    // failed. Each counted read was a call of the reader.
    ensures read { ReadsBag bag.old bag.new result (λ delivered. delivered.end) }
    ensures reads { bag.new.reads ≤ 1_000_000 }
    ensures counts { CountsEach bag.old bag.new }

    ensures failures { CountsFailure (W.failures writer.old) (W.failures writer.new) result }
{
    let mut lost = false;
    loop {
        match bag.next() {
            Ok(Some(text)) => {
                let mark = deliver_one(office, &text, writer, watcher)?;
                lost = lost || mark.is_lost();
            }
            Ok(None) => return Ok(Delivered { end: None, lost }),
            Err(fault) => {
                let end = Some(fault);
                return Ok(Delivered { end, lost });
            }
        }
    }
}

/// The result of a replay: why the bag was refused, and whether memory or the store lost anything.
#[derive(Clone, Copy, Debug, PartialEq, Eq)]
pub struct Replayed {
    pub bag: Option<BagFault>,
    pub lost: bool,
}

/// Delivers the messages of a bag that hasn't ended, settles, and writes the answers, the status, the reports of the
/// runs that it finished, and testing. It fails only if the writer failed or took no byte; what was delivered before
/// stays. The bag is borrowed, so the caller still has it, with what was read of its reader, how often that was asked
/// and whether it failed.
pub fn replay<K: Keeper, R: Feed, W: Sink>(
    office: &mut Office<K>,
    bag: &mut Bag<R>,
    writer: &mut W,
) -> Result<Replayed, WriteFault>
    requires { bag.old.ended ≡ false }
    // A store trusted after the call was trusted before, and holds an office's state if it did. What the replay makes
    // of it is known while it is trusted; the store loses something only if it counted a refusal.
    ensures carries { Preserves K.Keeper office.old office.new }
    ensures ok { ReplaysIn K.Keeper W.Sink office.old office.new bag.old bag.new writer.old writer.new result }
    ensures err { StopsIn K.Keeper W.Sink office.old office.new bag.old bag.new writer.old writer.new result }

    // Finished runs stay: their reports, and testing unless another run finished.
    ensures runs { Holds K.Keeper office.old office.new → RunsStand (K.content office.old) (K.content office.new) }

    // If the bag is refused for a read, one failed, or the last of 1,000,000 didn't meet the end. If it isn't, none
    // failed. Each counted read was a call of the reader.
    ensures read { ReadsBag bag.old bag.new result (λ replayed. replayed.bag) }

    // At most 1,000,000 reads are made, of at most 8,192 bytes each.
    ensures reads { bag.old.reads ≤ 1_000_000 → bag.new.reads ≤ 1_000_000 }
    ensures counts { CountsEach bag.old bag.new }

    ensures failures { CountsFailure (W.failures writer.old) (W.failures writer.new) result }
{
    replay_watched(office, bag, writer, &mut Unwatched)
}

/// Delivers the messages of a bag that hasn't ended, settles, and writes what a replay writes. A watcher sees each
/// delivery.
pub fn replay_watched<K: Keeper, R: Feed, W: Sink, V: Watcher>(
    office: &mut Office<K>,
    bag: &mut Bag<R>,
    writer: &mut W,
    watcher: &mut V,
) -> Result<Replayed, WriteFault>
    requires { bag.old.ended ≡ false }
    ensures carries { Preserves K.Keeper office.old office.new }
    ensures ok { ReplaysIn K.Keeper W.Sink office.old office.new bag.old bag.new writer.old writer.new result }
    ensures err { StopsIn K.Keeper W.Sink office.old office.new bag.old bag.new writer.old writer.new result }
    ensures runs { Holds K.Keeper office.old office.new → RunsStand (K.content office.old) (K.content office.new) }
    ensures read { ReadsBag bag.old bag.new result (λ replayed. replayed.bag) }
    ensures reads { bag.old.reads ≤ 1_000_000 → bag.new.reads ≤ 1_000_000 }
    ensures counts { CountsEach bag.old bag.new }
    ensures failures { CountsFailure (W.failures writer.old) (W.failures writer.new) result }
{
    replay_bag(office, bag, writer, watcher)
}

/// Delivers the messages of a bag, if the count of finished runs can be read.
fn replay_bag<K: Keeper, R: Feed, W: Sink, V: Watcher>(
    office: &mut Office<K>,
    bag: &mut Bag<R>,
    writer: &mut W,
    watcher: &mut V,
) -> Result<Replayed, WriteFault>
    requires { bag.old.ended ≡ false }
    ensures carries { Preserves K.Keeper office.old office.new }
    ensures ok { ReplaysIn K.Keeper W.Sink office.old office.new bag.old bag.new writer.old writer.new result }
    ensures err { StopsIn K.Keeper W.Sink office.old office.new bag.old bag.new writer.old writer.new result }
    ensures read { ReadsBag bag.old bag.new result (λ replayed. replayed.bag) }
    ensures reads { bag.old.reads ≤ 1_000_000 → bag.new.reads ≤ 1_000_000 }
    ensures counts { CountsEach bag.old bag.new }
    ensures failures { CountsFailure (W.failures writer.old) (W.failures writer.new) result }
{
    match office.finished() {
        Ok(before) => replay_from(office, before, bag, writer, watcher),
        Err(fault) => {
            write_refusal(fault, writer)?;
            Ok(Replayed {
                bag: None,
                lost: true,
            })
        }
    }
}

/// Delivers the messages of a bag, given the count of finished runs.
fn replay_from<K: Keeper, R: Feed, W: Sink, V: Watcher>(
    office: &mut Office<K>,
    before: u32,
    bag: &mut Bag<R>,
    writer: &mut W,
    watcher: &mut V,
) -> Result<Replayed, WriteFault>
    requires { bag.old.ended ≡ false }
    ensures carries { Preserves K.Keeper office.old office.new }
    ensures ok { Holds K.Keeper office.old office.new → before ≡ (state_of K.Keeper office.old).finished → IfOk result (λ replayed. ReplaysAll (state_of K.Keeper office.old) (state_of K.Keeper office.new) bag.old bag.new (W.written writer.old) (W.written writer.new) replayed (StoreRefused K.Keeper office.old office.new)) }
    ensures err { Holds K.Keeper office.old office.new → before ≡ (state_of K.Keeper office.old).finished → OnErr result (StopsEarly (state_of K.Keeper office.old) (state_of K.Keeper office.new) bag.old bag.new (W.written writer.old) (W.written writer.new) (StoreRefused K.Keeper office.old office.new)
        ⊎ ReplaysFront (state_of K.Keeper office.old) (state_of K.Keeper office.new) bag.old bag.new (W.written writer.old) (W.written writer.new) (StoreRefused K.Keeper office.old office.new)) }
    ensures read { ReadsBag bag.old bag.new result (λ replayed. replayed.bag) }
    ensures reads { bag.new.reads ≤ 1_000_000 }
    ensures counts { CountsEach bag.old bag.new }
    ensures failures { CountsFailure (W.failures writer.old) (W.failures writer.new) result }
{
    let delivered = deliver_all(office, bag, writer, watcher)?;
    let settled = office.settle().is_ok();
    write_bag(delivered.end, writer)?;
    let missing = write_end(office, before, writer)?;
    let bag_lost = either(delivered.lost, is_short(delivered.end));
    Ok(Replayed {
        bag: delivered.end,
        lost: either(either(bag_lost, !settled), missing),
    })
}

/// Whether a bag ended because memory ran out.
fn is_short(end: Option<BagFault>) -> bool
    ensures { result ≡ is_short end }
{
    match end {
        Some(BagFault::NoMemory) => true,
        _ => false,
    }
}

/// The exit status of a replay: 4 if its output failed or anything was lost, else 3 if the bag was refused, else 0.
pub fn replay_status(replayed: &Result<Replayed, WriteFault>) -> u8
    ensures { result ≡ status_of replayed.now }
{
    match replayed {
        Err(_) => 4,
        Ok(replayed) if replayed.lost => 4,
        Ok(replayed) if replayed.bag.is_some() => 3,
        Ok(_) => 0,
    }
}
