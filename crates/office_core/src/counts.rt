//! Counts each sender's numbers as its mail comes. So no text is loaded only to be counted.

ghost use Rattle.std.specs.Prelude.{IfOk, IfSome, IsSome};
ghost use Rattle.std.specs.FinMap.{get};
ghost use Rattle.office_mail.specs.Kept.{Kept};
ghost use Rattle.office_core_orders.specs.Ready.{HasEach};
ghost use Rattle.office_core.specs.steps.Counting.{IsKept, AreKept};

use crate::Reply;
use office_core_orders::orders::make_room;
use office_core_replies::Held;
use office_core_store::StoreFault;

/// A held message raises its sender's count, if it has the next number. If memory for the count is refused, it is
/// counted once an order asks for it.
fn count_held(counts: &mut Vec<u32>, held: Held)
    ensures { (kept : Kept) → IsSome (get kept (held.sender, held.number)) → HasEach kept counts.old.items → HasEach kept counts.new.items }
{
    if make_room(counts, held.sender).is_err() {
        return;
    }
    let place = held.sender as usize;
    if counts[place].checked_add(1) == Some(held.number) {
        counts[place] = held.number;
    }
}

/// A message held by an answer raises its sender's count.
pub fn count_reply(counts: &mut Vec<u32>, reply: &Reply)
    ensures { (kept : Kept) → IsKept kept reply.now → HasEach kept counts.old.items → HasEach kept counts.new.items }
{
    if let Ok(held) = reply {
        count_held(counts, *held);
    }
}

/// Each message held by an answer raises its sender's count.
fn count_each(counts: &mut Vec<u32>, replies: &[Reply])
    ensures { (kept : Kept) → AreKept kept replies.now → HasEach kept counts.old.items → HasEach kept counts.new.items }
{
    for reply in replies {
        count_reply(counts, reply);
    }
}

/// Each message held by an answer raises its sender's count, if the texts were kept together.
pub fn count_replies(counts: &mut Vec<u32>, answer: &Result<Option<Vec<Reply>>, StoreFault>)
    ensures { (kept : Kept) → IfOk answer.now (λ replies. IfSome replies (λ rs. AreKept kept rs.items)) → HasEach kept counts.old.items → HasEach kept counts.new.items }
{
    if let Ok(Some(replies)) = answer {
        count_each(counts, replies);
    }
}
