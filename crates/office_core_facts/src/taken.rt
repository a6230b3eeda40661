//! What the facts take from a message, and how far orders cover a sender.
ghost use Rattle.std.specs.Prelude.{◌≡◌, Some, OnOk, max};
ghost use Rattle.testing_rules_facts.specs.Restored.{said};
ghost use Rattle.office_mail.specs.Runs.{cover_of};
ghost use Rattle.office_core_facts.specs.Outcome.{item_at, item_in_body};
ghost use Rattle.office_core_facts.specs.steps.Taking.{Took};

use deb_control::NoMemory;
use office_core_orders::orders::stated_for;
use office_mail::{Body, MailFault, RunOrder, Setup, read_message};
use std::alloc::Global;
use testing_rules_facts::Facts;
use testing_rules_items::Item;

/// Adds to the facts what a text says under its sender and number.
pub(crate) fn take_text(
    alloc: Global,
    setup: &Setup,
    facts: &mut Facts,
    sender: u32,
    number: u32,
    text: &[u8],
) -> Result<(), NoMemory>
    ensures { OnOk result (Took (item_at setup.now ((sender, number), text.now)) facts.old facts.new) }
{
    match read_message(alloc, setup, text) {
        Ok(message) => take_body(facts, sender, number, message.body),
        Err(fault) => no_message(fault),
    }
}

/// A refused text says nothing, unless memory ran out.
fn no_message(fault: MailFault) -> Result<(), NoMemory>
    ensures { OnOk result (fault ≡ MailFault.NoMemory → ⊥) }
{
    match fault {
        MailFault::NoMemory => Err(NoMemory),
        _ => Ok(()),
    }
}

/// Adds to the facts what a message says to the rules, and its texts.
pub fn take_body(facts: &mut Facts, sender: u32, number: u32, body: Body) -> Result<(), NoMemory>
    ensures { OnOk result (Took (item_in_body (sender, number) body) facts.old facts.new) }
{
    match body {
        Body::Item(item) => take_item(facts, sender, number, item),
        Body::Run(order) => {
            drop(order);
            Ok(())
        }
    }
}

/// Adds an item of a message to the facts.
fn take_item(facts: &mut Facts, sender: u32, number: u32, item: Item) -> Result<(), NoMemory>
    ensures { OnOk result (Took (Some (said sender number item)) facts.old facts.new) }
{
    facts.take_owned(sender, number, item)?;
    let _ = facts.uploads();
    Ok(())
}

/// The greatest number that the orders state for a sender, 0 if there is none.
pub fn cover_of(orders: &[RunOrder], sender: usize) -> u32
    ensures { result ≡ cover_of orders.now sender }
{
    let mut cover = 0;
    'orders: for order in orders {
        cover = greater(cover, stated_for(order, sender));
    }
    cover
}

/// The greater of two numbers.
fn greater(a: u32, b: u32) -> u32
    ensures { result ≡ max a b }
{
    if a < b { b } else { a }
}
