//! The message of the next order to run.
ghost use Rattle.std.specs.Prelude.{◌≡◌, ◌==◌, ◌+◌, ◌++◌, ◌∷◌, [], IfOk, OnOk, codes, decimal, length, slice_index, string_bytes};
ghost use Rattle.jiff.specs.Words.{date_text};
ghost use Rattle.office_mail.specs.Runs.{runs};
ghost use Rattle.office_core_replies.specs.Replies.{name_at};
ghost use Rattle.office_core_queries.specs.Listing.{listed_words, stated_to};
ghost use Rattle.office_core_queries.specs.NextOrder.{order_cover, order_text};

use crate::covers::{Stated, number_at, push_listed};
use deb_control::{NoMemory, Text};
use jiff::civil;
use jiff_core::civil::Date;
use office_core_replies::name_at;
use office_mail::Setup;
use std::alloc::{AllocError, Global};

/// The number up to which the order covers a sender, given these numbers without a gap: it covers no order.
fn order_cover(setup: &Setup, unbroken: &[u32], sender: usize) -> u32
    ensures { result ≡ order_cover setup.now (slice_index unbroken.now) sender }
{
    if sender == setup.runs() as usize {
        0
    } else {
        number_at(unbroken, sender)
    }
}

/// What the order states for each sender, by sender; a number of 0 states nothing.
#[tactic(auto, unfolding(crate::specs::Listing::stated_to))]
fn stated_order(alloc: Global, setup: &Setup, unbroken: &[u32]) -> Result<Vec<Stated>, AllocError>
    ensures { IfOk result (λ stated. stated.items ≡ stated_to (order_cover setup.now (slice_index unbroken.now)) (length setup.now.senders)) }
{
    let mut stated = Vec::new(alloc);
    'senders: for sender in 0..setup.senders().len() {
        let number = order_cover(setup, unbroken, sender);
        if number > 0 {
            stated.push(Stated {
                sender: sender as u32,
                number,
            })?;
        }
    }
    Ok(stated)
}

/// The number of the next order, after those kept without a gap.
fn next_number(setup: &Setup, unbroken: &[u32]) -> u64
    ensures { result ≡ slice_index unbroken.now (runs setup.now) + 1 }
{
    number_at(unbroken, setup.runs() as usize) as u64 + 1
}

/// The first lines of an order's message.
fn order_head(alloc: Global, setup: &Setup, number: u64) -> Result<String, AllocError>
    ensures { IfOk result (λ text. string_bytes text ≡ codes "From: " ++ name_at setup.now (runs setup.now) ++ 10 ∷ codes "Number: " ++ decimal number ++ 10 ∷ codes "Kind: run" ++ 10 ∷ []) }
{
    let name = name_at(setup, setup.runs());
    format!(in alloc; "From: {name}\nNumber: {number}\nKind: run\n")
}

/// The line on an order's day.
fn push_day(text: &mut String, day: Date) -> Result<(), AllocError>
    ensures { OnOk result (string_bytes text.new ≡ string_bytes text.old ++ codes "Day: " ++ date_text day ++ 10 ∷ []) }
{
    let day = civil::Date::from_plain(day);
    writeln!(text, "Day: {day}")
}

/// The line on what an order covers.
fn push_covers(
    alloc: Global,
    text: &mut String,
    setup: &Setup,
    unbroken: &[u32],
) -> Result<(), AllocError>
    ensures { OnOk result (string_bytes text.new ≡ string_bytes text.old ++ codes "Covers:" ++ listed_words setup.now (stated_to (order_cover setup.now (slice_index unbroken.now)) (length setup.now.senders)) ++ 10 ∷ []) }
{
    let stated = stated_order(alloc, setup, unbroken)?;
    text.push_str("Covers:")?;
    push_listed(text, setup, &stated)?;
    text.push('\n')
}

/// The text of a message that orders the next run, given how far each sender's mail is kept without a gap. It covers
/// all of that, has the number after the orders so kept, and this day. If number 1 of a sender isn't kept, the text
/// doesn't name that sender.
///
/// It fails only if memory runs out.
#[tactic(auto, unfolding(crate::specs::NextOrder::order_text))]
pub fn order_text(
    alloc: Global,
    setup: &Setup,
    unbroken: &[u32],
    day: Date,
) -> Result<Text, NoMemory>
    ensures { IfOk result (λ text. text ≡ order_text setup.now (slice_index unbroken.now) day) }
{
    let mut text = order_head(alloc, setup, next_number(setup, unbroken))?;
    push_day(&mut text, day)?;
    push_covers(alloc, &mut text, setup, unbroken)?;
    Ok(Text::from_string(text))
}
