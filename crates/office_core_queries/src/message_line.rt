//! The line on a message.
ghost use Rattle.std.specs.Prelude.{◌≡◌, ◌++◌, [], IfOk, OnOk, string_bytes};
ghost use Rattle.office_core_queries.specs.Listing.{body_words, message_line, order_words, saying_words, text_line};

use crate::covers::{push_listed, stated_covers};
use crate::hints::push_hint;
use jiff::civil::Date;
use office_core_replies::name_at;
use office_mail::{Body, MailFault, Message, RunOrder, Setup, read_message};
use std::alloc::{AllocError, Global};
use testing_rules_items::Item;

/// The line of a text that is a message; nothing of any other text. It fails only if memory runs out.
#[tactic(auto, unfolding(crate::specs::Listing::text_line))]
pub(crate) fn text_line(alloc: Global, setup: &Setup, text: &[u8]) -> Result<String, AllocError>
    ensures { IfOk result (λ line. string_bytes line ≡ text_line setup.now text.now) }
{
    match read_message(alloc, setup, text) {
        Ok(message) => message_line(alloc, setup, &message),
        Err(fault) => no_line(alloc, fault),
    }
}

/// The line of a text that is refused: there is none, unless memory ran out.
fn no_line(alloc: Global, fault: MailFault) -> Result<String, AllocError>
    ensures { IfOk result (λ line. (string_bytes line ≡ []) × (fault ≡ MailFault.NoMemory → ⊥)) }
{
    match fault {
        MailFault::NoMemory => Err(AllocError),
        _ => Ok(String::new(alloc)),
    }
}

/// The line of a message: its sender, its number, its kind, and what it is about.
#[tactic(auto, unfolding(crate::specs::Listing::message_line))]
fn message_line(alloc: Global, setup: &Setup, message: &Message) -> Result<String, AllocError>
    ensures { IfOk result (λ line. string_bytes line ≡ message_line setup.now message.now) }
{
    let (sender, number) = (name_at(setup, message.sender), message.number);
    let mut line = format!(in alloc; "{sender} {number} ")?;
    push_body(alloc, &mut line, setup, &message.body)?;
    line.push('\n')?;
    Ok(line)
}

fn push_body(alloc: Global, text: &mut String, setup: &Setup, body: &Body) -> Result<(), AllocError>
    ensures { OnOk result (string_bytes text.new ≡ string_bytes text.old ++ body_words setup.now body.now) }
{
    match body {
        Body::Item(item) => push_item(text, item),
        Body::Run(order) => push_order(alloc, text, setup, order),
    }
}

fn push_item(text: &mut String, item: &Item) -> Result<(), AllocError>
    ensures { OnOk result (string_bytes text.new ≡ string_bytes text.old ++ saying_words item.now) }
{
    match item {
        Item::Upload {
            source,
            version,
            ..
        } => write!(text, "upload {} {}", source.as_str(), version.text()),
        Item::Dropped {
            name,
            arch,
            version,
        } => {
            let (name, version) = (name.as_str(), version.text());
            write!(text, "drop {name} {version} {}", arch.as_str())
        }
        Item::Build(binaries) => write!(text, "build {}", binaries.as_slice().len()),
        Item::Bug { bug, source, .. } => write!(text, "bug {bug} {}", source.as_str()),
        Item::Hint(hint) => {
            text.push_str("hint ")?;
            push_hint(text, hint)
        }
        Item::Unhint(number) => write!(text, "unhint {number}"),
        Item::Delays {
            low,
            medium,
            high,
            critical,
        } => write!(text, "delays {low} {medium} {high} {critical}"),
        Item::Nothing => text.push_str("none"),
    }
}

fn push_order(
    alloc: Global,
    text: &mut String,
    setup: &Setup,
    order: &RunOrder,
) -> Result<(), AllocError>
    ensures { OnOk result (string_bytes text.new ≡ string_bytes text.old ++ order_words setup.now order.now) }
{
    let day = Date::from_plain(order.day);
    let stated = stated_covers(alloc, setup, order.covers.as_slice())?;
    write!(text, "run {day}")?;
    push_listed(text, setup, &stated)
}
