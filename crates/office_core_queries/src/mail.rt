//! How much mail is kept of each sender.
ghost use Rattle.std.specs.Prelude.{◌≡◌, ◌++◌, ◌<◌, ◌+◌, IfOk, OnOk, length, string_bytes};
ghost use Rattle.office_core.specs.Preserves.{AsksOffice, Holds};
ghost use Rattle.office_core_queries.specs.Mail.{AreMailCounts, IsMailCount, greatest_words, mail_line, mail_text, unbroken_words};
ghost use Rattle.office_core_queries.specs.steps.Numbers.{with_number};

use crate::numbers::next_above;
use deb_control::{NoMemory, Text};
use office_core::Office;
use office_core_replies::name_at;
use office_core_store::StoreFault;
use office_mail::Setup;
use office_store_keeper::Keeper;
use std::alloc::{AllocError, Global};

/// How much mail is kept of a sender, given by its place in the setup.
#[derive(Clone, Copy, Debug, PartialEq, Eq)]
pub struct MailCount {
    pub sender: u32,
    /// How many messages are kept.
    pub count: u32,
    /// The number up to which, from 1 on, they are kept without a gap.
    pub unbroken: u32,
    /// The greatest number, 0 if none is kept.
    pub greatest: u32,
}

/// The counts with one more number, which is above all that were counted.
fn with_number(counted: MailCount, number: u32) -> MailCount
    requires few { counted.count < number }
    requires on { counted.unbroken < number }
    ensures { result ≡ with_number counted number }
{
    let unbroken = if number == counted.unbroken + 1 {
        number
    } else {
        counted.unbroken
    };
    MailCount {
        sender: counted.sender,
        count: counted.count + 1,
        unbroken,
        greatest: number,
    }
}

/// How much mail is kept of one sender.
fn count_mail<K: Keeper>(office: &mut Office<K>, sender: u32) -> Result<MailCount, StoreFault>
    ensures counts { Holds K.Keeper office.old office.new → IfOk result (λ counted. IsMailCount (K.content office.old).kept counted) }
    ensures sender { IfOk result (λ counted. counted.sender ≡ sender) }
    ensures asks { AsksOffice K.Keeper office.old office.new result }
{
    let mut counted = MailCount {
        sender,
        count: 0,
        unbroken: 0,
        greatest: 0,
    };
    while let Some(number) = next_above(office, sender, counted.greatest)? {
        counted = with_number(counted, number);
    }
    Ok(counted)
}

/// How much mail is kept of each sender, in the setup's order. It fails only if memory runs out or the store fails.
pub fn mail_counts<K: Keeper>(office: &mut Office<K>) -> Result<Vec<MailCount>, StoreFault>
    ensures counts { Holds K.Keeper office.old office.new → IfOk result (λ counts. AreMailCounts (K.content office.old).kept (length (K.setup office.old).senders) counts.items) }
    // Nothing that is kept changes, and no run is finished.
    ensures asks { AsksOffice K.Keeper office.old office.new result }
{
    let mut counts = Vec::new(office.alloc());
    'senders: for sender in 0..office.setup().senders().len() {
        counts.push(count_mail(office, sender as u32)?)?;
    }
    Ok(counts)
}

/// The text on how much mail is kept of each sender.
#[tactic(auto, unfolding(crate::specs::Mail::mail_text))]
pub fn mail_text(alloc: Global, setup: &Setup, counts: &[MailCount]) -> Result<Text, NoMemory>
    ensures { IfOk result (λ text. text ≡ mail_text setup.now counts.now) }
{
    let mut text = String::new(alloc);
    for counted in counts {
        push_count(&mut text, setup, *counted)?;
    }
    Ok(Text::from_string(text))
}

fn push_count(text: &mut String, setup: &Setup, counted: MailCount) -> Result<(), AllocError>
    ensures { OnOk result (string_bytes text.new ≡ string_bytes text.old ++ mail_line setup.now counted) }
{
    let (sender, count) = (name_at(setup, counted.sender), counted.count);
    write!(text, "mail {sender} {count} kept")?;
    push_unbroken(text, counted.unbroken)?;
    push_greatest(text, count, counted.greatest)?;
    text.push('\n')
}

fn push_unbroken(text: &mut String, unbroken: u32) -> Result<(), AllocError>
    ensures { OnOk result (string_bytes text.new ≡ string_bytes text.old ++ unbroken_words unbroken) }
{
    if unbroken == 0 {
        return Ok(());
    }
    write!(text, ", 1 to {unbroken}")
}

fn push_greatest(text: &mut String, count: u32, greatest: u32) -> Result<(), AllocError>
    ensures { OnOk result (string_bytes text.new ≡ string_bytes text.old ++ greatest_words count greatest) }
{
    if count == 0 {
        return Ok(());
    }
    write!(text, ", greatest {greatest}")
}
