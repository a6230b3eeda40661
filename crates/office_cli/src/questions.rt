//! What is asked of an office about its runs and its mail.

ghost use Rattle.std.specs.Prelude.{IfOk};
ghost use Rattle.office_cli.specs.Told.{TellsMail, TellsOrder};
ghost use Rattle.office_core.specs.Preserves.{Asks, Holds};
ghost use Rattle.office_core_facts.specs.State.{state_of};

use crate::answers::{print_text, refuse, refuse_output};
use deb_control::Text;
use jiff_core::civil::Date;
use office_core_queries::{
    AskFault, export, mail_counts, mail_text, order_text, runs_text, write_list,
};
use office_core_store::StoreFault;
use office_http::Office;
use office_mail::ToWrite;
use office_store::Keeper;
use std::io::{BufWriter, Write};

/// A question to an office, which changes nothing.
#[derive(Clone, Copy, Debug, PartialEq, Eq)]
pub enum Question {
    /// Its finished runs.
    Runs,
    /// How much mail it keeps of each sender, or each message that it keeps.
    Mail { is_list: bool },
    /// A bag of all its mail.
    Export,
    /// The next order on a day, over all mail without a gap.
    Order(Date),
    /// The hints in force, by all mail without a gap.
    Hints,
}

/// Prints the answer to a question, and returns the exit status.
pub fn print_answer<K: Keeper>(rt: &HostRuntime, office: &mut Office<K>, question: Question) -> u8 {
    match question {
        Question::Runs => print_answered(rt, runs_text(office)),
        Question::Mail { is_list: false } => print_answered(rt, counted_text(office)),
        Question::Mail { is_list: true } => print_list(rt, office),
        Question::Export => print_export(rt, office),
        Question::Order(day) => print_answered(rt, order_on(office, day)),
        Question::Hints => print_answered(rt, office.hints_text()),
    }
}

/// Prints a text, and returns the exit status.
fn print_answered(rt: &HostRuntime, text: Result<Text, StoreFault>) -> u8 {
    match text {
        Ok(text) => print_text(rt, &text, 0),
        Err(fault) => refuse(rt, fault),
    }
}

/// The text on how much mail is kept of each sender.
fn counted_text<K: Keeper>(office: &mut Office<K>) -> Result<Text, StoreFault>
    ensures text { Holds K.Keeper office.old office.new → IfOk result (λ text. TellsMail (state_of K.Keeper office.old) text) }
    ensures asks { Asks K.Keeper office.old office.new }
{
    let counts = mail_counts(office)?;
    Ok(mail_text(office.alloc(), office.setup(), &counts)?)
}

/// The text of the next order on a day, over all mail without a gap.
fn order_on<K: Keeper>(office: &mut Office<K>, day: Date) -> Result<Text, StoreFault>
    ensures text { Holds K.Keeper office.old office.new → IfOk result (λ text. TellsOrder (state_of K.Keeper office.old) day text) }
    ensures asks { Asks K.Keeper office.old office.new }
{
    let unbroken = office.unbroken()?;
    Ok(order_text(office.alloc(), office.setup(), &unbroken, day)?)
}

/// Prints each message that is kept, and returns the exit status. If it fails, it has printed what came before.
fn print_list<K: Keeper>(rt: &HostRuntime, office: &mut Office<K>) -> u8 {
    let Ok(mut output) = BufWriter::new(rt.alloc(), rt.stdout()) else {
        return refuse(rt, StoreFault::NoMemory);
    };
    let written = write_list(office, &mut ToWrite::new(&mut output));
    end_output(rt, &mut output, written)
}

/// Prints a bag of all kept mail, and returns the exit status. If it fails, it has printed what came before.
fn print_export<K: Keeper>(rt: &HostRuntime, office: &mut Office<K>) -> u8 {
    let Ok(mut output) = BufWriter::new(rt.alloc(), rt.stdout()) else {
        return refuse(rt, StoreFault::NoMemory);
    };
    let written = export(office, &mut ToWrite::new(&mut output));
    end_output(rt, &mut output, written)
}

/// Prints what a writer still holds, and returns the exit status.
fn end_output<W: Write>(rt: &HostRuntime, output: &mut W, written: Result<(), AskFault>) -> u8 {
    let flushed = output.flush();
    match written {
        Ok(()) if flushed.is_ok() => 0,
        Ok(()) | Err(AskFault::Write) => refuse_output(rt),
        Err(AskFault::NoMemory) => refuse(rt, StoreFault::NoMemory),
        Err(AskFault::Store) => refuse(rt, StoreFault::Store),
    }
}
