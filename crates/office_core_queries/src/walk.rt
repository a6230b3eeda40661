//! All kept mail, written text by text.
ghost use Rattle.std.specs.Prelude.{OnOk, OnErr};
ghost use Rattle.std.specs.List.{flat_map};
ghost use Rattle.std.specs.Io.KnownBytes.{Appends};
ghost use Rattle.office_mail.specs.Bag.{framed};
ghost use Rattle.office_mail.specs.Written.{AppendsFront};
ghost use Rattle.office_core.specs.Preserves.{Holds};
ghost use Rattle.office_core_queries.specs.Asking.{AsksBoth};
ghost use Rattle.office_core_queries.specs.steps.Asking.{CountsWrites};
ghost use Rattle.office_core_queries.specs.Export.{kept_texts, sender_texts};
ghost use Rattle.office_core_queries.specs.Listing.{text_line};
ghost use Rattle.office_core_queries.specs.steps.Walk.{told_as};

use crate::faults::AskFault;
use crate::message_line::text_line;
use crate::numbers::letter_above;
use office_core::Office;
use office_mail::{Digits, Setup, Sink, write_all, write_parts};
use office_store_keeper::Keeper;
use std::alloc::Global;

/// How a kept text is written.
#[derive(Clone, Copy, Debug, PartialEq, Eq)]
pub(crate) enum Form {
    /// As a message of a bag.
    Framed,
    /// As the line of the list.
    Line,
}

/// Writes a text as a message of a bag, or a prefix of it. It allocates nothing.
fn write_framed<W: Sink>(text: &[u8], writer: &mut W) -> Result<(), AskFault>
    ensures ok { OnOk result (Appends (W.written writer.old) (W.written writer.new) (framed text.now)) }
    ensures front { OnErr result (AppendsFront (W.written writer.old) (W.written writer.new) (framed text.now)) }
    ensures counted { CountsWrites (W.failures writer.old) (W.failures writer.new) result }
{
    let digits = Digits::of(text.len() as u64);
    let parts = [
        b"mail ".as_slice(),
        digits.as_slice(),
        b"\n".as_slice(),
        text,
    ];
    write_parts(writer, &parts)?;
    Ok(())
}

/// Writes the line on a text, or a prefix of it.
fn write_line<W: Sink>(
    alloc: Global,
    setup: &Setup,
    text: &[u8],
    writer: &mut W,
) -> Result<(), AskFault>
    ensures ok { OnOk result (Appends (W.written writer.old) (W.written writer.new) (text_line setup.now text.now)) }
    ensures front { OnErr result (AppendsFront (W.written writer.old) (W.written writer.new) (text_line setup.now text.now)) }
    ensures counted { CountsWrites (W.failures writer.old) (W.failures writer.new) result }
{
    let line = text_line(alloc, setup, text)?;
    write_all(writer, line.as_bytes())?;
    Ok(())
}

/// Writes a text in its form, or a prefix of that.
fn write_text<W: Sink>(
    alloc: Global,
    setup: &Setup,
    form: Form,
    text: &[u8],
    writer: &mut W,
) -> Result<(), AskFault>
    ensures ok { OnOk result (Appends (W.written writer.old) (W.written writer.new) (told_as form setup.now text.now)) }
    ensures front { OnErr result (AppendsFront (W.written writer.old) (W.written writer.new) (told_as form setup.now text.now)) }
    ensures counted { CountsWrites (W.failures writer.old) (W.failures writer.new) result }
{
    match form {
        Form::Framed => write_framed(text, writer),
        Form::Line => write_line(alloc, setup, text, writer),
    }
}

/// Writes the kept mail of a sender, by number, or a prefix of it.
fn write_sender<K: Keeper, W: Sink>(
    office: &mut Office<K>,
    form: Form,
    sender: u32,
    writer: &mut W,
) -> Result<(), AskFault>
    ensures ok { Holds K.Keeper office.old office.new → OnOk result (Appends (W.written writer.old) (W.written writer.new) (flat_map (told_as form (K.setup office.old)) (sender_texts (K.content office.old).kept sender))) }
    ensures front { Holds K.Keeper office.old office.new → OnErr result (AppendsFront (W.written writer.old) (W.written writer.new) (flat_map (told_as form (K.setup office.old)) (sender_texts (K.content office.old).kept sender))) }
    ensures asks { AsksBoth K.Keeper office.old office.new (W.failures writer.old) (W.failures writer.new) result }
{
    let mut last = 0;
    while let Some(letter) = letter_above(office, sender, last)? {
        let alloc = office.alloc();
        write_text(alloc, office.setup(), form, letter.text.as_slice(), writer)?;
        last = letter.number;
    }
    Ok(())
}

/// Writes all kept mail, by sender and number, or a prefix of it.
pub(crate) fn write_mail<K: Keeper, W: Sink>(
    office: &mut Office<K>,
    form: Form,
    writer: &mut W,
) -> Result<(), AskFault>
    ensures ok { Holds K.Keeper office.old office.new → OnOk result (Appends (W.written writer.old) (W.written writer.new) (flat_map (told_as form (K.setup office.old)) (kept_texts (K.setup office.old) (K.content office.old).kept))) }
    ensures front { Holds K.Keeper office.old office.new → OnErr result (AppendsFront (W.written writer.old) (W.written writer.new) (flat_map (told_as form (K.setup office.old)) (kept_texts (K.setup office.old) (K.content office.old).kept))) }
    ensures asks { AsksBoth K.Keeper office.old office.new (W.failures writer.old) (W.failures writer.new) result }
{
    'senders: for sender in 0..office.setup().senders().len() {
        write_sender(office, form, sender as u32, writer)?;
    }
    Ok(())
}
