//! Prints on standard error which messages of a bag were refused, and how far a replay is.

use deb_control::{Paragraph, Paragraphs};
use office_core_replies::fault_words;
use office_http::{DeliverFault, Held, Progress, StoreFault, Watcher};
use office_mail::MailFault;
use std::io::IsTerminal;
use std::time::{Duration, Instant};

/// After how many milliseconds a terminal shows again how far a replay is.
const PACE: u64 = 1_000;

/// How many bytes of a field's value are printed at most.
const ROOM: usize = 64;

/// Prints on standard error which message of a bag was refused, and why. If standard error is a terminal, also prints
/// about once a second how many messages were answered and how many runs are finished.
#[derive(Drop)]
pub struct Printer<'a> {
    rt: &'a HostRuntime,
    messages: u64,
    finished: u32,
    /// Whether a message was refused.
    refused: bool,
    /// When the pace was printed, if standard error is a terminal.
    printed: Option<Instant>,
}

impl<'a> Printer<'a> {
    /// No message was answered yet.
    pub fn new(rt: &'a HostRuntime) -> Printer<'a> {
        let printed = if rt.stderr().is_terminal() {
            Instant::now(rt).ok()
        } else {
            None
        };
        Printer {
            rt,
            messages: 0,
            finished: 0,
            refused: false,
            printed,
        }
    }

    /// Whether a message was refused.
    pub fn has_refused(&self) -> bool {
        self.refused
    }

    /// Prints which message was refused, and the reply.
    fn print_refusal(&self, text: &[u8], fault: DeliverFault) {
        let (rt, place) = (self.rt, self.messages);
        let (word, field) = fault_words(fault);
        let mut reader = Paragraphs::new(rt.alloc(), text);
        let first = reader.next().unwrap_or(None);
        let _ = match first.as_ref().and_then(sender_and_number) {
            Some((sender, number)) => eprintln!(rt;
                "office: standard input: message {place}, {sender} {number}: refused {word}{field}"
            ),
            None => eprintln!(rt; "office: standard input: message {place}: refused {word}{field}"),
        };
    }

    /// Prints how far the replay is, if it last did so long enough ago.
    fn print_pace(&mut self) {
        let Some(printed) = self.printed else {
            return;
        };
        let Ok(now) = Instant::now(self.rt) else {
            return;
        };
        if now.duration_since(printed) >= Duration::from_millis(PACE) {
            let _ = eprintln!(self.rt;
                "office: standard input: {} messages so far, {} runs finished",
                self.messages, self.finished
            );
            self.printed = Some(now);
        }
    }
}

impl Watcher for Printer<'_> {
    fn delivered(&mut self, text: &[u8], reply: &Result<Held, DeliverFault>) {
        self.messages = self.messages.saturating_add(1);
        if let Err(fault) = reply {
            if !is_loss(*fault) {
                self.refused = true;
                self.print_refusal(text, *fault);
            }
        }
        self.print_pace();
    }

    fn settled(&mut self, settled: &Result<Progress, StoreFault>) {
        if let Ok(progress) = settled {
            self.finished = progress.finished;
        }
    }
}

/// Whether a message was lost, which the end of the replay reports.
fn is_loss(fault: DeliverFault) -> bool {
    matches!(
        fault,
        DeliverFault::Store | DeliverFault::Mail(MailFault::NoMemory)
    )
}

/// The sender and the number of a message, if its first paragraph has both in plain letters.
pub(crate) fn sender_and_number<'a>(first: &Paragraph<'a>) -> Option<(&'a str, &'a str)> {
    let sender = plain_field(first, "From")?;
    let number = plain_field(first, "Number")?;
    Some((sender, number))
}

/// A field's value, if it is plain.
fn plain_field<'a>(paragraph: &Paragraph<'a>, name: &str) -> Option<&'a str> {
    let value = paragraph.field(name)?;
    if is_plain(value) { Some(value) } else { None }
}

/// Whether a text is short and has visible letters of ASCII alone: a terminal shows it as it is.
pub(crate) fn is_plain(text: &str) -> bool {
    !text.is_empty() && text.len() <= ROOM && text.bytes().all(|byte| byte.is_ascii_graphic())
}
