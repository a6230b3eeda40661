//! What a path that names a sender, and perhaps a number of its mail, asks for.
ghost use Rattle.std.specs.Prelude.{◌≡◌, ◌<◌, ◌≤◌, ◌+◌, IfSome, drop, length, take};
ghost use Rattle.std.specs.List.{position};
ghost use Rattle.office_http_requests.specs.Asked.{bag_by, is_slash, letter_by, mail_of_asked, numbered_asked, plain_number, sender_place, slash_at};

use crate::reply::Refusal;
use crate::request::{Action, Asked, Framing, Page, plain_number, post_asked};
use office_mail::Setup;
use std::cmp::min;

fn first_slash(text: &[u8]) -> Option<usize>
    ensures same { result ≡ position is_slash text.now }
    ensures within { IfSome result (λ place. place < length text.now) }
{
    text.iter().position(|c| *c == b'/')
}

/// The place of the first slash, or the length.
fn slash_at(text: &[u8]) -> usize
    ensures same { result ≡ slash_at text.now }
    ensures within { result ≤ length text.now }
{
    match first_slash(text) {
        Some(place) => place,
        None => text.len(),
    }
}

/// The place of the sender of a name.
#[tactic(auto, unfolding(office_mail::specs::Read::sender_named))]
fn sender_place(setup: &Setup, name: &[u8]) -> Option<u32>
    ensures { result ≡ sender_place setup.now name.now }
{
    let mut place = 0;
    'senders: for sender in setup.senders() {
        if sender.name.as_str().as_bytes() == name {
            return Some(place);
        }
        place += 1;
    }
    None
}

/// The place of a sender and a number, whose texts a slash separates.
fn sender_and_number(setup: &Setup, text: &[u8]) -> (Option<u32>, u32)
    ensures sender { result.0 ≡ sender_place setup.now (take (slash_at text.now) text.now) }
    ensures number { result.1 ≡ plain_number (drop (slash_at text.now + 1) text.now) }
{
    let slash = slash_at(text);
    let (name, _) = text.split_at(slash);
    let (_, number) = text.split_at(min(slash + 1, text.len()));
    (sender_place(setup, name), plain_number(number))
}

/// The kept text of the sender and number that a path names, with a slash between them.
pub fn letter_asked(setup: &Setup, text: &[u8], method: &[u8]) -> Asked
    ensures { result ≡ numbered_asked letter_by setup.now text.now method.now }
{
    if method != b"GET".as_slice() {
        return Asked::Refused(Refusal::OnlyGet);
    }
    match sender_and_number(setup, text) {
        (Some(sender), number) => Asked::Tell(Page::Letter { sender, number }),
        (None, _) => Asked::Refused(Refusal::NoMessage),
    }
}

/// The part of a sender's kept mail that a path names: the sender's name and the number to begin with, with a slash
/// between them.
pub fn bag_asked(setup: &Setup, text: &[u8], method: &[u8]) -> Asked
    ensures { result ≡ numbered_asked bag_by setup.now text.now method.now }
{
    if method != b"GET".as_slice() {
        return Asked::Refused(Refusal::OnlyGet);
    }
    match sender_and_number(setup, text) {
        (Some(sender), from) if from > 0 => Asked::Tell(Page::Bag { sender, from }),
        _ => Asked::Refused(Refusal::NoMessage),
    }
}

/// What a sender's name after the path of mail asks for.
pub fn mail_of_asked(
    setup: &Setup,
    name: &[u8],
    method: &[u8],
    minor: u8,
    framing: Framing,
) -> Asked
    ensures { result ≡ mail_of_asked setup.now name.now method.now minor framing }
{
    match sender_place(setup, name) {
        Some(sender) => post_asked(Action::DeliverOf(sender), method, minor, framing),
        None => Asked::Refused(Refusal::NoRoute),
    }
}
