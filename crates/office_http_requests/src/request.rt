//! What a request asks for, given its head.
ghost use Rattle.std.specs.Prelude.{◌≡◌, true, if◌then◌else◌, ◌<◌, ◌≤◌, [], List, length, drop, map, All, IfOk, Option, Some, None, codes, unwrap_or};
ghost use Rattle.std.specs.Char.{is_ascii_digit};
ghost use Rattle.std.specs.List.{list_all, position};
ghost use Rattle.std.specs.Str.{str_eq_ignore_ascii_case};
ghost use Rattle.httparse.specs.Grammar.{RequestHead};
ghost use Rattle.httparse.specs.Spans.{IsHeaderWithin, IsRequestWithin, IsRequestAt, header_bytes};
ghost use Rattle.office_http_requests.specs.Asked.{are_digits, number_under, number_stated, is_foreign_site, framing_of, is_query, path_of, has_leading_zero, plain_number, absent_length, posted_length, post_asked, tell_asked, asked_at, names_host, asked_by, asked_of, is_head_method};
ghost use Rattle.office_http_requests.specs.steps.Asked.{with_value, length_with, waits_with, foreign_with, with_host, with_field};
ghost use Rattle.office_http_requests.specs.Routes.{office_routes};

use crate::days::{order_asked, try_on_asked};
use crate::letters::{bag_asked, letter_asked, mail_of_asked};
use crate::reply::Refusal;
use crate::routes::{Route, find_route};
use crate::sources::{breaks_asked, propose_asked, why_asked};
use deb_control::Text;
use httparse::spans::{HeaderSpan, RequestSpans};
use jiff_core::civil::Date;
use matchit::Router;
use office_mail::Setup;
use std::alloc::{AllocError, Global};
use std::cmp::min;

/// The greatest length of a body.
pub const BODY_ROOM: u32 = 65_536;

/// What the fields say of a body's length.
#[derive(Clone, Copy, Debug, PartialEq, Eq)]
pub enum Stated {
    Absent,
    /// Several lengths, or one that isn't digits alone.
    Bad,
    TooLong,
    Exactly(u32),
}

/// How many fields name the host.
#[derive(Clone, Copy, Debug, PartialEq, Eq)]
pub enum HostFields {
    NoHost,
    OneHost,
    SeveralHosts,
}

/// What the fields of a head say of the body (RFC 9110, sections 8.6 and 10.1.1; RFC 9112, section 6.1), of the page that
/// sends it (Fetch, section 3.2; Fetch Metadata Request Headers, section 2.3), and of the host (RFC 9112, section 3.2).
#[derive(Clone, Copy, Debug, PartialEq, Eq)]
pub struct Framing {
    pub length: Stated,
    /// A transfer coding is named.
    pub coded: bool,
    /// The client waits for `100 Continue`.
    pub waits: bool,
    /// A page in a browser sends it.
    pub foreign: bool,
    pub hosts: HostFields,
}

/// What a POST is for.
#[derive(Clone, Copy, Debug, PartialEq, Eq)]
pub enum Action {
    Deliver,
    /// Delivers a text of the sender at a place of the setup, and of no other.
    DeliverOf(u32),
    /// Answers like a delivery, and keeps nothing.
    Look,
    Settle,
    /// Tries the hints in the lines of the body.
    Try,
    /// Tries them over all mail without a gap, in a run on this day or later.
    TryOn(Date),
    /// Tells what the change breaks that the body names.
    Breaks,
}

/// A POST: what it is for, how long its body is, and whether the client waits for `100 Continue`.
#[derive(Clone, Copy, Debug, PartialEq, Eq)]
pub struct Posted {
    pub action: Action,
    pub length: u32,
    pub waits: bool,
}

/// A text that the office returns.
#[derive(Debug, Drop)]
pub enum Page {
    Status,
    Testing,
    Excuses(u32),
    Update(u32),
    /// What the first run that isn't ready waits for.
    Waiting,
    /// The finished runs.
    Runs,
    /// How many numbers of each sender are kept.
    Kept,
    /// The kept text of a sender's number. `sender` is its place in the setup.
    Letter { sender: u32, number: u32 },
    /// The kept texts of a sender from a number on, as a bag: as many as fit into one body.
    Bag { sender: u32, from: u32 },
    /// The text on the source with this name.
    Why(Text),
    /// An order on this day over all mail without a gap.
    Order(Date),
    /// The hints in force, by all mail without a gap.
    Hints,
    /// Unstable by all mail without a gap.
    Unstable,
    /// Hints that move groups of sources.
    Propose,
    /// The same in a run on this day or later, over all mail without a gap.
    ProposeOn(Date),
    /// Hints that free the source with this name, or what shows that none does.
    ProposeFor(Text),
    /// What the move of the source with this name breaks.
    Breaks(Text),
}

/// What a request asks for.
#[derive(Debug, Drop)]
pub enum Asked {
    Refused(Refusal),
    Tell(Page),
    Post(Posted),
}

fn are_digits(text: &[u8]) -> bool
    ensures { result ≡ list_all is_ascii_digit text.now }
{
    text.iter().all(|c| c.is_ascii_digit())
}

/// Whether a text is decimal digits alone.
#[tactic(auto, unfolding(crate::specs::Asked::are_digits))]
fn is_number(text: &[u8]) -> bool
    ensures { result ≡ are_digits text.now }
{
    match text {
        [_, ..] => are_digits(text),
        [] => false,
    }
}

/// The number that digits spell, none if it has more than 32 bits.
fn number_under(text: &[u8]) -> Option<u32>
    requires { are_digits text.now ≡ true }
    ensures { result ≡ number_under text.now }
{
    let Ok(digits) = str::from_utf8(text) else {
        return None;
    };
    match u32::from_str_radix(digits, 10) {
        Ok(number) => Some(number),
        Err(_) => None,
    }
}

/// The length that one field states.
fn number_stated(value: &[u8]) -> Stated
    ensures { result ≡ number_stated value.now }
{
    if !is_number(value) {
        return Stated::Bad;
    }
    match number_under(value) {
        Some(length) if length <= BODY_ROOM => Stated::Exactly(length),
        _ => Stated::TooLong,
    }
}

/// What is stated if one more field states a length.
fn with_value(stated: Stated, value: &[u8]) -> Stated
    ensures { result ≡ with_value stated value.now }
{
    match stated {
        Stated::Absent => number_stated(value),
        Stated::Bad => Stated::Bad,
        Stated::TooLong => Stated::Bad,
        Stated::Exactly(_) => Stated::Bad,
    }
}

/// Whether two words are the same but for the case of letters.
pub(crate) fn is_word(word: &[u8], other: &[u8]) -> bool
    ensures { result ≡ str_eq_ignore_ascii_case word.now other.now }
{
    word.eq_ignore_ascii_case(other)
}

/// The stated length, with one more field.
fn length_with(stated: Stated, name: &[u8], value: &[u8]) -> Stated
    ensures { result ≡ length_with stated (name.now, value.now) }
{
    if is_word(name, b"content-length") {
        with_value(stated, value)
    } else {
        stated
    }
}

/// Whether a transfer coding is named, with one more field.
fn coded_with(coded: bool, name: &[u8]) -> bool
    ensures { result ≡ (if str_eq_ignore_ascii_case name.now (codes "transfer-encoding") then true else coded) }
{
    if is_word(name, b"transfer-encoding") {
        true
    } else {
        coded
    }
}

/// Whether the client waits, with one more field.
fn waits_with(waits: bool, name: &[u8], value: &[u8]) -> bool
    ensures { result ≡ waits_with waits (name.now, value.now) }
{
    if is_word(name, b"expect") && is_word(value, b"100-continue") {
        true
    } else {
        waits
    }
}

/// Whether a value of Sec-Fetch-Site names another site.
fn is_foreign_site(value: &[u8]) -> bool
    ensures { result ≡ is_foreign_site value.now }
{
    value != b"none".as_slice() && value != b"same-origin".as_slice()
}

/// Whether a page in a browser sends the request, with one more field.
fn foreign_with(foreign: bool, name: &[u8], value: &[u8]) -> bool
    ensures { result ≡ foreign_with foreign (name.now, value.now) }
{
    if is_word(name, b"origin") {
        true
    } else if is_word(name, b"sec-fetch-site") && is_foreign_site(value) {
        true
    } else {
        foreign
    }
}

/// How many fields name the host, where one more field stands there.
fn hosts_with(hosts: HostFields, name: &[u8]) -> HostFields
    ensures { result ≡ (if str_eq_ignore_ascii_case name.now (codes "host") then with_host hosts else hosts) }
{
    if is_word(name, b"host") {
        match hosts {
            HostFields::NoHost => HostFields::OneHost,
            HostFields::OneHost => HostFields::SeveralHosts,
            HostFields::SeveralHosts => HostFields::SeveralHosts,
        }
    } else {
        hosts
    }
}

/// What is said where one more field stands there.
fn with_field(framing: Framing, name: &[u8], value: &[u8]) -> Framing
    ensures { result ≡ with_field framing (name.now, value.now) }
{
    Framing {
        length: length_with(framing.length, name, value),
        coded: coded_with(framing.coded, name),
        waits: waits_with(framing.waits, name, value),
        foreign: foreign_with(framing.foreign, name, value),
        hosts: hosts_with(framing.hosts, name),
    }
}

/// What these fields say.
fn framing_of(seen: &[u8], headers: &[HeaderSpan]) -> Framing
    requires { All (IsHeaderWithin (length seen.now)) headers.now }
    ensures { result ≡ framing_of (map (header_bytes seen.now) headers.now) }
{
    let mut framing = Framing {
        length: Stated::Absent,
        coded: false,
        waits: false,
        foreign: false,
        hosts: HostFields::NoHost,
    };
    for header in headers {
        framing = with_field(framing, header.name.of(seen), header.value.of(seen));
    }
    framing
}

fn query_start(target: &[u8]) -> Option<usize>
    ensures { result ≡ position is_query target.now }
{
    target.iter().position(|c| *c == b'?')
}

/// The target up to its query.
#[tactic(auto, unfolding(crate::specs::Asked::path_of))]
fn path_of(target: &str) -> &str
    ensures { result.now ≡ path_of target.now }
{
    match query_start(target.as_bytes()) {
        Some(end) => target.split_at(end).0,
        None => target,
    }
}

fn has_leading_zero(text: &[u8]) -> bool
    ensures { result ≡ has_leading_zero text.now }
{
    matches!(text, [b'0', ..])
}

/// The number that digits spell, 0 for any other text.
fn number_or_zero(text: &[u8]) -> u32
    ensures { result ≡ (if are_digits text.now then unwrap_or (number_under text.now) 0 else 0) }
{
    if is_number(text) {
        number_under(text).unwrap_or(0)
    } else {
        0
    }
}

/// The number that digits without a leading zero spell, 0 for any other text.
#[tactic(auto, unfolding(crate::specs::Asked::plain_number))]
pub(crate) fn plain_number(text: &[u8]) -> u32
    ensures { result ≡ plain_number text.now }
{
    if has_leading_zero(text) {
        0
    } else {
        number_or_zero(text)
    }
}

/// What follows the beginning of a path.
pub(crate) fn behind(path: &str, front: usize) -> &[u8]
    ensures { result.now ≡ drop front path.now }
{
    let bytes = path.as_bytes();
    let (_, rest) = bytes.split_at(min(front, bytes.len()));
    rest
}

/// The run that a path names after its first part.
fn run_in(path: &str, front: usize) -> u32
    ensures { result ≡ plain_number (drop front path.now) }
{
    plain_number(behind(path, front))
}

/// The length if none is stated: only a settle without a transfer coding may leave it out.
fn absent_length(action: Action, coded: bool) -> Result<u32, Refusal>
    ensures { result ≡ absent_length action coded }
{
    match action {
        Action::Settle => {
            if coded {
                Err(Refusal::LengthRequired)
            } else {
                Ok(0)
            }
        }
        Action::Deliver => Err(Refusal::LengthRequired),
        Action::DeliverOf(_) => Err(Refusal::LengthRequired),
        Action::Look => Err(Refusal::LengthRequired),
        Action::Try => Err(Refusal::LengthRequired),
        Action::TryOn(_) => Err(Refusal::LengthRequired),
        Action::Breaks => Err(Refusal::LengthRequired),
    }
}

/// The length of the body to read.
fn posted_length(action: Action, length: Stated, coded: bool) -> Result<u32, Refusal>
    ensures { result ≡ posted_length action length coded }
{
    match length {
        Stated::Absent => absent_length(action, coded),
        Stated::Bad => Err(Refusal::BadRequest),
        Stated::TooLong => {
            if coded {
                Err(Refusal::BadRequest)
            } else {
                Err(Refusal::TooLong)
            }
        }
        Stated::Exactly(length) => {
            if coded {
                Err(Refusal::BadRequest)
            } else {
                Ok(length)
            }
        }
    }
}

/// What is asked for on a route that accepts POST. A page in a browser may ask for nothing there.
pub(crate) fn post_asked(action: Action, method: &[u8], minor: u8, framing: Framing) -> Asked
    ensures { result ≡ post_asked action method.now minor framing }
{
    if method != b"POST".as_slice() {
        return Asked::Refused(Refusal::OnlyPost);
    }
    if framing.foreign {
        return Asked::Refused(Refusal::OtherOrigin);
    }
    match posted_length(action, framing.length, framing.coded) {
        Ok(length) => Asked::Post(Posted {
            action,
            length,
            waits: minor == 1 && framing.waits,
        }),
        Err(refusal) => Asked::Refused(refusal),
    }
}

/// What is asked for on a route that accepts GET.
pub(crate) fn tell_asked(page: Page, method: &[u8]) -> Asked
    ensures { result ≡ tell_asked page method.now }
{
    if method == b"GET".as_slice() {
        return Asked::Tell(page);
    }
    drop(page);
    Asked::Refused(Refusal::OnlyGet)
}

/// The parts of a request line (RFC 9112, section 3), with the minor version of HTTP/1.
#[derive(Clone, Copy)]
struct RequestLine<'a> {
    method: &'a [u8],
    target: &'a str,
    minor: u8,
}

/// What is asked for on a route, given the path in the request line. It fails only if memory runs out.
fn asked_at(
    alloc: Global,
    setup: &Setup,
    route: Route,
    line: RequestLine<'_>,
    path: &str,
    framing: Framing,
) -> Result<Asked, AllocError>
    ensures { IfOk result (λ asked. asked ≡ asked_at setup.now (Some route) line.entry.method.now path.now line.entry.minor framing) }
{
    let (method, minor) = (line.method, line.minor);
    match route {
        Route::Mail => Ok(post_asked(Action::Deliver, method, minor, framing)),
        Route::MailOf => Ok(mail_of_asked(setup, behind(path, 6), method, minor, framing)),
        Route::Lint => Ok(post_asked(Action::Look, method, minor, framing)),
        Route::Settle => Ok(post_asked(Action::Settle, method, minor, framing)),
        Route::Try => Ok(post_asked(Action::Try, method, minor, framing)),
        Route::TryOn => Ok(try_on_asked(path, method, minor, framing)),
        Route::Status => Ok(tell_asked(Page::Status, method)),
        Route::Testing => Ok(tell_asked(Page::Testing, method)),
        Route::Excuses => Ok(tell_asked(Page::Excuses(run_in(path, 9)), method)),
        Route::Update => Ok(tell_asked(Page::Update(run_in(path, 8)), method)),
        Route::Waiting => Ok(tell_asked(Page::Waiting, method)),
        Route::Runs => Ok(tell_asked(Page::Runs, method)),
        Route::Kept => Ok(tell_asked(Page::Kept, method)),
        Route::Letter => Ok(letter_asked(setup, behind(path, 6), method)),
        Route::Bag => Ok(bag_asked(setup, behind(path, 5), method)),
        Route::Why => why_asked(alloc, path, method),
        Route::Order => Ok(order_asked(path, method)),
        Route::Hints => Ok(tell_asked(Page::Hints, method)),
        Route::Unstable => Ok(tell_asked(Page::Unstable, method)),
        Route::Propose => Ok(tell_asked(Page::Propose, method)),
        Route::ProposeFor => propose_asked(alloc, path, method),
        Route::Breaks => Ok(post_asked(Action::Breaks, method, minor, framing)),
        Route::BreaksOf => breaks_asked(alloc, path, method),
    }
}

/// Whether a head names its host once, as by HTTP/1.1 it has to.
fn names_host(minor: u8, hosts: HostFields) -> bool
    ensures { result ≡ names_host minor hosts }
{
    match hosts {
        HostFields::NoHost => minor == 0,
        HostFields::OneHost => true,
        HostFields::SeveralHosts => false,
    }
}

/// What is asked for, by the request line and the fields. It fails only if memory runs out.
#[tactic(auto, unfolding(crate::specs::Asked::asked_by))]
fn asked_by(
    alloc: Global,
    router: &Router<Route>,
    setup: &Setup,
    line: RequestLine<'_>,
    framing: Framing,
) -> Result<Asked, AllocError>
    requires { router.now ≡ office_routes }
    ensures { IfOk result (λ asked. asked ≡ asked_by setup.now line.entry.method.now line.entry.target.now line.entry.minor framing) }
{
    if !names_host(line.minor, framing.hosts) {
        return Ok(Asked::Refused(Refusal::BadRequest));
    }
    let path = path_of(line.target);
    match find_route(router, path) {
        Some(route) => asked_at(alloc, setup, route, line, path, framing),
        None => Ok(Asked::Refused(Refusal::NoRoute)),
    }
}

/// What the head of a request asks for of an office with this setup. It fails only if memory runs out.
#[tactic(auto, unfolding(crate::specs::Asked::asked_of))]
pub fn asked_of(
    alloc: Global,
    router: &Router<Route>,
    setup: &Setup,
    seen: &[u8],
    spans: RequestSpans,
    headers: &[HeaderSpan],
) -> Result<Asked, AllocError>
    requires table { router.now ≡ office_routes }
    requires within { IsRequestWithin seen.now headers.now spans }
    ensures { IfOk result (λ asked. (head : RequestHead) → IsRequestAt seen.now headers.now spans head → asked ≡ asked_of setup.now head) }
{
    let framing = framing_of(seen, &headers[..spans.headers]);
    let Ok(target) = str::from_utf8(spans.path.of(seen)) else {
        return Ok(Asked::Refused(Refusal::BadRequest));
    };
    let line = RequestLine {
        method: spans.method.of(seen),
        target,
        minor: spans.version,
    };
    asked_by(alloc, router, setup, line, framing)
}

/// Whether the method is HEAD, whose reply has no body (RFC 9110, section 9.3.2).
pub fn is_head_method(seen: &[u8], spans: RequestSpans) -> bool
    requires ordered { spans.method.start ≤ spans.method.end }
    requires within { spans.method.end ≤ length seen.now }
    ensures { (headers : List HeaderSpan) (head : RequestHead) → IsRequestAt seen.now headers spans head → result ≡ is_head_method head }
{
    spans.method.of(seen) == b"HEAD".as_slice()
}
