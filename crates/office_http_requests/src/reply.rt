//! Replies: what they say, and how they are written (RFC 9112, section 4). They allocate nothing.
ghost use Rattle.std.specs.Prelude.{◌≡◌, Ok, Err, ◌<◌, ◌+◌, [], OnOk, OnErr, length, unwrap_or, if◌then◌else◌, true};
ghost use Rattle.std.specs.Io.KnownBytes.{Appends};
ghost use Rattle.http.specs.StatusCode.{reason_phrase};
ghost use Rattle.office_http_requests.specs.Reply.{delivery_code, refusal_status, refusal_allow, refused, reply_in, reply_with, front_bytes, continue_bytes};
ghost use Rattle.office_http_requests.specs.steps.Reply.{WritesReply, HasPlace};
ghost use Rattle.office_mail.specs.Counts.{CountsFailure};
ghost use Rattle.office_core_replies.specs.Replies.{status_line};
ghost use Rattle.office_mail.specs.Written.{AppendsFront, Writes, joined};

use deb_control::Text;
use http::StatusCode;
use office_core_orders::Progress;
use office_core_replies::{DeliverFault, Held, fault_words};
use office_mail::{Digits, MailFault, Setup, Sink, WriteFault, write_all, write_parts};
use office_store_keeper::MailText;

/// Why a request is refused.
#[derive(Clone, Copy, Debug, PartialEq, Eq)]
pub enum Refusal {
    BadRequest,
    NoRoute,
    NoRun,
    /// No text is kept under that sender's number, or there is no such sender.
    NoMessage,
    /// The last finished run says nothing of a source with that name.
    NoSource,
    /// The text is a message of another sender than the path names.
    OtherSender,
    /// A page in a browser sends the POST.
    OtherOrigin,
    /// The request is for another host than the service's.
    OtherHost,
    /// The path takes GET alone.
    OnlyGet,
    /// The path accepts only POST.
    OnlyPost,
    LengthRequired,
    TooLong,
    /// The body has more hints than one request may try, or more changes than it may ask about.
    TooManyHints,
    HeadTooLarge,
    NoMemory,
    Store,
}

impl Refusal {
    /// Its name in a reply.
    fn name(self) -> &'static str
        ensures name { result.now ≡ (refusal_status self).1 }
        ensures short { length result.now < 20 }
    {
        match self {
            Refusal::BadRequest => "BadRequest",
            Refusal::NoRoute => "NoRoute",
            Refusal::NoRun => "NoRun",
            Refusal::NoMessage => "NoMessage",
            Refusal::NoSource => "NoSource",
            Refusal::OtherSender => "OtherSender",
            Refusal::OtherOrigin => "OtherOrigin",
            Refusal::OtherHost => "OtherHost",
            Refusal::OnlyGet => "MethodNotAllowed",
            Refusal::OnlyPost => "MethodNotAllowed",
            Refusal::LengthRequired => "LengthRequired",
            Refusal::TooLong => "TooLong",
            Refusal::TooManyHints => "TooManyHints",
            Refusal::HeadTooLarge => "HeadTooLarge",
            Refusal::NoMemory => "NoMemory",
            Refusal::Store => "Store",
        }
    }

    /// Its status code (RFC 9110, section 15; RFC 6585, section 5).
    fn status(self) -> StatusCode
        ensures { result ≡ (refusal_status self).0 }
    {
        match self {
            Refusal::BadRequest => StatusCode::BAD_REQUEST,
            Refusal::NoRoute => StatusCode::NOT_FOUND,
            Refusal::NoRun => StatusCode::NOT_FOUND,
            Refusal::NoMessage => StatusCode::NOT_FOUND,
            Refusal::NoSource => StatusCode::NOT_FOUND,
            Refusal::OtherSender => StatusCode::FORBIDDEN,
            Refusal::OtherOrigin => StatusCode::FORBIDDEN,
            Refusal::OtherHost => StatusCode::FORBIDDEN,
            Refusal::OnlyGet => StatusCode::METHOD_NOT_ALLOWED,
            Refusal::OnlyPost => StatusCode::METHOD_NOT_ALLOWED,
            Refusal::LengthRequired => StatusCode::LENGTH_REQUIRED,
            Refusal::TooLong => StatusCode::PAYLOAD_TOO_LARGE,
            Refusal::TooManyHints => StatusCode::PAYLOAD_TOO_LARGE,
            Refusal::HeadTooLarge => StatusCode::REQUEST_HEADER_FIELDS_TOO_LARGE,
            Refusal::NoMemory => StatusCode::SERVICE_UNAVAILABLE,
            Refusal::Store => StatusCode::INTERNAL_SERVER_ERROR,
        }
    }

    /// The field that names the method that the path accepts (RFC 9110, section 10.2.1).
    fn allow(self) -> &'static str
        ensures { result.now ≡ refusal_allow self }
    {
        match self {
            Refusal::OnlyGet => "Allow: GET\r\n",
            Refusal::OnlyPost => "Allow: POST\r\n",
            _ => "",
        }
    }
}

/// The outcome of a request.
#[derive(Drop)]
pub enum Answer {
    Refused(Refusal),
    /// The answer to a delivery.
    Delivered(Result<Held, DeliverFault>),
    Status(Progress),
    Told(Text),
    /// A kept text, byte for byte.
    Letter(MailText),
    /// Why a hint is refused.
    BadHint(Text),
}

/// The status code for a delivery that is refused.
fn delivery_status(fault: DeliverFault) -> StatusCode
    ensures { result ≡ delivery_code (Err fault) }
{
    match fault {
        DeliverFault::Mail(MailFault::TooLong) => StatusCode::PAYLOAD_TOO_LARGE,
        DeliverFault::Mail(MailFault::NoMemory) => StatusCode::SERVICE_UNAVAILABLE,
        DeliverFault::Mail(_) => StatusCode::BAD_REQUEST,
        DeliverFault::OtherText => StatusCode::CONFLICT,
        DeliverFault::Store => StatusCode::INTERNAL_SERVER_ERROR,
    }
}

/// The phrase of a status code.
fn phrase_of(status: &StatusCode) -> &str
    ensures { result.now ≡ unwrap_or (reason_phrase status.now) [] }
{
    match status.canonical_reason() {
        Some(phrase) => phrase,
        None => "",
    }
}

/// Writes what precedes the body: the status line, the fields and the empty line.
#[tactic(auto, unfolding(crate::specs::Reply::front_bytes))]
fn write_front<W: Sink>(
    status: StatusCode,
    allow: &str,
    size: usize,
    writer: &mut W,
) -> Result<(), WriteFault>
    ensures { Writes W.Sink writer.old writer.new (front_bytes status allow.now size) result }
{
    let code = Digits::of(u64::from(status.as_u16()));
    let phrase = phrase_of(&status);
    let digits = Digits::of(size as u64);
    let parts = [
        b"HTTP/1.1 ".as_slice(),
        code.as_slice(),
        b" ".as_slice(),
        phrase.as_bytes(),
        b"\r\nContent-Type: text/plain; charset=utf-8\r\nContent-Length: ".as_slice(),
        digits.as_slice(),
        b"\r\nConnection: close\r\n".as_slice(),
        allow.as_bytes(),
        b"\r\n".as_slice(),
    ];
    write_parts(writer, &parts)
}

/// Writes a reply with a body of that length, or a prefix of it. Returns the status code.
fn write_whole<W: Sink>(
    status: StatusCode,
    allow: &str,
    body: &[&[u8]],
    size: usize,
    is_head: bool,
    writer: &mut W,
) -> Result<u16, WriteFault>
    requires { size ≡ length (joined body.now) }
    ensures { WritesReply W.Sink writer.old writer.new (record { code = status; allow = allow.now; body = joined body.now }) is_head result }
{
    write_front(status, allow, size, writer)?;
    write_parts(writer, shown(body, is_head))?;
    Ok(status.as_u16())
}

/// The body, which a HEAD doesn't get.
fn shown<'a, 'b>(body: &'a [&'b [u8]], is_head: bool) -> &'a [&'b [u8]]
    ensures { joined result.now ≡ (if is_head then [] else joined body.now) }
{
    if is_head { &[] } else { body }
}

fn write_refused<W: Sink>(
    refusal: Refusal,
    is_head: bool,
    writer: &mut W,
) -> Result<u16, WriteFault>
    ensures { WritesReply W.Sink writer.old writer.new (refused refusal) is_head result }
{
    let name = refusal.name();
    let body = [b"refused ".as_slice(), name.as_bytes(), b"\n".as_slice()];
    let size = name.len() + 9;
    write_whole(
        refusal.status(),
        refusal.allow(),
        &body,
        size,
        is_head,
        writer,
    )
}

#[tactic(auto, unfolding(office_core_replies::specs::Replies::reply_line))]
fn write_held<W: Sink>(
    setup: &Setup,
    held: Held,
    is_head: bool,
    writer: &mut W,
) -> Result<u16, WriteFault>
    requires { held.sender < length setup.now.senders }
    ensures { WritesReply W.Sink writer.old writer.new (reply_in setup.now (Answer.Delivered (Ok held))) is_head result }
{
    let digits = Digits::of(u64::from(held.number));
    let name = setup.senders()[held.sender as usize].name.as_str();
    let body = [
        b"held ".as_slice(),
        name.as_bytes(),
        b" ".as_slice(),
        digits.as_slice(),
        b"\n".as_slice(),
    ];
    let size = name.len() + (digits.len() + 7);
    write_whole(StatusCode::OK, "", &body, size, is_head, writer)
}

#[tactic(auto, unfolding(office_core_replies::specs::Replies::reply_line))]
fn write_fault<W: Sink>(
    setup: &Setup,
    fault: DeliverFault,
    is_head: bool,
    writer: &mut W,
) -> Result<u16, WriteFault>
    ensures { WritesReply W.Sink writer.old writer.new (reply_in setup.now (Answer.Delivered (Err fault))) is_head result }
{
    let (word, field) = fault_words(fault);
    let body = [
        b"refused ".as_slice(),
        word.as_bytes(),
        field.as_bytes(),
        b"\n".as_slice(),
    ];
    let size = field.len() + (word.len() + 9);
    write_whole(delivery_status(fault), "", &body, size, is_head, writer)
}

fn write_progress<W: Sink>(
    progress: Progress,
    is_head: bool,
    writer: &mut W,
) -> Result<u16, WriteFault>
    ensures { WritesReply W.Sink writer.old writer.new (reply_with 200 (status_line progress.ready progress.finished)) is_head result }
{
    let ready = Digits::of(u64::from(progress.ready));
    let finished = Digits::of(u64::from(progress.finished));
    let body = [
        b"ready ".as_slice(),
        ready.as_slice(),
        b" finished ".as_slice(),
        finished.as_slice(),
        b"\n".as_slice(),
    ];
    let size = ready.len() + (finished.len() + 17);
    write_whole(StatusCode::OK, "", &body, size, is_head, writer)
}

fn write_text<W: Sink>(text: &[u8], is_head: bool, writer: &mut W) -> Result<u16, WriteFault>
    ensures { WritesReply W.Sink writer.old writer.new (reply_with 200 text.now) is_head result }
{
    let body = [text];
    write_whole(StatusCode::OK, "", &body, text.len(), is_head, writer)
}

fn write_bad_hint<W: Sink>(text: &[u8], is_head: bool, writer: &mut W) -> Result<u16, WriteFault>
    ensures { WritesReply W.Sink writer.old writer.new (reply_with 400 text.now) is_head result }
{
    let body = [text];
    write_whole(
        StatusCode::BAD_REQUEST,
        "",
        &body,
        text.len(),
        is_head,
        writer,
    )
}

/// Writes the reply to the outcome of a request, or a prefix of it. Returns the status code.
pub fn write_answer<W: Sink>(
    setup: &Setup,
    answer: &Answer,
    is_head: bool,
    writer: &mut W,
) -> Result<u16, WriteFault>
    requires { HasPlace setup.now answer.now }
    ensures { WritesReply W.Sink writer.old writer.new (reply_in setup.now answer.now) is_head result }
{
    match answer {
        Answer::Refused(refusal) => write_refused(*refusal, is_head, writer),
        Answer::Delivered(Ok(held)) => write_held(setup, *held, is_head, writer),
        Answer::Delivered(Err(fault)) => write_fault(setup, *fault, is_head, writer),
        Answer::Status(progress) => write_progress(*progress, is_head, writer),
        Answer::Told(text) => write_text(text.as_str().as_bytes(), is_head, writer),
        Answer::Letter(text) => write_text(text.as_slice(), is_head, writer),
        Answer::BadHint(text) => write_bad_hint(text.as_str().as_bytes(), is_head, writer),
    }
}

/// Writes `100 Continue` if a client waits for it (RFC 9110, section 15.2.1).
#[tactic(auto, unfolding(crate::specs::Reply::continue_bytes))]
pub fn write_continue<W: Sink>(waits: bool, writer: &mut W) -> Result<(), WriteFault>
    ensures ok { OnOk result (Appends (W.written writer.old) (W.written writer.new) (if waits then continue_bytes else [])) }
    ensures err { OnErr result (AppendsFront (W.written writer.old) (W.written writer.new) continue_bytes) }
    ensures waits { OnErr result (waits ≡ true) }
    ensures failures { CountsFailure (W.failures writer.old) (W.failures writer.new) result }
{
    if waits {
        return write_all(writer, b"HTTP/1.1 100 Continue\r\n\r\n");
    }
    Ok(())
}
