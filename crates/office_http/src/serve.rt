//! One connection of the service: a request, and its reply (RFC 9110, RFC 9112).
ghost use Rattle.std.specs.Prelude.{◌≡◌, true, false, ◌≤◌, ◌+◌, Some, IfOk, IfErr, IfSome, OnOk, OnErr, length, drop};
ghost use Rattle.std.specs.Io.KnownBytes.{Appends};
ghost use Rattle.office_mail.specs.Read.{read};
ghost use Rattle.office_http_requests.specs.Asked.{body_size};
ghost use Rattle.office_core_queries.specs.Mail.{mail_text};
ghost use Rattle.office_core_queries.specs.NextOrder.{order_text};
ghost use Rattle.office_core.specs.Preserves.{Asks, Preserves, Holds, StoreRefused};
ghost use Rattle.office_core.specs.Laws.{RunsStand};
ghost use Rattle.office_http_requests.specs.Reply.{refused, reply_bytes};
ghost use Rattle.office_http_requests.specs.steps.Reply.{HasPlace};
ghost use Rattle.office_http_requests.specs.Request.{body_room, head_room};
ghost use Rattle.office_http_requests.specs.steps.RequestSteps.{IsHeadAt};
ghost use Rattle.office_http_requests.specs.Routes.{office_routes};
ghost use Rattle.office_http.specs.steps.Calls.{AsksCounted, RunsAction};
ghost use Rattle.office_http.specs.Serve.{mail_counts, unbroken_of, refusal_for, delivery_answer, is_of_other, waits_of, StopsBefore, CountsFaults, ServesOne, StopsOne};
ghost use Rattle.office_http.specs.steps.ServeSteps.{if_known, report_answer, why_answer, letter_answer};
ghost use Rattle.office_core_why.specs.Why.{IsWhy};
ghost use Rattle.office_http.specs.steps.ServeSteps.{answer_or, part_answer, status_answer, text_answer, Tells, TellsAwaited, TellsShort, Runs, Answers, StopsRequest, ServesHead};
ghost use Rattle.office_http.specs.Trials.{has_many_hints, terms_of};
ghost use Rattle.office_core_facts.specs.State.{state_of};
ghost use Rattle.office_mail.specs.Counts.{CountsFailure};
ghost use Rattle.office_mail.specs.Written.{AppendsFront};

use crate::breaks::{breaks_body, breaks_of};
use crate::proposals::{propose_for, propose_groups, propose_on};
use crate::short_texts::{is_told_whole, short_answer};
use crate::trials::{has_many_hints, request_terms, terms_on, try_body};
use deb_control::{NoMemory, Text};
use httparse::spans::{EMPTY_HEADER_SPAN, HeaderSpan, RequestSpans};
use jiff_core::civil::Date;
use office_core::Office;
use office_core_orders::{Progress, waiting_text};
use office_core_outcome::TrialOptions;
use office_core_queries::{bag_part, mail_counts, mail_text, order_text, runs_text};
use office_core_replay::{Unwatched, settle_behind};
use office_core_replies::{DeliverFault, Held};
use office_core_store::StoreFault;
use office_core_why::WhyText;
use office_http_requests::routes::{Routes, routes};
use office_http_requests::{
    Action, Answer, Asked, BodyRead, FIELD_ROOM, HeadRead, Page, Posted, Refusal, asked_of,
    is_head_method, read_head, read_up_to, write_answer, write_continue,
};
use office_mail::{Feed, MailFault, ReadFailed, Setup, Sink, WriteFault, read_message};
use office_store_keeper::{Keeper, MailText};
use std::alloc::Global;
use thiserror::Error;

/// The result of a connection: the status code of the reply, none if no byte came.
#[derive(Clone, Copy, Debug, PartialEq, Eq)]
pub struct Served {
    pub code: Option<u16>,
}

/// Why a connection wasn't served to its end.
#[derive(Clone, Copy, Debug, PartialEq, Eq, Error)]
pub enum ServeFault {
    #[error("the request can't be read")]
    Read,
    #[error("the reply can't be written")]
    Write,
}

impl From<ReadFailed> for ServeFault {
    ghost use Rattle.std.specs.Prelude.{◌≡◌};
    ghost use Rattle.office_http.specs.declared.serve.ServeFault.TheVariants.{Read};

    ghost from_gives = { λ _ e. e ≡ Read };

    fn from(_e: ReadFailed) -> ServeFault {
        ServeFault::Read
    }
}

impl From<WriteFault> for ServeFault {
    ghost use Rattle.std.specs.Prelude.{◌≡◌};
    ghost use Rattle.office_http.specs.declared.serve.ServeFault.TheVariants.{Write};

    ghost from_gives = { λ _ e. e ≡ Write };

    fn from(_e: WriteFault) -> ServeFault {
        ServeFault::Write
    }
}

/// The refusal for a fault of memory or of the store.
fn refusal_for(fault: StoreFault) -> Refusal
    ensures { result ≡ refusal_for fault }
{
    match fault {
        StoreFault::NoMemory => Refusal::NoMemory,
        StoreFault::Store => Refusal::Store,
    }
}

fn status_answer(status: Result<Progress, StoreFault>) -> Answer
    ensures { result ≡ status_answer status }
{
    match status {
        Ok(progress) => Answer::Status(progress),
        Err(fault) => Answer::Refused(refusal_for(fault)),
    }
}

fn text_answer(text: Result<Text, StoreFault>) -> Answer
    ensures { result ≡ text_answer text }
{
    match text {
        Ok(text) => Answer::Told(text),
        Err(fault) => Answer::Refused(refusal_for(fault)),
    }
}

fn report_answer(report: Result<Option<Text>, StoreFault>) -> Answer
    ensures { result ≡ report_answer report }
{
    match report {
        Ok(Some(text)) => Answer::Told(text),
        Ok(None) => Answer::Refused(Refusal::NoRun),
        Err(fault) => Answer::Refused(refusal_for(fault)),
    }
}

/// The answer on a source, given the text on it.
fn why_answer(told: Result<Option<WhyText>, StoreFault>) -> Answer
    ensures { result ≡ why_answer told }
{
    match told {
        Ok(Some(why)) => known_answer(why.is_known, why.text),
        Ok(None) => Answer::Refused(Refusal::NoRun),
        Err(fault) => Answer::Refused(refusal_for(fault)),
    }
}

/// A text on a source, if unstable has the source.
fn known_answer(is_known: bool, text: Text) -> Answer
    ensures { result ≡ if_known is_known text }
{
    if is_known {
        return Answer::Told(text);
    }
    drop(text);
    Answer::Refused(Refusal::NoSource)
}

fn part_answer(bag: Result<MailText, StoreFault>) -> Answer
    ensures { result ≡ part_answer bag }
{
    match bag {
        Ok(bag) => Answer::Letter(bag),
        Err(fault) => Answer::Refused(refusal_for(fault)),
    }
}

fn letter_answer(text: Result<Option<MailText>, StoreFault>) -> Answer
    ensures { result ≡ letter_answer text }
{
    match text {
        Ok(Some(text)) => Answer::Letter(text),
        Ok(None) => Answer::Refused(Refusal::NoMessage),
        Err(fault) => Answer::Refused(refusal_for(fault)),
    }
}

fn delivery_answer(reply: Result<Held, DeliverFault>) -> Answer
    ensures { result ≡ delivery_answer reply }
{
    match reply {
        Err(DeliverFault::Mail(MailFault::NoMemory)) => Answer::Refused(Refusal::NoMemory),
        Err(DeliverFault::Store) => Answer::Refused(Refusal::Store),
        reply => Answer::Delivered(reply),
    }
}

/// The answer of a call on the office, or to a fault.
fn answer_or(answer: Result<Answer, StoreFault>) -> Answer
    ensures { result ≡ answer_or answer }
{
    match answer {
        Ok(answer) => answer,
        Err(fault) => Answer::Refused(refusal_for(fault)),
    }
}

/// The text on what the first run that isn't ready waits for.
fn awaited_text<K: Keeper>(office: &mut Office<K>) -> Result<Text, StoreFault>
    ensures asks { AsksCounted K.Keeper office.old office.new result }
    ensures tells { Holds K.Keeper office.old office.new → IfOk result (λ text. TellsAwaited (state_of K.Keeper office.old) text) }
{
    let waiting = office.waiting()?;
    Ok(waiting_text(office.alloc(), office.setup(), &waiting)?)
}

/// The text on how much mail is kept of each sender.
fn counted_text<K: Keeper>(office: &mut Office<K>) -> Result<Text, StoreFault>
    ensures asks { AsksCounted K.Keeper office.old office.new result }
    ensures text { Holds K.Keeper office.old office.new → IfOk result (λ text. text ≡ mail_text (K.setup office.old) (mail_counts (K.setup office.old) (K.content office.old).kept)) }
{
    let counts = mail_counts(office)?;
    Ok(mail_text(office.alloc(), office.setup(), &counts)?)
}

/// The text of the next order, on a day, over all mail without a gap.
fn order_on<K: Keeper>(office: &mut Office<K>, day: Date) -> Result<Text, StoreFault>
    ensures asks { AsksCounted K.Keeper office.old office.new result }
    ensures text { Holds K.Keeper office.old office.new → IfOk result (λ text. text ≡ order_text (K.setup office.old) (unbroken_of (K.content office.old).kept) day) }
{
    let unbroken = office.unbroken()?;
    Ok(order_text(office.alloc(), office.setup(), &unbroken, day)?)
}

/// The text on a source by the last finished run, none if no run is finished.
fn source_text<K: Keeper>(
    office: &mut Office<K>,
    source: Text,
) -> Result<Option<WhyText>, StoreFault>
    ensures asks { AsksCounted K.Keeper office.old office.new result }
    ensures tells { Holds K.Keeper office.old office.new → IfOk result (IsWhy (K.setup office.old) (K.content office.old).kept (state_of K.Keeper office.old).finished source) }
{
    let text = office.why_text(source.as_str());
    drop(source);
    text
}

/// Returns a text of the office, however long it is.
fn tell_whole<K: Keeper>(office: &mut Office<K>, page: Page) -> Answer
    ensures asks { Asks K.Keeper office.old office.new }
    ensures place { HasPlace (K.setup office.old) result }
    ensures tells { Holds K.Keeper office.old office.new → Tells (state_of K.Keeper office.old) page result (StoreRefused K.Keeper office.old office.new) }
{
    match page {
        Page::Status => status_answer(office.status()),
        Page::Testing => text_answer(office.testing_text()),
        Page::Excuses(run) => report_answer(office.excuses_text(run)),
        Page::Update(run) => report_answer(office.update_text(run)),
        Page::Waiting => text_answer(awaited_text(office)),
        Page::Runs => text_answer(runs_text(office)),
        Page::Kept => text_answer(counted_text(office)),
        Page::Letter { sender, number } => letter_answer(office.kept_text(sender, number)),
        Page::Bag { sender, from } => part_answer(bag_part(office, sender, from)),
        Page::Why(source) => why_answer(source_text(office, source)),
        Page::Order(day) => text_answer(order_on(office, day)),
        Page::Hints => text_answer(office.hints_text()),
        Page::Unstable => text_answer(office.unstable_text()),
        Page::Propose => answer_or(propose_groups(office)),
        Page::ProposeOn(day) => answer_or(propose_on(office, day)),
        Page::ProposeFor(source) => answer_or(propose_for(office, source)),
        Page::Breaks(source) => answer_or(breaks_of(office, source)),
    }
}

/// Returns a text of the office. It is cut if it is too long, except testing, unstable and the reports of runs.
fn tell<K: Keeper>(office: &mut Office<K>, page: Page) -> Answer
    ensures asks { Asks K.Keeper office.old office.new }
    ensures place { HasPlace (K.setup office.old) result }
    ensures tells { Holds K.Keeper office.old office.new → TellsShort (state_of K.Keeper office.old) page result (StoreRefused K.Keeper office.old office.new) }
{
    let is_whole = is_told_whole(&page);
    let answer = tell_whole(office, page);
    if is_whole {
        return answer;
    }
    answer_or(short_answer(office.alloc(), answer))
}

/// Delivers a text, and settles if it is held. A fault of that settle doesn't change the reply.
fn deliver_and_settle<K: Keeper>(office: &mut Office<K>, text: &[u8]) -> Result<Held, DeliverFault>
    ensures carries { Preserves K.Keeper office.old office.new }
    ensures place { HasPlace (K.setup office.old) (delivery_answer result) }
    ensures runs { RunsAction K.Keeper office.old office.new Action.Deliver text.now (delivery_answer result) }
{
    let reply = office.deliver(text);
    settle_behind(office, &reply, &mut Unwatched);
    reply
}

/// Delivers a text, settles if it is held, and answers.
fn answer_delivery<K: Keeper>(office: &mut Office<K>, text: &[u8]) -> Answer
    ensures carries { Preserves K.Keeper office.old office.new }
    ensures place { HasPlace (K.setup office.old) result }
    ensures runs { RunsAction K.Keeper office.old office.new Action.Deliver text.now result }
{
    delivery_answer(deliver_and_settle(office, text))
}

/// Whether a text is a message of another sender. It fails only if memory runs out.
fn is_of_other(alloc: Global, setup: &Setup, sender: u32, text: &[u8]) -> Result<bool, NoMemory>
    ensures { IfOk result (λ other. other ≡ is_of_other sender (read setup.now text.now)) }
{
    match read_message(alloc, setup, text) {
        Ok(message) => Ok(message.sender != sender),
        Err(MailFault::NoMemory) => Err(NoMemory),
        Err(_) => Ok(false),
    }
}

/// Delivers a text that is no message of another sender, settles if it is held, and answers.
fn answer_delivery_of<K: Keeper>(office: &mut Office<K>, sender: u32, text: &[u8]) -> Answer
    ensures carries { Preserves K.Keeper office.old office.new }
    ensures place { HasPlace (K.setup office.old) result }
    ensures runs { RunsAction K.Keeper office.old office.new (Action.DeliverOf sender) text.now result }
{
    match is_of_other(office.alloc(), office.setup(), sender, text) {
        Ok(false) => answer_delivery(office, text),
        Ok(true) => Answer::Refused(Refusal::OtherSender),
        Err(_) => Answer::Refused(Refusal::NoMemory),
    }
}

/// Answers as a delivery of the text would be answered, and keeps nothing.
fn answer_look<K: Keeper>(office: &mut Office<K>, text: &[u8]) -> Answer
    ensures carries { Preserves K.Keeper office.old office.new }
    ensures place { HasPlace (K.setup office.old) result }
    ensures runs { RunsAction K.Keeper office.old office.new Action.Look text.now result }
{
    delivery_answer(office.answer(text))
}

/// Settles, and answers by how many runs are ready and finished.
fn answer_settlement<K: Keeper>(office: &mut Office<K>, text: &[u8]) -> Answer
    ensures carries { Preserves K.Keeper office.old office.new }
    ensures place { HasPlace (K.setup office.old) result }
    ensures runs { RunsAction K.Keeper office.old office.new Action.Settle text.now result }
{
    status_answer(office.settle())
}

/// Tries the few hints of a body on these terms. A body that isn't UTF-8 is answered as mail that isn't.
fn try_few<K: Keeper>(office: &mut Office<K>, terms: TrialOptions, body: &[u8]) -> Answer
    requires { has_many_hints body.now ≡ false }
    ensures carries { Preserves K.Keeper office.old office.new }
    ensures place { HasPlace (K.setup office.old) result }
    ensures runs { Holds K.Keeper office.old office.new → (action : Action) → terms_of action ≡ Some terms → Runs (state_of K.Keeper office.old) (state_of K.Keeper office.new) action body.now result (StoreRefused K.Keeper office.old office.new) }
{
    match str::from_utf8(body) {
        Ok(text) => answer_or(try_body(office, terms, text)),
        Err(_) => Answer::Delivered(Err(DeliverFault::Mail(MailFault::BadParagraph))),
    }
}

/// Tries the hints of a body on these terms, unless they are too many.
fn try_bytes<K: Keeper>(office: &mut Office<K>, terms: TrialOptions, body: &[u8]) -> Answer
    ensures carries { Preserves K.Keeper office.old office.new }
    ensures place { HasPlace (K.setup office.old) result }
    ensures runs { Holds K.Keeper office.old office.new → (action : Action) → terms_of action ≡ Some terms → Runs (state_of K.Keeper office.old) (state_of K.Keeper office.new) action body.now result (StoreRefused K.Keeper office.old office.new) }
{
    if has_many_hints(body) {
        return Answer::Refused(Refusal::TooManyHints);
    }
    try_few(office, terms, body)
}

/// Tells what a change breaks that a body names. A body that isn't UTF-8 is answered as mail that isn't.
fn break_bytes<K: Keeper>(office: &mut Office<K>, body: &[u8]) -> Answer
    ensures carries { Preserves K.Keeper office.old office.new }
    ensures place { HasPlace (K.setup office.old) result }
    ensures runs { RunsAction K.Keeper office.old office.new Action.Breaks body.now result }
{
    match str::from_utf8(body) {
        Ok(text) => answer_or(breaks_body(office, text)),
        Err(_) => Answer::Delivered(Err(DeliverFault::Mail(MailFault::BadParagraph))),
    }
}

/// Does what a POST with this body asks for.
fn run<K: Keeper>(office: &mut Office<K>, action: Action, body: &[u8]) -> Answer
    ensures carries { Preserves K.Keeper office.old office.new }
    ensures place { HasPlace (K.setup office.old) result }
    ensures runs { RunsAction K.Keeper office.old office.new action body.now result }
{
    match action {
        Action::Deliver => answer_delivery(office, body),
        Action::DeliverOf(sender) => answer_delivery_of(office, sender, body),
        Action::Look => answer_look(office, body),
        Action::Settle => answer_settlement(office, body),
        Action::Try => try_bytes(office, request_terms(), body),
        Action::TryOn(day) => try_bytes(office, terms_on(day), body),
        Action::Breaks => break_bytes(office, body),
    }
}

/// Reads the body of a POST, and does what it asks for. Nothing is done before the whole body has come.
fn answer_post<K: Keeper, R: Feed, W: Sink>(
    office: &mut Office<K>,
    posted: Posted,
    start: usize,
    seen: &mut Vec<u8>,
    reader: &mut R,
    writer: &mut W,
) -> Result<Answer, ServeFault>
    requires { start ≤ length seen.old.items }
    ensures carries { Preserves K.Keeper office.old office.new }
    ensures place { IfOk result (λ answer. HasPlace (K.setup office.old) answer) }
    ensures ok { Holds K.Keeper office.old office.new → IfOk result (λ answer. Answers (state_of K.Keeper office.old) (state_of K.Keeper office.new) (R.left reader.old) (R.left reader.new) (W.written writer.old) (W.written writer.new) (drop start seen.old.items) (Asked.Post posted) answer (StoreRefused K.Keeper office.old office.new)) }
    ensures err { K.is_trusted office.new → OnErr result (StopsBefore (state_of K.Keeper office.old) (state_of K.Keeper office.new) (R.left reader.old) (R.left reader.new) (W.written writer.old) (W.written writer.new) posted.length (λ input. posted.waits ≡ true)) }
    ensures calls { R.calls reader.new ≤ R.calls reader.old + posted.length }
    ensures counts { CountsFaults (R.failures reader.old) (R.failures reader.new) (W.failures writer.old) (W.failures writer.new) result }
{
    write_continue(posted.waits, writer)?;
    let end = start + posted.length as usize;
    match read_up_to(reader, seen, end)? {
        BodyRead::Whole => Ok(run(office, posted.action, &seen[start..end])),
        BodyRead::BrokenOff => Ok(Answer::Refused(Refusal::BadRequest)),
        BodyRead::NoMemory => Ok(Answer::Refused(Refusal::NoMemory)),
    }
}

/// Answers a request whose head is at the beginning of the bytes seen, given what it asks for; none if memory ran out.
fn answer_request<K: Keeper, R: Feed, W: Sink>(
    office: &mut Office<K>,
    asked: Option<Asked>,
    start: usize,
    seen: &mut Vec<u8>,
    reader: &mut R,
    writer: &mut W,
) -> Result<Answer, ServeFault>
    requires start { start ≤ length seen.old.items }
    requires fits { IfSome asked (λ a. body_size a ≤ body_room) }
    ensures carries { Preserves K.Keeper office.old office.new }
    ensures place { IfOk result (λ answer. HasPlace (K.setup office.old) answer) }
    ensures ok { Holds K.Keeper office.old office.new → IfOk result (λ answer. (due : Asked) → IfSome asked (λ a. a ≡ due) → Answers (state_of K.Keeper office.old) (state_of K.Keeper office.new) (R.left reader.old) (R.left reader.new) (W.written writer.old) (W.written writer.new) (drop start seen.old.items) due answer (StoreRefused K.Keeper office.old office.new)) }
    ensures err { K.is_trusted office.new → OnErr result (StopsBefore (state_of K.Keeper office.old) (state_of K.Keeper office.new) (R.left reader.old) (R.left reader.new) (W.written writer.old) (W.written writer.new) body_room (λ input. (due : Asked) → IfSome asked (λ a. a ≡ due) → waits_of due ≡ true)) }
    ensures calls { R.calls reader.new ≤ R.calls reader.old + body_room }
    ensures counts { CountsFaults (R.failures reader.old) (R.failures reader.new) (W.failures writer.old) (W.failures writer.new) result }
{
    match asked {
        None => Ok(Answer::Refused(Refusal::NoMemory)),
        Some(Asked::Refused(refusal)) => Ok(Answer::Refused(refusal)),
        Some(Asked::Tell(page)) => Ok(tell(office, page)),
        Some(Asked::Post(posted)) => answer_post(office, posted, start, seen, reader, writer),
    }
}

/// The places of the parts of a head in the bytes that came.
#[derive(Clone, Copy)]
struct HeadParts<'a> {
    spans: RequestSpans,
    headers: &'a [HeaderSpan],
}

/// Serves a request whose head has come.
fn serve_request<K: Keeper, R: Feed, W: Sink>(
    office: &mut Office<K>,
    table: &Routes,
    seen: &mut Vec<u8>,
    head: HeadParts<'_>,
    reader: &mut R,
    writer: &mut W,
) -> Result<u16, ServeFault>
    requires table { table.now ≡ office_routes }
    requires head { IsHeadAt seen.old.items head.headers.now head.spans }
    ensures carries { Preserves K.Keeper office.old office.new }
    ensures ok { Holds K.Keeper office.old office.new → IfOk result (λ code. ServesHead (state_of K.Keeper office.old) (state_of K.Keeper office.new) (R.left reader.old) (R.left reader.new) (W.written writer.old) (W.written writer.new) seen.old.items code (StoreRefused K.Keeper office.old office.new)) }
    ensures err { Holds K.Keeper office.old office.new → IfErr result (λ fault. StopsRequest (state_of K.Keeper office.old) (state_of K.Keeper office.new) (R.left reader.old) (R.left reader.new) (W.written writer.old) (W.written writer.new) seen.old.items fault (StoreRefused K.Keeper office.old office.new)) }
    ensures calls { R.calls reader.new ≤ R.calls reader.old + body_room }
    ensures counts { CountsFaults (R.failures reader.old) (R.failures reader.new) (W.failures writer.old) (W.failures writer.new) result }
{
    let HeadParts { spans, headers } = head;
    let is_head = is_head_method(seen.as_slice(), spans);
    let asked = asked_of(
        office.alloc(),
        table,
        office.setup(),
        seen.as_slice(),
        spans,
        headers,
    )
    .ok();
    let answer = answer_request(office, asked, spans.len, seen, reader, writer)?;
    Ok(write_answer(office.setup(), &answer, is_head, writer)?)
}

/// Refuses bytes that are no request.
fn refuse<W: Sink>(setup: &Setup, refusal: Refusal, writer: &mut W) -> Result<Served, ServeFault>
    ensures code { IfOk result (λ served. served.code ≡ Some (refused refusal).code) }
    ensures ok { OnOk result (Appends (W.written writer.old) (W.written writer.new) (reply_bytes (refused refusal) false)) }
    ensures err { IfErr result (λ fault. (fault ≡ ServeFault.Write) × AppendsFront (W.written writer.old) (W.written writer.new) (reply_bytes (refused refusal) false)) }
    ensures failures { CountsFailure (W.failures writer.old) (W.failures writer.new) result }
{
    let code = write_answer(setup, &Answer::Refused(refusal), false, writer)?;
    Ok(Served { code: Some(code) })
}

/// Reads one request, does what it asks for, and writes its reply.
///
/// At most 8,192 bytes of a head and 65,536 of a body are read; what follows is ignored. The reply allocates nothing,
/// so that a 503 to a delivery says that nothing was added. `Write` comes only if the writer failed or took no byte,
/// and `Read` only if the reader failed; then nothing was delivered or settled.
///
/// The caller owns the table of routes, and makes it once for many connections.
pub fn serve_with_routes<K: Keeper, R: Feed, W: Sink>(
    office: &mut Office<K>,
    table: &Routes,
    reader: &mut R,
    writer: &mut W,
) -> Result<Served, ServeFault>
    requires { table.now ≡ office_routes }
    // A store trusted after it was trusted before, and holds an office's state if it did.
    ensures carries { Preserves K.Keeper office.old office.new }
    // The reply is a function of the request, of the office's state and of the faults that were met. A fault of the
    // store is reported only if the store counted a refusal.
    ensures ok { ServesOne K.Keeper R.Feed W.Sink office.old office.new reader.old reader.new writer.old writer.new result }
    ensures err { StopsOne K.Keeper R.Feed W.Sink office.old office.new reader.old reader.new writer.old writer.new result }
    // Finished runs stay: their reports, and testing unless another run finished.
    ensures runs { Holds K.Keeper office.old office.new → RunsStand (K.content office.old) (K.content office.new) }
    // The reader is asked at most once for each byte that a head and a body may have.
    ensures calls { R.calls reader.new ≤ R.calls reader.old + (head_room + body_room) }
    ensures counts { CountsFaults (R.failures reader.old) (R.failures reader.new) (W.failures writer.old) (W.failures writer.new) result }
{
    let mut headers = [EMPTY_HEADER_SPAN; FIELD_ROOM];
    let mut seen = Vec::new(office.alloc());
    match read_head(reader, &mut seen, &mut headers)? {
        HeadRead::Nothing => Ok(Served { code: None }),
        HeadRead::Head(spans) => {
            let head = HeadParts {
                spans,
                headers: &headers,
            };
            let code = serve_request(office, table, &mut seen, head, reader, writer)?;
            Ok(Served { code: Some(code) })
        }
        HeadRead::HeadTooLarge => refuse(office.setup(), Refusal::HeadTooLarge, writer),
        HeadRead::BadRequest => refuse(office.setup(), Refusal::BadRequest, writer),
        HeadRead::NoMemory => refuse(office.setup(), Refusal::NoMemory, writer),
    }
}

/// The same with a table of routes of its own. Without memory for that table nothing is read, and the reply says so.
pub fn serve_one<K: Keeper, R: Feed, W: Sink>(
    office: &mut Office<K>,
    reader: &mut R,
    writer: &mut W,
) -> Result<Served, ServeFault>
    ensures carries { Preserves K.Keeper office.old office.new }
    ensures ok { ServesOne K.Keeper R.Feed W.Sink office.old office.new reader.old reader.new writer.old writer.new result }
    ensures err { StopsOne K.Keeper R.Feed W.Sink office.old office.new reader.old reader.new writer.old writer.new result }
    ensures runs { Holds K.Keeper office.old office.new → RunsStand (K.content office.old) (K.content office.new) }
    ensures calls { R.calls reader.new ≤ R.calls reader.old + (head_room + body_room) }
    ensures counts { CountsFaults (R.failures reader.old) (R.failures reader.new) (W.failures writer.old) (W.failures writer.new) result }
{
    match routes(office.alloc()) {
        Ok(table) => serve_with_routes(office, &table, reader, writer),
        Err(_) => refuse(office.setup(), Refusal::NoMemory, writer),
    }
}
