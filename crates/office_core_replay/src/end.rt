//! The texts at the end of a replay.
ghost use Rattle.std.specs.Prelude.{◌≡◌, [], is_err, ◌+◌, ◌≤◌, ◌++◌, ◌||◌, Some, OnErr, IfOk};
ghost use Rattle.office_core.specs.Preserves.{Asks, Holds, StoreRefused};
ghost use Rattle.office_mail.specs.Counts.{CountsFailure};
ghost use Rattle.office_core_replies.specs.Replies.{bag_line};
ghost use Rattle.office_mail.specs.Written.{Writes};
ghost use Rattle.office_core_replay.specs.Output.{or_refused};
ghost use Rattle.office_core_replay.specs.steps.Ending.{status_shown, text_shown, report_shown, WritesRun, WritesRunFront, WritesReports, WritesReportsFront, WritesNews, WritesNewsFront, WritesEnd, WritesEndFront};
ghost use Rattle.office_core_facts.specs.State.{state_of};

use deb_control::Text;
use office_core::Office;
use office_core_orders::Progress;
use office_core_store::StoreFault;
use office_mail::{BagFault, Digits, Sink, WriteFault, write_all, write_parts};
use office_store_keeper::Keeper;

/// The line for a bag that is refused.
fn bag_refusal(fault: BagFault) -> &'static str
    ensures { result.now ≡ bag_line (Some fault) }
{
    match fault {
        BagFault::BadHeader => "bag refused BadHeader\n",
        BagFault::Truncated => "bag refused Truncated\n",
        BagFault::ReadFault => "bag refused ReadFault\n",
        BagFault::NoMemory => "bag refused NoMemory\n",
    }
}

/// Writes the line for a bag that is refused, none for a plain end.
pub(crate) fn write_bag<W: Sink>(end: Option<BagFault>, writer: &mut W) -> Result<(), WriteFault>
    ensures { Writes W.Sink writer.old writer.new (bag_line end) result }
{
    match end {
        None => write_parts(writer, &[]),
        Some(fault) => write_all(writer, bag_refusal(fault).as_bytes()),
    }
}

/// The line in the place of a text that is missing.
fn refusal(fault: StoreFault) -> &'static str
    ensures { result.now ≡ or_refused (Some fault) [] }
{
    match fault {
        StoreFault::NoMemory => "refused NoMemory\n",
        StoreFault::Store => "refused Store\n",
    }
}

/// Writes the line in the place of a text that is missing.
pub(crate) fn write_refusal<W: Sink>(fault: StoreFault, writer: &mut W) -> Result<(), WriteFault>
    ensures { Writes W.Sink writer.old writer.new (or_refused (Some fault) []) result }
{
    write_all(writer, refusal(fault).as_bytes())
}

/// Writes the line of the status.
fn write_status<W: Sink>(
    status: &Result<Progress, StoreFault>,
    writer: &mut W,
) -> Result<(), WriteFault>
    ensures { Writes W.Sink writer.old writer.new (status_shown status.now) result }
{
    match status {
        Ok(progress) => {
            let ready = Digits::of(u64::from(progress.ready));
            let finished = Digits::of(u64::from(progress.finished));
            let parts = [
                b"ready ".as_slice(),
                ready.as_slice(),
                b" finished ".as_slice(),
                finished.as_slice(),
                b"\n".as_slice(),
            ];
            write_parts(writer, &parts)
        }
        Err(fault) => write_refusal(*fault, writer),
    }
}

/// Writes a text.
fn write_text<W: Sink>(text: &Result<Text, StoreFault>, writer: &mut W) -> Result<(), WriteFault>
    ensures { Writes W.Sink writer.old writer.new (text_shown text.now) result }
{
    match text {
        Ok(text) => write_all(writer, text.as_str().as_bytes()),
        Err(fault) => write_refusal(*fault, writer),
    }
}

/// Writes a report. A run that isn't finished has none.
fn write_report<W: Sink>(
    report: &Result<Option<Text>, StoreFault>,
    writer: &mut W,
) -> Result<(), WriteFault>
    ensures { Writes W.Sink writer.old writer.new (report_shown report.now) result }
{
    match report {
        Ok(Some(text)) => write_all(writer, text.as_str().as_bytes()),
        Ok(None) => write_parts(writer, &[]),
        Err(fault) => write_refusal(*fault, writer),
    }
}

/// Writes the two reports of a finished run. True if one is missing.
fn write_run<K: Keeper, W: Sink>(
    office: &mut Office<K>,
    run: u32,
    writer: &mut W,
) -> Result<bool, WriteFault>
    requires { 1 ≤ run }
    ensures asks { Asks K.Keeper office.old office.new }
    ensures ok { Holds K.Keeper office.old office.new → run ≤ (state_of K.Keeper office.old).finished → IfOk result (λ lost. WritesRun (state_of K.Keeper office.old) run (W.written writer.old) (W.written writer.new) lost (StoreRefused K.Keeper office.old office.new)) }
    ensures err { Holds K.Keeper office.old office.new → run ≤ (state_of K.Keeper office.old).finished → OnErr result (WritesRunFront (state_of K.Keeper office.old) run (W.written writer.old) (W.written writer.new) (StoreRefused K.Keeper office.old office.new)) }
    ensures failures { CountsFailure (W.failures writer.old) (W.failures writer.new) result }
{
    let excuses = office.excuses_text(run);
    let updates = office.update_text(run);
    let lost = write_both(&excuses, &updates, writer);
    drop(updates);
    drop(excuses);
    lost
}

/// Writes two reports. True if one is missing.
fn write_both<W: Sink>(
    excuses: &Result<Option<Text>, StoreFault>,
    updates: &Result<Option<Text>, StoreFault>,
    writer: &mut W,
) -> Result<bool, WriteFault>
    ensures writes { Writes W.Sink writer.old writer.new (report_shown excuses.now ++ report_shown updates.now) result }
    ensures lost { IfOk result (λ lost. lost ≡ (is_err excuses.now || is_err updates.now)) }
{
    write_report(excuses, writer)?;
    write_report(updates, writer)?;
    Ok(is_one_missing(excuses, updates))
}

fn is_one_missing(
    excuses: &Result<Option<Text>, StoreFault>,
    updates: &Result<Option<Text>, StoreFault>,
) -> bool
    ensures { result ≡ (is_err excuses.now || is_err updates.now) }
{
    excuses.is_err() || updates.is_err()
}

pub(crate) fn either(one: bool, other: bool) -> bool
    ensures { result ≡ (one || other) }
{
    one || other
}

/// Writes the reports of the runs after one run up to another. True if one is missing.
fn write_reports<K: Keeper, W: Sink>(
    office: &mut Office<K>,
    before: u32,
    finished: u32,
    writer: &mut W,
) -> Result<bool, WriteFault>
    ensures asks { Asks K.Keeper office.old office.new }
    ensures ok { Holds K.Keeper office.old office.new → before ≤ finished → finished ≡ (state_of K.Keeper office.old).finished → IfOk result (λ lost. WritesReports (state_of K.Keeper office.old) before finished (W.written writer.old) (W.written writer.new) lost (StoreRefused K.Keeper office.old office.new)) }
    ensures err { Holds K.Keeper office.old office.new → before ≤ finished → finished ≡ (state_of K.Keeper office.old).finished → OnErr result (WritesReportsFront (state_of K.Keeper office.old) before finished (W.written writer.old) (W.written writer.new) (StoreRefused K.Keeper office.old office.new)) }
    ensures failures { CountsFailure (W.failures writer.old) (W.failures writer.new) result }
{
    let mut lost = false;
    let mut done = before;
    while done < finished {
        let missing = write_run(office, done + 1, writer)?;
        lost = either(lost, missing);
        done += 1;
    }
    Ok(lost)
}

/// Writes the reports of the runs after this one. True if one is missing.
fn write_news<K: Keeper, W: Sink>(
    office: &mut Office<K>,
    before: u32,
    writer: &mut W,
) -> Result<bool, WriteFault>
    ensures asks { Asks K.Keeper office.old office.new }
    ensures ok { Holds K.Keeper office.old office.new → before ≤ (state_of K.Keeper office.old).finished → IfOk result (λ lost. WritesNews (state_of K.Keeper office.old) before (W.written writer.old) (W.written writer.new) lost (StoreRefused K.Keeper office.old office.new)) }
    ensures err { Holds K.Keeper office.old office.new → before ≤ (state_of K.Keeper office.old).finished → OnErr result (WritesNewsFront (state_of K.Keeper office.old) before (W.written writer.old) (W.written writer.new) (StoreRefused K.Keeper office.old office.new)) }
    ensures failures { CountsFailure (W.failures writer.old) (W.failures writer.new) result }
{
    match office.finished() {
        Ok(finished) => write_reports(office, before, finished, writer),
        Err(fault) => {
            write_refusal(fault, writer)?;
            Ok(true)
        }
    }
}

/// Writes the status, the reports of the runs after this one, and testing. True if one is missing.
pub(crate) fn write_end<K: Keeper, W: Sink>(
    office: &mut Office<K>,
    before: u32,
    writer: &mut W,
) -> Result<bool, WriteFault>
    ensures asks { Asks K.Keeper office.old office.new }
    ensures ok { Holds K.Keeper office.old office.new → before ≤ (state_of K.Keeper office.old).finished → IfOk result (λ lost. WritesEnd (state_of K.Keeper office.old) before (W.written writer.old) (W.written writer.new) lost (StoreRefused K.Keeper office.old office.new)) }
    ensures err { Holds K.Keeper office.old office.new → before ≤ (state_of K.Keeper office.old).finished → OnErr result (WritesEndFront (state_of K.Keeper office.old) before (W.written writer.old) (W.written writer.new) (StoreRefused K.Keeper office.old office.new)) }
    ensures failures { CountsFailure (W.failures writer.old) (W.failures writer.new) result }
{
    let status = office.status();
    write_status(&status, writer)?;
    let news_lost = write_news(office, before, writer)?;
    let testing = office.testing_text();
    write_text(&testing, writer)?;
    Ok(either(either(status.is_err(), news_lost), testing.is_err()))
}
