//! What is printed without a run: a report of an earlier run, testing, unstable, what the first run that isn't ready
//! waits for, the version.

ghost use Rattle.std.specs.Prelude.{◌≡◌, IfOk};
ghost use Rattle.office_cli.specs.Told.{IsReportText};
ghost use Rattle.office_cli.specs.steps.Told.{status_of_awaited};
ghost use Rattle.office_core.specs.Preserves.{Holds};
ghost use Rattle.office_core_facts.specs.State.{state_of};

use crate::status::ExitStatus;
use deb_control::Text;
use office_cli_words::Report;
use office_core_orders::{Awaited, Waiting, waiting_text};
use office_http::{Office, StoreFault};
use office_store::Keeper;

/// The program's version.
const VERSION: &str = "0.10.0";

/// The kit that the program is for. The log of the gate says whether it was proved by it.
const KIT: &str = "rattle-kit-13f";

/// Prints the program's version and its kit, and returns the exit status.
pub fn print_version(rt: &HostRuntime) -> u8 {
    match println!(rt; "office {VERSION}\nfor {KIT}") {
        Ok(()) => 0,
        Err(_) => refuse_output(rt),
    }
}

/// Prints a report of an earlier run, testing or unstable, and returns the exit status. If the run isn't finished,
/// prints that on standard error.
pub fn print_report<K: Keeper>(rt: &HostRuntime, office: &mut Office<K>, report: Report) -> u8 {
    match report_text(office, report) {
        Ok(Some(text)) => print_text(rt, &text, 0),
        Ok(None) => refuse_unfinished(rt),
        Err(fault) => refuse(rt, fault),
    }
}

/// The text of a report, none if its run isn't finished.
fn report_text<K: Keeper>(
    office: &mut Office<K>,
    report: Report,
) -> Result<Option<Text>, StoreFault>
    ensures text { Holds K.Keeper office.old office.new → IfOk result (IsReportText (state_of K.Keeper office.old) report) }
    // Nothing is finished and nothing else changes.
    ensures same { K.is_trusted office.new → K.content office.new ≡ K.content office.old }
{
    match report {
        Report::Testing => Ok(Some(office.testing_text()?)),
        Report::Unstable => Ok(Some(office.unstable_text()?)),
        Report::Excuses(run) => office.excuses_text(run),
        Report::Update(run) => office.update_text(run),
    }
}

/// Prints what the first run that isn't ready waits for, and returns the exit status.
pub fn print_waiting<K: Keeper>(rt: &HostRuntime, office: &mut Office<K>) -> u8 {
    match office.waiting() {
        Ok(waiting) => print_awaited(rt, office, &waiting),
        Err(fault) => refuse(rt, fault),
    }
}

/// Prints what a run waits for, and returns the exit status.
fn print_awaited<K: Keeper>(rt: &HostRuntime, office: &Office<K>, waiting: &Waiting) -> u8 {
    match waiting_text(rt.alloc(), office.setup(), waiting) {
        Ok(text) => print_text(rt, &text, waiting_status(&waiting.awaited)),
        Err(_) => refuse(rt, StoreFault::NoMemory),
    }
}

/// The exit status of what a run waits for: 0 if that is its order, 1 if it is mail.
fn waiting_status(awaited: &Awaited) -> u8
    ensures { result ≡ status_of_awaited awaited.now }
{
    match awaited {
        Awaited::Order => 0,
        Awaited::Mail(_) => ExitStatus::Negative.code(),
    }
}

/// Prints a text, and returns the exit status: the given one, unless standard output failed.
pub(crate) fn print_text(rt: &HostRuntime, text: &Text, status: u8) -> u8 {
    match print!(rt; "{}", text.as_str()) {
        Ok(()) => status,
        Err(_) => refuse_output(rt),
    }
}

/// Prints on standard error that memory ran out or the store failed, and returns the exit status.
pub(crate) fn refuse(rt: &HostRuntime, fault: StoreFault) -> u8 {
    let _ = match fault {
        StoreFault::NoMemory => eprintln!(rt; "office: out of memory"),
        StoreFault::Store => {
            eprintln!(rt; "office: the store failed: see to the disk, and start again")
        }
    };
    ExitStatus::Failed.code()
}

/// Prints on standard error that the run asked about isn't finished, and returns the exit status.
pub(crate) fn refuse_unfinished(rt: &HostRuntime) -> u8 {
    let _ = eprintln!(rt; "office: that run isn't finished: office runs prints those that are");
    ExitStatus::Negative.code()
}

/// Prints on standard error that standard output failed, and returns the exit status.
pub(crate) fn refuse_output(rt: &HostRuntime) -> u8 {
    let _ = eprintln!(rt; "office: standard output: a write failed");
    ExitStatus::Failed.code()
}
