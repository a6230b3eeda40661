//! The setup's file.

ghost use Rattle.std.specs.Prelude.{◌≡◌, IfOk, IfSome};
ghost use Rattle.office_store.specs.Conf.{status_of_conf, status_of_fault};
ghost use Rattle.office_store.specs.steps.Conf.{front};

use office_mail::{Setup, SetupFault};
use std::alloc::Global;
use std::io::Read;
use std::{fs, io};
use thiserror::Error;

/// One byte more than the longest setup has.
const ENOUGH: u64 = 65_537;

/// Why a file has no setup.
#[derive(Clone, Copy, Debug, Error)]
pub enum ConfFault {
    #[error("the file can't be read: {0}")]
    Unreadable(io::Error),
    #[error("the setup is refused: {0}")]
    Refused(SetupFault),
}

/// The setup in a file. If the file is too long for a setup, only enough is read to see this.
pub fn read_setup(rt: &HostRuntime, path: &str) -> Result<Setup, ConfFault> {
    let file = fs::open(rt, path).map_err(ConfFault::Unreadable)?;
    let text = read_front(rt.alloc(), file).map_err(ConfFault::Unreadable)?;
    match Setup::parse(rt.alloc(), &text) {
        Ok(setup) => Ok(setup),
        Err(fault) => Err(ConfFault::Refused(fault)),
    }
}

/// The bytes of a reader, up to one more than the longest setup.
fn read_front<R: Read + Drop>(alloc: Global, reader: R) -> io::Result<Vec<u8>>
    ensures { IfOk result (λ bytes. IfSome (R.remaining reader) (λ all. bytes.items ≡ front all)) }
{
    let mut bytes = Vec::new(alloc);
    reader.take(ENOUGH).read_to_end(&mut bytes)?;
    Ok(bytes)
}

/// The exit status for a setup's fault: 4 if memory ran out, 3 for any other.
pub fn setup_status(fault: &SetupFault) -> u8
    ensures { result ≡ status_of_fault fault.now }
{
    match fault {
        SetupFault::NoMemory => 4,
        _ => 3,
    }
}

/// The exit status without a setup: 4 if the file can't be read.
pub fn conf_status(fault: &ConfFault) -> u8
    ensures { result ≡ status_of_conf fault.now }
{
    match fault {
        ConfFault::Unreadable(_) => 4,
        ConfFault::Refused(fault) => setup_status(fault),
    }
}
