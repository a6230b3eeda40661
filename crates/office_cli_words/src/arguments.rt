//! The program's arguments as texts.

ghost use Rattle.std.specs.Prelude.{◌≡◌, map, IfOk};
ghost use Rattle.std.specs.String.{string_bytes};
ghost use Rattle.std.specs.IoError.{error_kind};
ghost use Rattle.office_cli_words.specs.Arguments.{status_of_args};
ghost use Rattle.office_cli_words.specs.steps.Arguments.{told_as};

use std::alloc::{AllocFailed, Global};
use std::env::Args;
use std::io::ErrorKind;
use std::{env, io};
use thiserror::Error;

/// Why the arguments can't be read as texts.
#[derive(Clone, Copy, Debug, PartialEq, Eq, Error)]
pub enum ArgsFault {
    #[error("out of memory")]
    NoMemory,
    #[error("the arguments can't be read: one isn't UTF-8")]
    NotUtf8,
}

impl<T: Drop> From<AllocFailed<T>> for ArgsFault {
    ghost use Rattle.office_cli_words.specs.declared.arguments.ArgsFault.TheVariants.{NoMemory};

    ghost from_gives = { λ _ e. e ≡ NoMemory };

    fn from(_error: AllocFailed<T>) -> ArgsFault {
        ArgsFault::NoMemory
    }
}

/// The arguments, beginning with the program's name.
pub fn read_args(rt: &HostRuntime) -> Result<Vec<String>, ArgsFault> {
    let args = env::args(rt).map_err(args_fault)?;
    all_args(rt.alloc(), args)
}

/// The fault for a fault of the system: unless memory ran out, an argument isn't UTF-8.
fn args_fault(fault: io::Error) -> ArgsFault
    ensures { result ≡ told_as (error_kind fault) }
{
    match fault.kind() {
        ErrorKind::OutOfMemory => ArgsFault::NoMemory,
        _ => ArgsFault::NotUtf8,
    }
}

/// The arguments in a list.
fn all_args(alloc: Global, args: Args) -> Result<Vec<String>, ArgsFault> {
    let mut all = Vec::new(alloc);
    for arg in args {
        all.push(arg)?;
    }
    Ok(all)
}

/// The arguments as texts.
pub fn as_texts<'a>(alloc: Global, args: &'a [String]) -> Result<Vec<&'a str>, ArgsFault>
    ensures { IfOk result (λ texts. map (λ text. text.now) texts.items ≡ map string_bytes args.now) }
{
    let mut texts = Vec::new(alloc);
    for arg in args {
        texts.push(arg.as_str())?;
    }
    Ok(texts)
}

/// The exit status if the arguments can't be read: 4 if memory ran out, 2 if one isn't UTF-8.
pub fn args_status(fault: &ArgsFault) -> u8
    ensures { result ≡ status_of_args fault.now }
{
    match fault {
        ArgsFault::NoMemory => 4,
        ArgsFault::NotUtf8 => 2,
    }
}
