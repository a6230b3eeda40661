//! The office's program: it reads its arguments, and does what they ask for.
#![tactic(auto)]

use office_cli::run_command;
use office_cli_words::{
    ArgsFault, WordsFault, args_status, as_texts, read_args, read_words, words_status,
};
use std::process::ExitCode;

fn main(rt: HostRuntime) -> ExitCode {
    ExitCode::from(run(&rt))
}

/// Does what the arguments ask for, and returns the exit status.
fn run(rt: &HostRuntime) -> u8 {
    match read_args(rt) {
        Ok(args) => run_args(rt, &args),
        Err(fault) => tell_args(rt, fault),
    }
}

/// Does what arguments that were read ask for, and returns the exit status.
fn run_args(rt: &HostRuntime, args: &[String]) -> u8 {
    let texts = match as_texts(rt.alloc(), args) {
        Ok(texts) => texts,
        Err(fault) => return tell_args(rt, fault),
    };
    match read_words(rt.alloc(), &texts) {
        Ok(words) => run_command(rt, words),
        Err(fault) => {
            tell_usage(rt, &fault);
            words_status(&fault)
        }
    }
}

/// Prints on standard error why the arguments can't be read, and returns the exit status.
fn tell_args(rt: &HostRuntime, fault: ArgsFault) -> u8 {
    let _ = eprintln!(rt; "office: {fault}");
    args_status(&fault)
}

/// Prints why the words ask for nothing, or the help that they ask for.
fn tell_usage(rt: &HostRuntime, fault: &WordsFault) {
    let _ = match fault {
        WordsFault::Usage(error) => error.print(rt),
        WordsFault::NoMemory => eprintln!(rt; "office: out of memory"),
    };
}
