//! The program `office-plan`: what to copy into a suite and what to remove from it, so that it has what testing has.
#![tactic(auto)]

use archive_cli::{Program, run_program};
use std::process::ExitCode;

fn main(rt: HostRuntime) -> ExitCode {
    ExitCode::from(run_program(&rt, Program::Plan))
}
