//! The program `office-sync`: what is due to an office, so that its unstable has what an archive's index has.
#![tactic(auto)]

use archive_cli::{Program, run_program};
use std::process::ExitCode;

fn main(rt: HostRuntime) -> ExitCode {
    ExitCode::from(run_program(&rt, Program::Sync))
}
