//! A step that checks a store after the last one.
ghost use Rattle.std.specs.Prelude.{◌≡◌};

use office_core_check::{Checked, check, check_status, checked_text};
use office_mail::Setup;
use office_store::Keeper;
use std::alloc::{AllocError, Global};

/// Adds what a check of a store finds, and the exit status.
pub fn check_in<K: Keeper>(
    alloc: Global,
    setup: &Setup,
    keeper: &mut K,
    came: &mut String,
) -> Result<(), AllocError>
    requires { K.setup keeper.old ≡ setup.now }
{
    match check(alloc, setup, keeper) {
        Ok(checked) => put_checked(alloc, setup, checked, came),
        Err(fault) => write!(came, "failed: {fault:?}\n"),
    }
}

/// Adds what a check found, and the exit status.
fn put_checked(
    alloc: Global,
    setup: &Setup,
    checked: Checked,
    came: &mut String,
) -> Result<(), AllocError> {
    match checked_text(alloc, setup, checked) {
        Ok(text) => write!(came, "{}status {}\n", text.as_str(), check_status(checked)),
        Err(_) => Err(AllocError),
    }
}
