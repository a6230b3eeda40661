//! Whether a store is what its mail gives.

ghost use Rattle.std.specs.Prelude.{◌≡◌};

use crate::answers::{print_text, refuse};
use office_core_check::{Checked, check, check_status, checked_text};
use office_http::StoreFault;
use office_mail::Setup;
use office_store::Keeper;

/// Prints what a check of a store finds, and returns the exit status.
pub fn print_check<K: Keeper>(rt: &HostRuntime, setup: &Setup, keeper: &mut K) -> u8
    requires { K.setup keeper.old ≡ setup.now }
{
    match check(rt.alloc(), setup, keeper) {
        Ok(checked) => print_checked(rt, setup, checked),
        Err(fault) => refuse(rt, StoreFault::from(fault)),
    }
}

/// Prints what a check found, and gives the exit status. Where a row doesn't read, standard error says what to do.
fn print_checked(rt: &HostRuntime, setup: &Setup, checked: Checked) -> u8 {
    if let Checked::Unread { .. } = checked {
        let _ = eprintln!(rt;
            "office: a row can't be read: restore a backup, or replay the bag of office export into a new file"
        );
    }
    match checked_text(rt.alloc(), setup, checked) {
        Ok(text) => print_text(rt, &text, check_status(checked)),
        Err(_) => refuse(rt, StoreFault::NoMemory),
    }
}
