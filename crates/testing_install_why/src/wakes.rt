//! Rows that wait again because a row that they may have needed was removed.

ghost use Rattle.std.specs.Prelude.{◌≡◌, ◌<◌, false, length, OnOk};
ghost use Rattle.std.specs.List.{All};
ghost use Rattle.testing_install.specs.Closed.{marked};
ghost use Rattle.testing_install_why.specs.steps.Reaching.{IsGrown};
ghost use Rattle.testing_install_why.specs.steps.Woken.{IsWokenAt, IsWokenFor};

use deb_control::Binary;
use deb_version::NoMemory;
use testing_install::Suite;

// The held rows at the places wait again.
fn wake_among(places: &[usize], held: &mut [bool], waiting: &mut Vec<usize>) -> Result<(), NoMemory>
    requires { All (λ k. k < length held.old) places.now }
    ensures grown { OnOk result (IsGrown held.old held.new waiting.old.items waiting.new.items) }
    ensures woken { OnOk result (All (λ k. marked held.new k ≡ false) places.now) }
{
    for place in places {
        if held[*place] {
            waiting.push(*place)?;
            held[*place] = false;
        }
    }
    Ok(())
}

// The held rows that have a clause with the name wait again.
fn wake_named(
    suite: &Suite,
    name: &str,
    held: &mut [bool],
    waiting: &mut Vec<usize>,
) -> Result<(), NoMemory>
    requires { length held.old ≡ length suite.now.rows }
    ensures grown { OnOk result (IsGrown held.old held.new waiting.old.items waiting.new.items) }
    ensures woken { OnOk result (IsWokenAt suite.now.rows held.new name.now) }
{
    wake_among(suite.dependents(name), held, waiting)?;
    Ok(())
}

/// The held rows with a clause that has a name of the package wait again.
pub fn wake_dependents(
    suite: &Suite,
    binary: &Binary,
    held: &mut [bool],
    waiting: &mut Vec<usize>,
) -> Result<(), NoMemory>
    requires { length held.old ≡ length suite.now.rows }
    ensures grown { OnOk result (IsGrown held.old held.new waiting.old.items waiting.new.items) }
    ensures woken { OnOk result (IsWokenFor suite.now.rows held.new binary.now) }
{
    wake_named(suite, binary.name.as_str(), held, waiting)?;
    for provision in binary.provides.as_slice() {
        wake_named(suite, provision.name.as_str(), held, waiting)?;
    }
    Ok(())
}
