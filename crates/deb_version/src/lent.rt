// Versions that are only compared, over borrowed texts.
ghost use Rattle.std.specs.Prelude.{◌≡◌};
ghost use Rattle.deb_version.specs.Order.{text_cmp};

use super::faults::CompareFault;
use super::split::{compare_split, split_text};
use std::cmp::Ordering;

/// The order of two version texts (Debian Policy 5.6.12), or the fault of the first text that isn't a version. It
/// allocates nothing, so no fault is `NoMemory`.
pub fn compare_texts(a: &str, b: &str) -> Result<Ordering, CompareFault>
    ensures { result ≡ text_cmp a.now b.now }
{
    let (a, b) = (a.as_bytes(), b.as_bytes());
    let first = split_text(a).map_err(CompareFault::First)?;
    let second = split_text(b).map_err(CompareFault::Second)?;
    Ok(compare_split(a, first, b, second))
}
