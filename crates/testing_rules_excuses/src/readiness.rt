//! The day on which a source is old enough.

ghost use Rattle.std.specs.Prelude.{option_copied};
ghost use Rattle.testing_rules_excuses.specs.Readiness as rules;

use jiff_core::civil::Date;
use testing_rules_model::{Excuse, UploadIn};

/// The day this many days after another, if it can be written.
fn day_after(day: Date, days: u32) -> Option<Date>
    ensures { rules.IsDayAfter day days result }
{
    match day.checked_add(i64::from(days)) {
        Ok(later) => Some(later),
        Err(_) => None,
    }
}

/// The day on which the source is old enough, by its excuse.
pub fn ready_day(upload: &UploadIn, excuse: Option<&Excuse>) -> Option<Date>
    ensures { rules.IsReady upload.now (option_copied excuse.entry) result }
{
    match excuse {
        Some(excuse) => day_after(upload.day, excuse.needed),
        None => None,
    }
}
