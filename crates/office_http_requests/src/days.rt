//! What a path that names a day asks for.
ghost use Rattle.std.specs.Prelude.{◌≡◌, drop};
ghost use Rattle.office_mail.specs.Days.{day_in};
ghost use Rattle.office_http_requests.specs.Asked.{day_asked, post_asked, tell_asked};

use crate::reply::Refusal;
use crate::request::{Action, Asked, Framing, Page, behind, post_asked, tell_asked};
use jiff_core::civil::Date;
use office_mail_setup::values::day_in;

/// The day after the beginning of a path (ISO 8601), none for any other text.
pub(crate) fn day_behind(path: &str, front: usize) -> Option<Date>
    ensures { result ≡ day_in (drop front path.now) }
{
    match str::from_utf8(behind(path, front)) {
        Ok(text) => day_in(text),
        Err(_) => None,
    }
}

/// What a path that ends with the day of the next order asks for.
pub(crate) fn order_asked(path: &str, method: &[u8]) -> Asked
    ensures { result ≡ day_asked (λ day. tell_asked (Page.Order day) method.now) (drop 7 path.now) }
{
    match day_behind(path, 7) {
        Some(day) => tell_asked(Page::Order(day), method),
        None => Asked::Refused(Refusal::NoRoute),
    }
}

/// What a path that ends with the day of a trial asks for.
pub(crate) fn try_on_asked(path: &str, method: &[u8], minor: u8, framing: Framing) -> Asked
    ensures { result ≡ day_asked (λ day. post_asked (Action.TryOn day) method.now minor framing) (drop 5 path.now) }
{
    match day_behind(path, 5) {
        Some(day) => post_asked(Action::TryOn(day), method, minor, framing),
        None => Asked::Refused(Refusal::NoRoute),
    }
}
