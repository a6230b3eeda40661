//! The values of fields: numbers, days, words, urgencies and severities.
ghost use Rattle.std.specs.Prelude.{◌≡◌, ◌<◌, ◌&&◌, nat_le, true, length, drop, take, map, IfOk};
ghost use Rattle.std.specs.Char.{is_ascii_digit, digit_value};
ghost use Rattle.std.specs.List.{list_all, position, position_or_len, before_first};
ghost use Rattle.std.specs.Str.Parse.{digits_value};
ghost use Rattle.deb_control.specs.Text.{is_white};
ghost use Rattle.office_mail_setup.specs.Calendar.{IsDay, IsOnly};
ghost use Rattle.office_mail_setup.specs.Values.{some_if, is_number, number_in, days_in, words, is_day_form, IsDayText, ends_urgency, urgency_named, urgency_in, severity_in};
ghost use Rattle.office_mail_setup.specs.steps.Values.{DayForm};

use deb_control::{is_white, skip_white};
use jiff_core::civil::Date;
use std::alloc::{AllocError, Global};
use testing_rules_items::{Severity, Urgency};

/// Whether a text is decimal digits without a leading zero.
#[tactic(auto, unfolding(crate::specs::Values::is_number))]
fn is_number(text: &[u8]) -> bool
    ensures { result ≡ is_number text.now }
{
    match text {
        [first, rest @ ..] => are_digits(text) && (*first != b'0' || rest.is_empty()),
        [] => false,
    }
}

fn are_digits(text: &[u8]) -> bool
    ensures { result ≡ list_all is_ascii_digit text.now }
{
    text.iter().all(|c| c.is_ascii_digit())
}

/// The number in a text, if it is from `low` to `high`.
#[tactic(auto, unfolding(crate::specs::Values::number_in))]
pub fn number_in(low: u32, high: u32, text: &str) -> Option<u32>
    ensures { result ≡ number_in low high text.now }
{
    if !is_number(text.as_bytes()) {
        return None;
    }
    match u32::from_str_radix(text, 10) {
        Ok(value) => within(low, high, value),
        Err(_) => None,
    }
}

/// A number of days, from 0 to 9,999.
pub fn days_in(text: &str) -> Option<u32>
    ensures { result ≡ days_in text.now }
{
    number_in(0, 9999, text)
}

fn within(low: u32, high: u32, value: u32) -> Option<u32>
    ensures { result ≡ some_if (nat_le low value && nat_le value high) value }
{
    if low <= value && value <= high {
        Some(value)
    } else {
        None
    }
}

/// The words of a text, separated by white.
pub fn words<'a>(alloc: Global, text: &'a str) -> Result<Vec<&'a str>, AllocError>
    ensures { IfOk result (λ v. map (λ w. w.now) v.items ≡ words text.now) }
{
    let mut words = Vec::new(alloc);
    let mut rest = skip_white(text);
    'words: while !rest.as_bytes().is_empty() {
        let (word, after) = split_word(rest);
        words.push(word)?;
        rest = skip_white(after);
    }
    Ok(words)
}

/// The text before the first white, and the rest from there on.
fn split_word(text: &str) -> (&str, &str)
    ensures word { result.0.now ≡ before_first is_white text.now }
    ensures rest { result.1.now ≡ drop (position_or_len is_white text.now) text.now }
{
    match white_at(text.as_bytes()) {
        Some(end) => text.split_at(end),
        None => (text, ""),
    }
}

fn white_at(bytes: &[u8]) -> Option<usize>
    ensures { result ≡ position is_white bytes.now }
{
    bytes.iter().position(|c| is_white(*c))
}

/// The day in a text YYYY-MM-DD, from 1970-01-01 to 9999-12-31.
pub fn day_in(text: &str) -> Option<Date>
    ensures { IsOnly (IsDayText text.now) result }
{
    let bytes = text.as_bytes();
    if !is_day_form(bytes) {
        return None;
    }
    let year = four_digits(&bytes[..4]);
    let month = two_digits(&bytes[5..7]);
    let day = two_digits(&bytes[8..10]);
    real_day(year, month, day)
}

/// Four digits, a hyphen, two digits, a hyphen and two digits.
#[tactic(auto, using(crate::proofs::DayFacts::form_of), unfolding(crate::specs::Values::is_day_form))]
fn is_day_form(text: &[u8]) -> bool
    ensures value { result ≡ is_day_form text.now }
    ensures form { result ≡ true → DayForm text.now }
{
    text.len() == 10
        && text[4] == b'-'
        && text[7] == b'-'
        && are_digits(&text[..4])
        && are_digits(&text[5..7])
        && are_digits(&text[8..10])
}

/// The number written with four digits.
fn four_digits(digits: &[u8]) -> u16
    requires digits { list_all is_ascii_digit digits.now ≡ true }
    requires four { length digits.now ≡ 4 }
    ensures value { result ≡ digits_value 10 digits.now }
    ensures small { result < 10_000 }
{
    match digits {
        [a, b, c, d] => ((digit(*a) * 10 + digit(*b)) * 10 + digit(*c)) * 10 + digit(*d),
        _ => 0,
    }
}

/// The number written with two digits.
fn two_digits(digits: &[u8]) -> u16
    requires digits { list_all is_ascii_digit digits.now ≡ true }
    requires two { length digits.now ≡ 2 }
    ensures value { result ≡ digits_value 10 digits.now }
    ensures small { result < 100 }
{
    match digits {
        [a, b] => digit(*a) * 10 + digit(*b),
        _ => 0,
    }
}

fn digit(c: u8) -> u16
    requires { is_ascii_digit c ≡ true }
    ensures value { result ≡ digit_value c }
    ensures small { result < 10 }
{
    u16::from(c - b'0')
}

fn real_day(year: u16, month: u16, day: u16) -> Option<Date>
    requires year { year < 10_000 }
    requires month { month < 100 }
    requires day { day < 100 }
    ensures { IsOnly (IsDay year month day) result }
{
    if year < 1970 {
        return None;
    }
    Date::new(year as i16, month as i8, day as i8).ok()
}

/// The urgency at the front of a text, before the text's end, a space or a tab.
#[tactic(auto, unfolding(crate::specs::Values::urgency_in))]
pub fn urgency_in(text: &str) -> Option<Urgency>
    ensures { result ≡ urgency_in text.now }
{
    match urgency_end(text.as_bytes()) {
        Some(end) => urgency_named(text.split_at(end).0),
        None => urgency_named(text),
    }
}

fn urgency_end(bytes: &[u8]) -> Option<usize>
    ensures { result ≡ position ends_urgency bytes.now }
{
    bytes.iter().position(|c| ends_urgency(*c))
}

fn ends_urgency(c: u8) -> bool
    ensures { result ≡ ends_urgency c }
{
    c == b' ' || c == b'\t'
}

#[tactic(auto, unfolding(crate::specs::Values::urgency_named))]
fn urgency_named(word: &str) -> Option<Urgency>
    ensures { result ≡ urgency_named word.now }
{
    if word.eq_ignore_ascii_case("low") {
        Some(Urgency::Low)
    } else if word.eq_ignore_ascii_case("medium") {
        Some(Urgency::Medium)
    } else if word.eq_ignore_ascii_case("high") {
        Some(Urgency::High)
    } else if word.eq_ignore_ascii_case("emergency") {
        Some(Urgency::Emergency)
    } else if word.eq_ignore_ascii_case("critical") {
        Some(Urgency::Critical)
    } else {
        None
    }
}

/// A bug's severity.
#[tactic(auto, unfolding(crate::specs::Values::severity_in))]
pub fn severity_in(text: &str) -> Option<Severity>
    ensures { result ≡ severity_in text.now }
{
    match text {
        "critical" => Some(Severity::Critical),
        "grave" => Some(Severity::Grave),
        "serious" => Some(Severity::Serious),
        "important" => Some(Severity::Important),
        "normal" => Some(Severity::Normal),
        "minor" => Some(Severity::Minor),
        "wishlist" => Some(Severity::Wishlist),
        _ => None,
    }
}
