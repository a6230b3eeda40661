//! Reads the fields of a paragraph.
ghost use Rattle.std.specs.Prelude.{◌≡◌};
ghost use Rattle.office_mail.specs.steps.Answers.{Gives, GivesBy};
ghost use Rattle.office_mail.specs.declared.message.MailFault.TheVariants as fault;
ghost use Rattle.office_mail.specs.Days.{day_in};
ghost use Rattle.office_mail.specs.Fields.{required, has_fields, value_in, value_if_there};
ghost use Rattle.office_mail_setup.specs.WholeText.{given};
ghost use Rattle.office_mail_setup.specs.Values.{number_in, days_in, package_in, version_in, urgency_in, severity_in};

use crate::message::{MAX_NUMBER, MailFault};
use deb_control::{Paragraph, Text, is_package_name};
use deb_version::{Version, VersionFault};
use jiff_core::civil::Date;
use office_mail_setup::{Field, values};
use std::alloc::Global;
use testing_rules_items::{Severity, Urgency};

/// The text of a mandatory field.
#[tactic(auto, unfolding(crate::specs::Fields::required))]
pub fn required<'a>(paragraph: &Paragraph<'a>, field: Field) -> Result<&'a str, MailFault>
    ensures { GivesBy (λ text. text.now) result (required paragraph.now field) }
{
    match paragraph.field(field.name()) {
        Some(text) => Ok(text),
        None => Err(MailFault::MissingField(field)),
    }
}

/// Checks that these fields are given; the first missing one is the fault.
pub fn has_fields(paragraph: &Paragraph<'_>, fields: &[Field]) -> Result<bool, MailFault>
    ensures { Gives result (has_fields fields.now paragraph.now) }
{
    'fields: for field in fields {
        required(paragraph, *field)?;
    }
    Ok(true)
}

/// A number from 1 to 999,999,999.
#[tactic(auto, unfolding(crate::specs::Fields::value_in))]
pub fn number(paragraph: &Paragraph<'_>, field: Field) -> Result<u32, MailFault>
    ensures { Gives result (value_in (number_in 1 999_999_999) paragraph.now field) }
{
    let text = required(paragraph, field)?;
    match values::number_in(1, MAX_NUMBER, text) {
        Some(number) => Ok(number),
        None => Err(MailFault::BadValue(field)),
    }
}

/// A number of days, from 0 to 9,999.
#[tactic(auto, unfolding(crate::specs::Fields::value_in))]
pub fn days(paragraph: &Paragraph<'_>, field: Field) -> Result<u32, MailFault>
    ensures { Gives result (value_in days_in paragraph.now field) }
{
    let text = required(paragraph, field)?;
    match values::days_in(text) {
        Some(days) => Ok(days),
        None => Err(MailFault::BadValue(field)),
    }
}

#[tactic(auto, unfolding(crate::specs::Fields::value_in))]
pub fn day(paragraph: &Paragraph<'_>, field: Field) -> Result<Date, MailFault>
    ensures { Gives result (value_in day_in paragraph.now field) }
{
    let text = required(paragraph, field)?;
    match day_in(text) {
        Some(day) => Ok(day),
        None => Err(MailFault::BadValue(field)),
    }
}

/// The day in a text YYYY-MM-DD, from 1970-01-01 to 9999-12-31.
fn day_in(text: &str) -> Option<Date>
    ensures { result ≡ day_in text.now }
{
    values::day_in(text)
}

#[tactic(auto, unfolding(crate::specs::Fields::value_in))]
pub fn urgency(paragraph: &Paragraph<'_>, field: Field) -> Result<Urgency, MailFault>
    ensures { Gives result (value_in urgency_in paragraph.now field) }
{
    let text = required(paragraph, field)?;
    match values::urgency_in(text) {
        Some(urgency) => Ok(urgency),
        None => Err(MailFault::BadValue(field)),
    }
}

#[tactic(auto, unfolding(crate::specs::Fields::value_in))]
pub fn severity(paragraph: &Paragraph<'_>, field: Field) -> Result<Severity, MailFault>
    ensures { Gives result (value_in severity_in paragraph.now field) }
{
    let text = required(paragraph, field)?;
    match values::severity_in(text) {
        Some(severity) => Ok(severity),
        None => Err(MailFault::BadValue(field)),
    }
}

/// The name of a package.
#[tactic(auto, unfolding(crate::specs::Fields::value_in))]
pub fn package(alloc: Global, paragraph: &Paragraph<'_>, field: Field) -> Result<Text, MailFault>
    ensures { Gives result (value_in package_in paragraph.now field) }
{
    let text = required(paragraph, field)?;
    if !is_package_name(text.as_bytes()) {
        return Err(MailFault::BadValue(field));
    }
    Ok(Text::from_str(alloc, text)?)
}

#[tactic(auto, unfolding(crate::specs::Fields::value_in))]
pub fn version(alloc: Global, paragraph: &Paragraph<'_>, field: Field) -> Result<Version, MailFault>
    ensures { Gives result (value_in version_in paragraph.now field) }
{
    let text = required(paragraph, field)?;
    version_from(alloc, field, text)
}

/// The version in an optional field.
#[tactic(auto, unfolding(crate::specs::Fields::value_if_there))]
pub fn version_if_there(
    alloc: Global,
    paragraph: &Paragraph<'_>,
    field: Field,
) -> Result<Option<Version>, MailFault>
    ensures { Gives result (value_if_there version_in paragraph.now field) }
{
    match paragraph.field(field.name()) {
        Some(text) => Ok(Some(version_from(alloc, field, text)?)),
        None => Ok(None),
    }
}

#[tactic(auto, unfolding(deb_control::specs::Relations::is_version))]
pub fn version_from(alloc: Global, field: Field, text: &str) -> Result<Version, MailFault>
    ensures { Gives result (given (version_in text.now) (fault.BadValue field)) }
{
    match Version::parse(alloc, text) {
        Ok(version) => Ok(version),
        Err(VersionFault::NoMemory) => Err(MailFault::NoMemory),
        Err(_) => Err(MailFault::BadValue(field)),
    }
}
