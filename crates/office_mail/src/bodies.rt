//! The content of each kind of message.
ghost use Rattle.std.specs.Prelude.{◌≡◌, ◌<◌, IfSome, Ok, length};
ghost use Rattle.deb_control.specs.Binary.{binary_of};
ghost use Rattle.office_mail.specs.steps.Answers.{Gives, GivesBy};
ghost use Rattle.office_mail.specs.Read.{upload_of, drop_of, fault_of_binary, of_binary, binary_in, build_of, bug_of, hint_of, unhint_of, delays_of, order_of, body_of, said, binary_field};
ghost use Rattle.office_mail.specs.steps.BuildSteps.{AreRead};
ghost use Rattle.office_mail_setup.specs.WholeText.{each_of};

use crate::covers::covers_in;
use crate::fields::{
    day, days, number, package, required, severity, urgency, version, version_if_there,
};
use crate::hints::hint_in;
use crate::message::{Body, MailFault, RunOrder};
use deb_control::{Binary, BinaryFault, BinaryField, Paragraph, Text};
use office_mail_setup::{Field, Kind, Setup};
use std::alloc::Global;
use testing_rules_items::{Binaries, Item};

/// The content of the paragraphs of a known kind.
#[tactic(auto, unfolding(crate::specs::Read::body_of))]
pub fn body_of(
    alloc: Global,
    setup: &Setup,
    kind: Kind,
    first: &Paragraph<'_>,
    rest: &[Paragraph<'_>],
) -> Result<Body, MailFault>
    ensures { Gives result (body_of setup.now kind first.now rest.now) }
{
    match kind {
        Kind::Upload => said(upload_of(alloc, first)),
        Kind::Drop => said(drop_of(alloc, first)),
        Kind::Build => said(build_of(alloc, rest)),
        Kind::Bug => said(bug_of(alloc, first)),
        Kind::Hint => said(hint_of(alloc, first)),
        Kind::Unhint => said(unhint_of(first)),
        Kind::Delays => said(delays_of(first)),
        Kind::Run => Ok(Body::Run(order_of(alloc, setup, first)?)),
        Kind::Nothing => Ok(Body::Item(Item::Nothing)),
    }
}

fn said(item: Result<Item, MailFault>) -> Result<Body, MailFault>
    ensures { result ≡ said item }
{
    match item {
        Ok(item) => Ok(Body::Item(item)),
        Err(fault) => Err(fault),
    }
}

#[tactic(auto, unfolding(crate::specs::Read::upload_of))]
fn upload_of(alloc: Global, paragraph: &Paragraph<'_>) -> Result<Item, MailFault>
    ensures { Gives result (upload_of paragraph.now) }
{
    let source = package(alloc, paragraph, Field::Source)?;
    let version = version(alloc, paragraph, Field::Version)?;
    let urgency = urgency(paragraph, Field::Urgency)?;
    let day = day(paragraph, Field::Day)?;
    Ok(Item::Upload {
        source,
        version,
        urgency,
        day,
    })
}

#[tactic(auto, unfolding(crate::specs::Read::drop_of))]
fn drop_of(alloc: Global, paragraph: &Paragraph<'_>) -> Result<Item, MailFault>
    ensures { Gives result (drop_of paragraph.now) }
{
    let name = package(alloc, paragraph, Field::Package)?;
    let arch = required(paragraph, Field::Architecture)?;
    let version = version(alloc, paragraph, Field::Version)?;
    let arch = Text::from_str(alloc, arch)?;
    Ok(Item::Dropped {
        name,
        arch,
        version,
    })
}

#[tactic(auto, unfolding(crate::specs::Read::build_of))]
fn build_of(alloc: Global, paragraphs: &[Paragraph<'_>]) -> Result<Item, MailFault>
    ensures { Gives result (build_of paragraphs.now) }
{
    let binaries = each_binary(alloc, paragraphs)?;
    Ok(Item::Build(Binaries::of(binaries)))
}

/// The binaries of the paragraphs, in order.
fn each_binary(alloc: Global, paragraphs: &[Paragraph<'_>]) -> Result<Vec<Binary>, MailFault>
    ensures { GivesBy (λ v. v.items) result (each_of binary_in paragraphs.now) }
{
    let mut binaries = Vec::with_capacity(alloc, paragraphs.len())?;
    'paragraphs: for paragraph in paragraphs {
        let binary = binary_beside(alloc, paragraph, paragraphs, binaries.as_slice())?;
        binaries.push(binary)?;
    }
    Ok(binaries)
}

/// The binary of a paragraph, given those of the first paragraphs. A package built on two architectures usually has the
/// same needs on both, so it shares its clauses with one of its name.
fn binary_beside(
    alloc: Global,
    paragraph: &Paragraph<'_>,
    paragraphs: &[Paragraph<'_>],
    binaries: &[Binary],
) -> Result<Binary, MailFault>
    requires { AreRead paragraphs.now binaries.now }
    ensures { Gives result (binary_in paragraph.now) }
{
    let name = paragraph.field(Field::Package.name()).unwrap_or("");
    let Some(place) = place_named(name, binaries) else {
        return binary_in(alloc, paragraph);
    };
    let before = &paragraphs[place];
    binary_like(alloc, paragraph, before, &binaries[place])
}

/// The place of a binary with this name, if there is one.
fn place_named(name: &str, binaries: &[Binary]) -> Option<usize>
    ensures { IfSome result (λ place. place < length binaries.now) }
{
    for place in 0..binaries.len() {
        if binaries[place].name.as_str() == name {
            return Some(place);
        }
    }
    None
}

/// The result of reading a binary, in the form of mail.
fn of_binary(read: Result<Binary, BinaryFault>) -> Result<Binary, MailFault>
    ensures { result ≡ of_binary read }
{
    match read {
        Ok(binary) => Ok(binary),
        Err(fault) => Err(fault_of_binary(fault)),
    }
}

fn binary_in(alloc: Global, paragraph: &Paragraph<'_>) -> Result<Binary, MailFault>
    ensures { Gives result (binary_in paragraph.now) }
{
    of_binary(Binary::parse(alloc, paragraph))
}

/// The binary that a paragraph describes, given the binary of another paragraph.
fn binary_like(
    alloc: Global,
    paragraph: &Paragraph<'_>,
    before: &Paragraph<'_>,
    like: &Binary,
) -> Result<Binary, MailFault>
    requires { binary_of before.now ≡ Ok like.now }
    ensures { Gives result (binary_in paragraph.now) }
{
    of_binary(Binary::parse_like(alloc, paragraph, before, like))
}

fn fault_of_binary(fault: BinaryFault) -> MailFault
    ensures { result ≡ fault_of_binary fault }
{
    match fault {
        BinaryFault::MissingField(field) => MailFault::MissingField(binary_field(field)),
        BinaryFault::BadName(field) => MailFault::BadValue(binary_field(field)),
        BinaryFault::BadVersion(field) => MailFault::BadValue(binary_field(field)),
        BinaryFault::BadRelation(field) => MailFault::BadValue(binary_field(field)),
        BinaryFault::NoMemory => MailFault::NoMemory,
    }
}

fn binary_field(field: BinaryField) -> Field
    ensures { result ≡ binary_field field }
{
    match field {
        BinaryField::Package => Field::Package,
        BinaryField::Version => Field::Version,
        BinaryField::Architecture => Field::Architecture,
        BinaryField::Source => Field::Source,
        BinaryField::PreDepends => Field::PreDepends,
        BinaryField::Depends => Field::Depends,
        BinaryField::Provides => Field::Provides,
    }
}

#[tactic(auto, unfolding(crate::specs::Read::bug_of))]
fn bug_of(alloc: Global, paragraph: &Paragraph<'_>) -> Result<Item, MailFault>
    ensures { Gives result (bug_of paragraph.now) }
{
    let bug = number(paragraph, Field::Bug)?;
    let source = package(alloc, paragraph, Field::Source)?;
    let severity = severity(paragraph, Field::Severity)?;
    let found = version_if_there(alloc, paragraph, Field::Found)?;
    let fixed = version_if_there(alloc, paragraph, Field::Fixed)?;
    Ok(Item::Bug {
        bug,
        source,
        severity,
        found,
        fixed,
    })
}

#[tactic(auto, unfolding(crate::specs::Read::hint_of))]
fn hint_of(alloc: Global, paragraph: &Paragraph<'_>) -> Result<Item, MailFault>
    ensures { Gives result (hint_of paragraph.now) }
{
    let text = required(paragraph, Field::Hint)?;
    let hint = hint_in(alloc, text)?;
    Ok(Item::Hint(hint))
}

#[tactic(auto, unfolding(crate::specs::Read::unhint_of))]
fn unhint_of(paragraph: &Paragraph<'_>) -> Result<Item, MailFault>
    ensures { Gives result (unhint_of paragraph.now) }
{
    let number = number(paragraph, Field::Cancels)?;
    Ok(Item::Unhint(number))
}

#[tactic(auto, unfolding(crate::specs::Read::delays_of))]
fn delays_of(paragraph: &Paragraph<'_>) -> Result<Item, MailFault>
    ensures { Gives result (delays_of paragraph.now) }
{
    let low = days(paragraph, Field::Low)?;
    let medium = days(paragraph, Field::Medium)?;
    let high = days(paragraph, Field::High)?;
    let critical = days(paragraph, Field::Critical)?;
    Ok(Item::Delays {
        low,
        medium,
        high,
        critical,
    })
}

#[tactic(auto, unfolding(crate::specs::Read::order_of))]
fn order_of(alloc: Global, setup: &Setup, paragraph: &Paragraph<'_>) -> Result<RunOrder, MailFault>
    ensures { Gives result (order_of setup.now paragraph.now) }
{
    let day = day(paragraph, Field::Day)?;
    let text = required(paragraph, Field::Covers)?;
    let covers = covers_in(alloc, setup, text)?;
    Ok(RunOrder { day, covers })
}
