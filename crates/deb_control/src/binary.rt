//! Binary packages (Debian Policy 5.3).

ghost use Rattle.std.specs.Prelude.{◌≡◌, ◌⊎◌, ◌++◌, true, IfOk, IfSome, Ok, Err};
ghost use Rattle.std.specs.List.{list_all};
ghost use Rattle.std.specs.Str.{bytes_eq};
ghost use Rattle.deb_control.specs.Paragraphs.{value_of};
ghost use Rattle.deb_control.specs.steps.RelationAnswers.{Gives as GivesPart};
ghost use Rattle.deb_control.specs.steps.BinaryAnswers.{Gives, GivesBy};
ghost use Rattle.deb_control.specs.Relations.{is_qualifier_char, is_version, clauses_in, provisions_in};
ghost use Rattle.deb_control.specs.Binary.{field_name, required, optional, of_field, is_architecture, source_in, binary_of};
ghost use Rattle.deb_control.specs.steps.BinarySteps.{needs_in, needs_same, binary_by, source_of};
ghost use Rattle.deb_control.specs.declared.fault.BinaryField.TheVariants.{Source, Provides};

use crate::fault::{BinaryFault, BinaryField, RelationFault};
use crate::grammar::{
    is_lower_or_digit, is_package_name, is_qualifier_char, parse_version, read_all_provisions,
    read_clauses, read_version, split_package,
};
use crate::owned::Text;
use crate::paragraphs::Paragraph;
use crate::relation::{Clause, Clauses, Provisions};
use crate::text::{is_all_white, skip_white, strip_char};
use deb_version::{NoMemory, Version};
use std::alloc::{AllocError, Global};

/// A binary package: its name, architecture, source, needs and provisions (Debian Policy 5.3). The fields that decide
/// whether it meets a clause come first, so that they are adjacent in memory.
#[derive(Drop)]
pub struct Binary {
    pub name: Text,
    pub version: Version,

    /// The clauses of Pre-Depends, then those of Depends (Debian Policy 7.2).
    pub clauses: Clauses,
    pub provides: Provisions,
    pub source: Text,
    pub source_version: Version,
    pub architecture: Text,
}

impl BinaryField {
    /// The field's name in control data.
    pub fn name(self) -> &'static str
        ensures { result.now ≡ field_name self }
    {
        match self {
            BinaryField::Package => "Package",
            BinaryField::Version => "Version",
            BinaryField::Architecture => "Architecture",
            BinaryField::Source => "Source",
            BinaryField::PreDepends => "Pre-Depends",
            BinaryField::Depends => "Depends",
            BinaryField::Provides => "Provides",
        }
    }
}

impl Binary {
    /// The binary that a paragraph describes, or its first fault: a missing field, or else the first bad field in the
    /// order of `BinaryField`. Without a field `Source` the source has the package's name and version, and without a
    /// version in it the package's version (Debian Policy 5.6.1).
    pub fn parse(alloc: Global, paragraph: &Paragraph<'_>) -> Result<Binary, BinaryFault>
        ensures { (result ≡ binary_of paragraph.now) ⊎ (result ≡ Err BinaryFault.NoMemory) }
    {
        read_binary(alloc, paragraph, None)
    }

    /// The binary that a paragraph describes, or its first fault, given another binary and its paragraph. If the two
    /// paragraphs have the same Pre-Depends and Depends, the other binary's clauses are shared, and nothing is read for
    /// them.
    pub fn parse_like(
        alloc: Global,
        paragraph: &Paragraph<'_>,
        before: &Paragraph<'_>,
        like: &Binary,
    ) -> Result<Binary, BinaryFault>
        requires { binary_of before.now ≡ Ok like.now }
        ensures { (result ≡ binary_of paragraph.now) ⊎ (result ≡ Err BinaryFault.NoMemory) }
    {
        read_binary(alloc, paragraph, clauses_like(paragraph, before, like))
    }

    /// An equal binary.
    pub fn copy(&self, alloc: Global) -> Result<Binary, NoMemory>
        ensures { IfOk result (λ b. b ≡ self.now) }
    {
        Ok(Binary {
            name: self.name.copy(alloc)?,
            version: self.version.copy(alloc)?,
            architecture: self.architecture.copy(alloc)?,
            source: self.source.copy(alloc)?,
            source_version: self.source_version.copy(alloc)?,
            clauses: self.clauses.copy()?,
            provides: self.provides.copy(alloc)?,
        })
    }
}

/// The binary that a paragraph describes, or its first fault. Known clauses are shared.
#[tactic(auto, unfolding(crate::specs::steps::BinarySteps::binary_by))]
fn read_binary(
    alloc: Global,
    paragraph: &Paragraph<'_>,
    known: Option<&Clauses>,
) -> Result<Binary, BinaryFault>
    requires { IfSome known (λ c. needs_in paragraph.now ≡ Ok c.now) }
    ensures { Gives result (binary_by paragraph.now) }
{
    let package = required(paragraph, BinaryField::Package)?;
    let version_text = required(paragraph, BinaryField::Version)?;
    let architecture = required(paragraph, BinaryField::Architecture)?;
    if !is_package_name(package.as_bytes()) {
        return Err(BinaryFault::BadName(BinaryField::Package));
    }
    let version = in_field(BinaryField::Version, parse_version(alloc, version_text))?;
    if !is_architecture(architecture.as_bytes()) {
        return Err(BinaryFault::BadName(BinaryField::Architecture));
    }
    let (source, source_version) = read_source(alloc, paragraph, package, version_text)?;
    let clauses = needs(alloc, paragraph, known)?;
    let provides = read_provisions(alloc, paragraph)?;
    Ok(Binary {
        name: Text::from_str(alloc, package)?,
        version,
        architecture: Text::from_str(alloc, architecture)?,
        source,
        source_version,
        clauses,
        provides,
    })
}

/// The clauses of a binary, if the paragraph has the same needs as the binary's own paragraph.
fn clauses_like<'a>(
    paragraph: &Paragraph<'_>,
    before: &Paragraph<'_>,
    like: &'a Binary,
) -> Option<&'a Clauses>
    requires { binary_of before.now ≡ Ok like.now }
    ensures { IfSome result (λ c. needs_in paragraph.now ≡ Ok c.now) }
{
    if needs_same(paragraph, before) {
        Some(&like.clauses)
    } else {
        None
    }
}

/// Whether both paragraphs have the same Pre-Depends and Depends.
fn needs_same(paragraph: &Paragraph<'_>, other: &Paragraph<'_>) -> bool
    ensures { result ≡ needs_same paragraph.now other.now }
{
    has_same(paragraph, other, BinaryField::PreDepends)
        && has_same(paragraph, other, BinaryField::Depends)
}

fn has_same(paragraph: &Paragraph<'_>, other: &Paragraph<'_>, field: BinaryField) -> bool
    ensures { result ≡ bytes_eq (optional paragraph.now field) (optional other.now field) }
{
    optional(paragraph, field) == optional(other, field)
}

/// What a package needs: the known clauses, or else those of its paragraph.
fn needs(
    alloc: Global,
    paragraph: &Paragraph<'_>,
    known: Option<&Clauses>,
) -> Result<Clauses, BinaryFault>
    requires { IfSome known (λ c. needs_in paragraph.now ≡ Ok c.now) }
    ensures { Gives result (needs_in paragraph.now) }
{
    let Some(clauses) = known else {
        return read_needs(alloc, paragraph);
    };
    match clauses.copy() {
        Ok(copy) => Ok(copy),
        Err(_) => Err(BinaryFault::NoMemory),
    }
}

/// The clauses of Pre-Depends, then those of Depends.
#[tactic(auto, unfolding(crate::specs::steps::BinarySteps::needs_in))]
fn read_needs(alloc: Global, paragraph: &Paragraph<'_>) -> Result<Clauses, BinaryFault>
    ensures { Gives result (needs_in paragraph.now) }
{
    let before = clauses_of(alloc, paragraph, BinaryField::PreDepends)?;
    let depends = clauses_of(alloc, paragraph, BinaryField::Depends)?;
    Ok(Clauses::new(alloc, joined(before, depends)?)?)
}

/// The value of a mandatory field.
fn required<'a>(paragraph: &Paragraph<'a>, field: BinaryField) -> Result<&'a str, BinaryFault>
    ensures { GivesBy (λ x. x.now) result (required paragraph.now field) }
{
    match paragraph.field(field.name()) {
        Some(value) => Ok(value),
        None => Err(BinaryFault::MissingField(field)),
    }
}

/// The value of an optional field.
fn optional<'a>(paragraph: &Paragraph<'a>, field: BinaryField) -> &'a str
    ensures { result.now ≡ optional paragraph.now field }
{
    match paragraph.field(field.name()) {
        Some(value) => value,
        None => "",
    }
}

/// The result for this field.
fn in_field<T>(field: BinaryField, outcome: Result<T, RelationFault>) -> Result<T, BinaryFault>
    ensures { result ≡ of_field field outcome }
{
    match outcome {
        Ok(value) => Ok(value),
        Err(RelationFault::BadName) => Err(BinaryFault::BadName(field)),
        Err(RelationFault::BadVersion) => Err(BinaryFault::BadVersion(field)),
        Err(RelationFault::BadRelation) => Err(BinaryFault::BadRelation(field)),
        Err(RelationFault::NoMemory) => Err(BinaryFault::NoMemory),
    }
}

/// Whether a text is an architecture.
#[tactic(auto, unfolding(crate::specs::Binary::is_architecture))]
fn is_architecture(word: &[u8]) -> bool
    ensures { result ≡ is_architecture word.now }
{
    match word {
        [first, rest @ ..] => is_lower_or_digit(*first)
            && are_qualifier_chars(rest)
            && rest.len() <= 31,
        [] => false,
    }
}

fn are_qualifier_chars(chars: &[u8]) -> bool
    ensures { result ≡ list_all is_qualifier_char chars.now }
{
    chars.iter().all(|c| is_qualifier_char(*c))
}

/// The name and the version of the source.
fn read_source(
    alloc: Global,
    paragraph: &Paragraph<'_>,
    name: &str,
    version: &str,
) -> Result<(Text, Version), BinaryFault>
    requires { is_version version.now ≡ true }
    ensures { Gives result (of_field Source (source_of (value_of paragraph.now (field_name Source)) name.now version.now)) }
{
    match paragraph.field(BinaryField::Source.name()) {
        Some(text) => in_field(BinaryField::Source, source_in(alloc, version, text)),
        None => in_field(BinaryField::Source, source_with(alloc, name, version)),
    }
}

/// A name, and perhaps a version in parentheses.
#[tactic(auto, unfolding(crate::specs::Binary::source_in))]
fn source_in(alloc: Global, version: &str, text: &str) -> Result<(Text, Version), RelationFault>
    requires { is_version version.now ≡ true }
    ensures { GivesPart result (source_in version.now text.now) }
{
    let Some((name, rest)) = split_package(skip_white(text)) else {
        return Err(RelationFault::BadName);
    };
    if is_all_white(rest.as_bytes()) {
        return source_with(alloc, name, version);
    }
    let Some(inside) = strip_char(skip_white(rest), b'(') else {
        return Err(RelationFault::BadRelation);
    };
    let version = read_version(alloc, inside)?;
    Ok((Text::from_str(alloc, name)?, version))
}

/// A name and a version.
fn source_with(alloc: Global, name: &str, version: &str) -> Result<(Text, Version), RelationFault>
    requires { is_version version.now ≡ true }
    ensures { GivesPart result (Ok (name.now, version.now)) }
{
    let version = parse_version(alloc, version)?;
    Ok((Text::from_str(alloc, name)?, version))
}

/// The clauses of a field, one by one. If the field is missing or empty, nothing is allocated.
fn clauses_of(
    alloc: Global,
    paragraph: &Paragraph<'_>,
    field: BinaryField,
) -> Result<Vec<Clause>, BinaryFault>
    ensures { GivesBy (λ v. v.items) result (of_field field (clauses_in (optional paragraph.now field))) }
{
    let text = optional(paragraph, field);
    if text.is_empty() {
        return Ok(Vec::new(alloc));
    }
    in_field(field, read_clauses(alloc, text))
}

/// The provisions. If the field is missing or empty, nothing is allocated.
fn read_provisions(alloc: Global, paragraph: &Paragraph<'_>) -> Result<Provisions, BinaryFault>
    ensures { Gives result (of_field Provides (provisions_in (optional paragraph.now Provides))) }
{
    let text = optional(paragraph, BinaryField::Provides);
    if text.is_empty() {
        let none = Vec::new(alloc);
        return Ok(Provisions::new(none));
    }
    in_field(BinaryField::Provides, read_all_provisions(alloc, text))
}

/// The clauses of both lists.
fn joined(before: Vec<Clause>, after: Vec<Clause>) -> Result<Vec<Clause>, AllocError>
    ensures { IfOk result (λ all. all.items ≡ before.items ++ after.items) }
{
    if before.is_empty() {
        return Ok(after);
    }
    let mut all = before;
    let mut more = after;
    all.append(&mut more)?;
    Ok(all)
}
