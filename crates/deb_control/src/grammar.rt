//! Reads clauses and provisions (Debian Policy 7.1, 7.2, 7.5).

ghost use Rattle.std.specs.Prelude.{◌≡◌, ◌<◌, ◌≤◌, ◌==◌, ◌⊎◌, ◌∷◌, [], true, false, length, drop, IfSome, MatchOption, MatchResult, Ok, Err};
ghost use Rattle.std.specs.List.{list_all, slice_split, position, position_or_len, before_first, prefix_len};
ghost use Rattle.std.specs.Option.{option_map, option_map_or};
ghost use Rattle.deb_control.specs.steps.RelationAnswers.{Gives, GivesBy};
ghost use Rattle.deb_control.specs.Relations.{is_package_name, is_lower_or_digit, is_package_char, is_version, ends_name, ends_version, is_qualifier_char, after_qualifier, sign_in, version_in, relation_in, alternative_in, clause_in, clauses_in, provision_in, provisions_in};
ghost use Rattle.deb_control.specs.declared.fault.RelationFault.TheVariants.{BadVersion, NoMemory as OutOfMemory};
ghost use Rattle.deb_control.specs.steps.ClauseSteps.{only_one, is_package, less_sign, greater_sign, sign_by};

use crate::fault::RelationFault;
use crate::owned::Text;
use crate::relation::{Alternative, Clause, Clauses, Op, Provision, Provisions, Relation, Signs};
use crate::text::{index_of, is_all_white, is_white, skip_white, split_around, strip_char};
use deb_version::{Version, VersionFault};
use std::alloc::Global;

impl Clauses {
    /// The clauses of a text, like the value of a field `Depends`, or its first fault from the left. An item of only
    /// white between two commas is skipped, and the qualifier of a name, like `:any`, is dropped.
    pub fn parse(alloc: Global, text: &str) -> Result<Clauses, RelationFault>
        ensures { (result ≡ clauses_in text.now) ⊎ (result ≡ Err RelationFault.NoMemory) }
    {
        read_all_clauses(alloc, text)
    }
}

/// The clauses of a text, or its first fault from the left.
fn read_all_clauses(alloc: Global, text: &str) -> Result<Clauses, RelationFault>
    ensures { Gives result (clauses_in text.now) }
{
    let clauses = read_clauses(alloc, text)?;
    Ok(Clauses::new(alloc, clauses)?)
}

/// The clauses of a text one by one, or its first fault from the left.
#[tactic(auto, unfolding(crate::specs::Relations::clauses_in))]
pub fn read_clauses(alloc: Global, text: &str) -> Result<Vec<Clause>, RelationFault>
    ensures { GivesBy (λ v. v.items) result (clauses_in text.now) }
{
    let mut clauses = Vec::with_capacity(alloc, count_items(text.as_bytes(), b','))?;
    let mut rest = Some(text);
    'items: while let Some(left) = rest {
        let (item, after) = next_item(left, b',');
        rest = after;
        if !is_all_white(item.as_bytes()) {
            clauses.push(read_clause(alloc, item)?)?;
        }
    }
    Ok(clauses)
}

impl Provisions {
    /// The provisions of a text, like the value of a field `Provides`, or its first fault from the left. It must not
    /// contain `|` or any sign but `=`.
    pub fn parse(alloc: Global, text: &str) -> Result<Provisions, RelationFault>
        ensures { (result ≡ provisions_in text.now) ⊎ (result ≡ Err RelationFault.NoMemory) }
    {
        read_all_provisions(alloc, text)
    }
}

/// The provisions of a text, or its first fault from the left.
#[tactic(auto, unfolding(crate::specs::Relations::provisions_in))]
pub fn read_all_provisions(alloc: Global, text: &str) -> Result<Provisions, RelationFault>
    ensures { Gives result (provisions_in text.now) }
{
    let mut provisions = Vec::with_capacity(alloc, count_items(text.as_bytes(), b','))?;
    let mut rest = Some(text);
    'items: while let Some(left) = rest {
        let (item, after) = next_item(left, b',');
        rest = after;
        if !is_all_white(item.as_bytes()) {
            provisions.push(read_provision(alloc, item)?)?;
        }
    }
    Ok(Provisions::new(provisions))
}

/// The number of items separated by a character. A vector is allocated for as many.
fn count_items(text: &[u8], separator: u8) -> usize {
    let mut items = 1;
    let mut end = index_of(text, separator);
    'items: while end < text.len() {
        items += 1;
        end += 1 + index_of(&text[end + 1..], separator);
    }
    items
}

/// The first item before a separator, and the text after the separator. No text follows the last item.
fn next_item(text: &str, separator: u8) -> (&str, Option<&str>)
    requires { separator < 128 }
    ensures items { slice_split (λ c. c == separator) text.now
        ≡ result.0.now ∷ option_map_or (λ rest. slice_split (λ c. c == separator) rest.now) result.1 [] }
    ensures shorter { IfSome result.1 (λ rest. length rest.now < length text.now) }
{
    let end = index_of(text.as_bytes(), separator);
    if end == text.len() {
        return (text, None);
    }
    let (item, rest) = split_around(text, end);
    (item, Some(rest))
}

/// The alternatives of a clause. Nearly every clause has one, and allocates no list.
fn read_clause(alloc: Global, item: &str) -> Result<Clause, RelationFault>
    ensures { Gives result (clause_in item.now) }
{
    match next_item(item, b'|') {
        (only, None) => read_only_one(alloc, only),
        _ => read_alternatives(alloc, item),
    }
}

/// The clause of one alternative.
fn read_only_one(alloc: Global, item: &str) -> Result<Clause, RelationFault>
    ensures { Gives result (only_one item.now) }
{
    let alternative = read_alternative(alloc, Signs::Any, item)?;
    Ok(Clause::one(alternative))
}

/// The alternatives of a clause, separated by `|`.
#[tactic(auto, unfolding(crate::specs::Relations::clause_in))]
fn read_alternatives(alloc: Global, item: &str) -> Result<Clause, RelationFault>
    ensures { Gives result (clause_in item.now) }
{
    let mut alternatives = Vec::with_capacity(alloc, count_items(item.as_bytes(), b'|'))?;
    let mut rest = Some(item);
    'parts: while let Some(left) = rest {
        let (part, after) = next_item(left, b'|');
        rest = after;
        alternatives.push(read_alternative(alloc, Signs::Any, part)?)?;
    }
    Ok(Clause::new(alternatives))
}

/// A name, perhaps a qualifier, and perhaps the provided version.
#[tactic(auto, unfolding(crate::specs::Relations::provision_in))]
fn read_provision(alloc: Global, item: &str) -> Result<Provision, RelationFault>
    ensures { Gives result (provision_in item.now) }
{
    let Alternative { name, relation } = read_alternative(alloc, Signs::EqualAlone, item)?;
    let version = match relation {
        Some(Relation { op: _, version }) => Some(version),
        None => None,
    };
    Ok(Provision { name, version })
}

/// A name, perhaps a qualifier, and perhaps a relation.
#[tactic(auto, unfolding(crate::specs::Relations::alternative_in))]
fn read_alternative(alloc: Global, signs: Signs, text: &str) -> Result<Alternative, RelationFault>
    ensures { Gives result (alternative_in signs text.now) }
{
    let Some((name, rest)) = split_package(skip_white(text)) else {
        return Err(RelationFault::BadName);
    };
    let rest = skip_qualifier(rest)?;
    let relation = read_relation(alloc, signs, rest)?;
    let name = Text::from_str(alloc, name)?;
    Ok(Alternative { name, relation })
}

/// The end, or a relation in parentheses.
#[tactic(auto, unfolding(crate::specs::Relations::relation_in))]
fn read_relation(alloc: Global, signs: Signs, rest: &str) -> Result<Option<Relation>, RelationFault>
    ensures { Gives result (relation_in signs rest.now) }
{
    if is_all_white(rest.as_bytes()) {
        return Ok(None);
    }
    let Some(inside) = strip_char(skip_white(rest), b'(') else {
        return Err(RelationFault::BadRelation);
    };
    let Some((op, rest)) = read_sign(skip_white(inside)) else {
        return Err(RelationFault::BadRelation);
    };
    if !signs.allows(op) {
        return Err(RelationFault::BadRelation);
    }
    let version = read_version(alloc, rest)?;
    Ok(Some(Relation { op, version }))
}

/// A version and `)`, which ends the text.
#[tactic(auto, unfolding(crate::specs::Relations::version_in))]
pub fn read_version(alloc: Global, text: &str) -> Result<Version, RelationFault>
    ensures { Gives result (version_in text.now) }
{
    let (version, rest) = split_version(skip_white(text));
    let version = parse_version(alloc, version)?;
    match strip_char(skip_white(rest), b')') {
        Some(end) if is_all_white(end.as_bytes()) => Ok(version),
        _ => Err(RelationFault::BadRelation),
    }
}

/// The version with this text.
#[tactic(auto, unfolding(crate::specs::Relations::is_version))]
pub fn parse_version(alloc: Global, text: &str) -> Result<Version, RelationFault>
    ensures { MatchResult result
        (λ v. (is_version text.now ≡ true) × (v ≡ text.now))
        (λ e. (e ≡ OutOfMemory) ⊎ ((e ≡ BadVersion) × (is_version text.now ≡ false))) }
{
    match Version::parse(alloc, text) {
        Ok(version) => Ok(version),
        Err(VersionFault::NoMemory) => Err(RelationFault::NoMemory),
        Err(_) => Err(RelationFault::BadVersion),
    }
}

/// The rest after a qualifier, if there is one.
#[tactic(auto, unfolding(crate::specs::Relations::after_qualifier))]
fn skip_qualifier(text: &str) -> Result<&str, RelationFault>
    ensures { GivesBy (λ x. x.now) result (after_qualifier text.now) }
{
    let Some(rest) = strip_char(text, b':') else {
        return Ok(text);
    };
    let len = qualifier_len(rest.as_bytes());
    if len == 0 {
        return Err(RelationFault::BadRelation);
    }
    Ok(rest.split_at(len).1)
}

/// The length of the qualifier at the front.
fn qualifier_len(bytes: &[u8]) -> usize
    ensures { result ≡ prefix_len is_qualifier_char bytes.now }
{
    for (i, c) in bytes.iter().enumerate() {
        if !is_qualifier_char(*c) {
            return i;
        }
    }
    bytes.len()
}

/// The sign of a relation, and the rest after it.
fn read_sign(text: &str) -> Option<(Op, &str)>
    ensures { option_map (λ x. (x.0, x.1.now)) result ≡ sign_in text.now }
{
    sign_by_characters(text)
}

/// The sign at the front by its first two characters, and the rest after it.
#[tactic(auto, unfolding(crate::specs::steps::ClauseSteps::sign_by))]
fn sign_by_characters(text: &str) -> Option<(Op, &str)>
    ensures { option_map (λ x. (x.0, x.1.now)) result ≡ sign_by text.now }
{
    if let Some(rest) = strip_char(text, b'<') {
        return Some(read_less(rest));
    }
    if let Some(rest) = strip_char(text, b'=') {
        return Some((Op::Equal, rest));
    }
    if let Some(rest) = strip_char(text, b'>') {
        return Some(read_greater(rest));
    }
    None
}

/// The sign whose first character `<` is already read, and the rest after it.
fn read_less(text: &str) -> (Op, &str)
    ensures { (result.0, result.1.now) ≡ less_sign text.now }
{
    if let Some(rest) = strip_char(text, b'<') {
        return (Op::Below, rest);
    }
    if let Some(rest) = strip_char(text, b'=') {
        return (Op::AtMost, rest);
    }
    (Op::AtMost, text)
}

/// The sign whose first character `>` is already read, and the rest after it.
fn read_greater(text: &str) -> (Op, &str)
    ensures { (result.0, result.1.now) ≡ greater_sign text.now }
{
    if let Some(rest) = strip_char(text, b'>') {
        return (Op::Above, rest);
    }
    if let Some(rest) = strip_char(text, b'=') {
        return (Op::AtLeast, rest);
    }
    (Op::AtLeast, text)
}

/// The package name at the front and the rest after it, or None without a package name. Its characters are scanned
/// once.
pub fn split_package(text: &str) -> Option<(&str, &str)>
    ensures { MatchOption result (is_package_name (before_first ends_name text.now) ≡ false)
        (λ x. (x.0.now ≡ before_first ends_name text.now)
        × (x.1.now ≡ drop (position_or_len ends_name text.now) text.now)
        × (is_package_name x.0.now ≡ true)) }
{
    let bytes = text.as_bytes();
    let len = package_len(bytes);
    if !is_package(bytes, len) {
        return None;
    }
    Some(text.split_at(len))
}

/// The length of the package name at the front.
fn package_len(bytes: &[u8]) -> usize
    ensures { result ≡ prefix_len is_package_char bytes.now }
{
    for (i, c) in bytes.iter().enumerate() {
        if !is_package_char(*c) {
            return i;
        }
    }
    bytes.len()
}

/// Whether the package name characters at the front are a package name.
fn is_package(bytes: &[u8], len: usize) -> bool
    requires { len ≤ length bytes.now }
    ensures { result ≡ is_package bytes.now len }
{
    2 <= len && is_lower_or_digit(bytes[0]) && (len == bytes.len() || ends_name(bytes[len]))
}

/// The version at the front, and the rest after it.
fn split_version(text: &str) -> (&str, &str)
    ensures version { result.0.now ≡ before_first ends_version text.now }
    ensures rest { result.1.now ≡ drop (position_or_len ends_version text.now) text.now }
{
    match version_end(text.as_bytes()) {
        Some(end) => text.split_at(end),
        None => (text, ""),
    }
}

fn version_end(bytes: &[u8]) -> Option<usize>
    ensures { result ≡ position ends_version bytes.now }
{
    bytes.iter().position(|c| ends_version(*c))
}

fn ends_name(c: u8) -> bool
    ensures { result ≡ ends_name c }
{
    is_white(c) || c == b':' || c == b'(' || c == b'[' || c == b'<'
}

fn ends_version(c: u8) -> bool
    ensures { result ≡ ends_version c }
{
    is_white(c) || c == b')'
}

/// Whether a text is a package name (Debian Policy 5.6.1, 5.6.7).
#[tactic(auto, unfolding(crate::specs::Relations::is_package_name))]
pub fn is_package_name(name: &[u8]) -> bool
    ensures { result ≡ is_package_name name.now }
{
    match name {
        [first, rest @ ..] => is_lower_or_digit(*first)
            && are_package_chars(rest)
            && !rest.is_empty(),
        [] => false,
    }
}

fn are_package_chars(chars: &[u8]) -> bool
    ensures { result ≡ list_all is_package_char chars.now }
{
    chars.iter().all(|c| is_package_char(*c))
}

fn is_package_char(c: u8) -> bool
    ensures { result ≡ is_package_char c }
{
    is_lower_or_digit(c) || c == b'+' || c == b'-' || c == b'.'
}

/// A lower case ASCII letter or a digit.
pub fn is_lower_or_digit(c: u8) -> bool
    ensures { result ≡ is_lower_or_digit c }
{
    b'a' <= c && c <= b'z' || b'0' <= c && c <= b'9'
}

/// A character of a name's qualifier or of an architecture's word.
pub fn is_qualifier_char(c: u8) -> bool
    ensures { result ≡ is_qualifier_char c }
{
    is_lower_or_digit(c) || c == b'-'
}
