//! Paragraphs of fields (Debian Policy 5.1).

ghost use Rattle.std.specs.Prelude.{◌≡◌, ◌<◌, ◌≤◌, ◌+◌, ◌⊎◌, ◌++◌, [], ℕ, false, length, take, drop, map, List, IfOk, IfErr, OnErr, IfSome, IfNone, MatchResult, Some, None, Ok};
ghost use Rattle.std.specs.List.{prefix_len};
ghost use Rattle.std.specs.Option.{option_copied};
ghost use Rattle.std.specs.Str.{str_eq_ignore_ascii_case};
ghost use Rattle.deb_control.specs.Text.{is_blank_line, continues};
ghost use Rattle.deb_control.specs.Paragraphs.{shown, is_name_char, has_name, reading, reading_of_text, ended, refusing, then_read, value_of};
ghost use Rattle.deb_control.specs.Reader.{RefusedBy};
ghost use Rattle.deb_control.specs.steps.ReaderSteps.{line_in_front, may_name, is_named, IsFieldCut, IsFieldEnd, IsNameEnd, NameRead, NameRefused, FieldRead};

use crate::fault::ParagraphFault;
use crate::text::{begins_blank, begins_continuing, index_of, split_around, trim_white};
use std::alloc::Global;
use std::marker::Model;
use std::str;

/// Room for the fields of nearly all paragraphs.
const FIELDS: usize = 12;

/// A paragraph: its fields in source order, each a name and a value borrowed from the source. Contracts see the list of
/// them.
#[derive(Drop)]
pub struct Paragraph<'a> {
    fields: Vec<(&'a str, &'a str)>,
}

impl<'a> Model for Paragraph<'a> {
    ghost use Rattle.std.specs.Prelude.{List, map};
    ghost use Rattle.deb_control.specs.Paragraphs.{Field, shown};

    ghost Value = { List Field };

    ghost view = { λ a. map shown a.fields.items };
}

impl<'a> Paragraph<'a> {
    /// The value of the field with this name, compared without regard to ASCII case, or None without such a field. It
    /// allocates nothing.
    pub fn field(&self, name: &str) -> Option<&'a str>
        ensures { option_copied result ≡ value_of self.now name.now }
    {
        find_value(&self.fields, name)
    }

    /// All names and values, in source order. It allocates nothing.
    pub fn fields(&self) -> &[(&'a str, &'a str)]
        ensures { map shown result.now ≡ self.now }
    {
        &self.fields
    }
}

/// A reader of the paragraphs of a text. Contracts see what it has yet to read.
#[derive(Drop)]
pub struct Paragraphs<'a> {
    alloc: Global,

    /// The rest of the text, or None if the reader has yet to report that the bytes aren't UTF-8.
    text: Option<&'a str>,
}

impl<'a> Model for Paragraphs<'a> {
    ghost use Rattle.deb_control.specs.Paragraphs.{Reading};
    ghost use Rattle.deb_control.specs.Reader.{left_in};

    ghost Value = { Reading };

    ghost view = { λ a. left_in a.text };
}

impl<'a> Paragraphs<'a> {
    /// A reader of any bytes. It allocates nothing; the calls of `next` do.
    pub fn new(alloc: Global, bytes: &'a [u8]) -> Paragraphs<'a>
        ensures { result ≡ reading bytes.now }
    {
        Paragraphs {
            alloc,
            text: str::from_utf8(bytes).ok(),
        }
    }

    /// The next paragraph, or None at the end. A text that isn't UTF-8 is refused at the first call. A paragraph with a
    /// bad line is refused in its turn, for its first bad line. After a refusal the reader is at its end.
    pub fn next(&mut self) -> Result<Option<Paragraph<'a>>, ParagraphFault>
        ensures paragraph { IfOk result (λ found. IfSome found (λ p. self.old ≡ then_read p self.new)) }
        ensures end { IfOk result (λ found. IfNone found ((self.old ≡ ended) × (self.new ≡ ended))) }
        ensures refused { IfErr result (λ e. RefusedBy e self.old) }
        ensures after_refusal { OnErr result (self.new ≡ ended) }

        // At its end the reader allocates nothing.
        ensures stays_at_end { self.old ≡ ended → result ≡ Ok None }
    {
        let Some(text) = self.text else {
            self.text = Some("");
            return Err(ParagraphFault::NotUtf8);
        };
        self.text = Some("");
        let text = skip_blank_lines(text);
        if text.is_empty() {
            return Ok(None);
        }
        let (fields, rest) = read_paragraph(self.alloc, text)?;
        self.text = Some(rest);
        Ok(Some(Paragraph { fields }))
    }
}

/// Whether two names are the same without regard to ASCII case.
fn same_name(a: &str, b: &str) -> bool
    ensures { result ≡ str_eq_ignore_ascii_case a.now b.now }
{
    a.eq_ignore_ascii_case(b)
}

/// The value of the first field with a name.
#[tactic(auto, unfolding(crate::specs::Paragraphs::value_of))]
fn find_value<'a>(fields: &[(&'a str, &'a str)], name: &str) -> Option<&'a str>
    ensures { option_copied result ≡ value_of (map shown fields.now) name.now }
{
    for (n, value) in fields {
        if same_name(n, name) {
            return Some(value);
        }
    }
    None
}

/// Whether some field has a name.
fn has_name(fields: &[(&str, &str)], name: &str) -> bool
    ensures { result ≡ has_name (map (λ f. f.0.now) fields.now) name.now }
{
    for (n, _) in fields {
        if same_name(n, name) {
            return true;
        }
    }
    false
}

/// The text from its first line that isn't blank.
fn skip_blank_lines(text: &str) -> &str
    ensures same { reading_of_text result.now ≡ reading_of_text text.now }
    ensures begins { (result.now ≡ []) ⊎ (is_blank_line (line_in_front result.now) ≡ false) }
{
    let mut rest = text;
    'lines: while begins_blank(rest.as_bytes()) {
        let end = index_of(rest.as_bytes(), b'\n');
        if end == rest.len() {
            return "";
        }
        rest = split_around(rest, end).1;
    }
    rest
}

/// Where the field at the front ends, including its continuing lines.
fn field_end(bytes: &[u8]) -> usize
    ensures { IsFieldEnd bytes.now result }
{
    let mut end = index_of(bytes, b'\n');
    'lines: while end < bytes.len() && begins_continuing(&bytes[end + 1..]) {
        end += 1 + index_of(&bytes[end + 1..], b'\n');
    }
    end
}

/// The field at the front, and the rest after it.
fn split_field(text: &str) -> (&str, &str)
    ensures { IsFieldCut text.now result.0.now result.1.now }
{
    let end = field_end(text.as_bytes());
    if end == text.len() {
        (text, "")
    } else {
        split_around(text, end)
    }
}

/// The length of the name at the front.
fn name_len(bytes: &[u8]) -> usize
    ensures { result ≡ prefix_len is_name_char bytes.now }
{
    for (i, c) in bytes.iter().enumerate() {
        if !is_name_char(*c) {
            return i;
        }
    }
    bytes.len()
}

/// A character of a name: from `!` to `~`, except the colon.
fn is_name_char(c: u8) -> bool
    ensures { result ≡ is_name_char c }
{
    b'!' <= c && c <= b'~' && c != b':'
}

/// Where the name of a field ends: at the first colon of its first line. The text after the colon isn't read.
fn name_end(whole: &str) -> Option<usize>
    ensures { IsNameEnd whole.now result }
{
    for (i, c) in whole.as_bytes().iter().enumerate() {
        if *c == b':' {
            return Some(i);
        }
        if *c == b'\n' {
            return None;
        }
    }
    None
}

/// Whether a field's name may begin with the first byte.
fn may_name(bytes: &[u8]) -> bool
    ensures { result ≡ may_name bytes.now }
{
    match bytes {
        [b'#' | b'-' | b':', ..] | [] => false,
        _ => true,
    }
}

/// Whether a colon is at this place, after a possible front of a name.
fn is_named(bytes: &[u8], len: usize) -> bool
    ensures { result ≡ is_named bytes.now len }
{
    len < bytes.len() && bytes[len] == b':' && may_name(bytes)
}

/// The fault of a line without a valid name.
fn name_fault(whole: &str) -> ParagraphFault
    requires { is_named whole.now (prefix_len is_name_char whole.now) ≡ false }
    ensures { NameRefused result whole.now }
{
    match name_end(whole) {
        Some(_) => ParagraphFault::BadName,
        None => ParagraphFault::NoColon,
    }
}

/// Where the name of a field ends: at the first colon of its first line. The name is scanned once.
fn read_name(whole: &str) -> Result<usize, ParagraphFault>
    ensures { NameRead result whole.now }
{
    let bytes = whole.as_bytes();
    let len = name_len(bytes);
    if !is_named(bytes, len) {
        return Err(name_fault(whole));
    }
    Ok(len)
}

/// The field in these lines, after the other fields.
#[tactic(auto, unfolding(crate::specs::Paragraphs::line_fault))]
fn read_field<'a>(
    before: &[(&str, &str)],
    whole: &'a str,
) -> Result<(&'a str, &'a str), ParagraphFault>
    ensures { FieldRead result (map (λ f. f.0.now) before.now) whole.now }
{
    let colon = read_name(whole)?;
    let (name, value) = split_around(whole, colon);
    if has_name(before, name) {
        return Err(ParagraphFault::RepeatedField);
    }
    Ok((name, trim_white(value)))
}

/// The paragraph at the front of a text that begins with a line that isn't blank, and the rest after it.
fn read_paragraph<'a>(
    alloc: Global,
    text: &'a str,
) -> Result<(Vec<(&'a str, &'a str)>, &'a str), ParagraphFault>
    requires { is_blank_line (line_in_front text.now) ≡ false }
    ensures { MatchResult result
        (λ x. reading_of_text text.now ≡ then_read (map shown x.0.items) (reading_of_text x.1.now))
        (λ e. RefusedBy e (reading_of_text text.now)) }
{
    if begins_continuing(text.as_bytes()) {
        return Err(ParagraphFault::FirstLineContinues);
    }
    let mut fields = Vec::with_capacity(alloc, FIELDS)?;
    let mut rest = text;
    'fields: while !begins_blank(rest.as_bytes()) {
        let (whole, after) = split_field(rest);
        let field = read_field(&fields, whole)?;
        fields.push(field)?;
        rest = after;
    }
    Ok((fields, rest))
}
