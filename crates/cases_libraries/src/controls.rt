//! Paragraphs of control data, and the binary packages that they describe.

use crate::relations::{put_clauses, put_provisions};
use deb_control::{Binary, Paragraph, Paragraphs};
use std::alloc::{AllocError, Global};

/// Adds the answers of four calls of `next` for a text.
pub fn put_paragraphs(alloc: Global, bytes: &[u8], came: &mut String) -> Result<(), AllocError> {
    let mut reader = Paragraphs::new(alloc, bytes);
    for _ in 0..4 {
        put_next(&mut reader, came)?;
    }
    Ok(())
}

/// Adds the answer of one call of `next`.
fn put_next(reader: &mut Paragraphs<'_>, came: &mut String) -> Result<(), AllocError> {
    match reader.next() {
        Ok(Some(paragraph)) => put_paragraph(&paragraph, came),
        Ok(None) => came.push_str("end\n"),
        Err(fault) => write!(came, "refused, {fault}\n"),
    }
}

/// Adds the fields of a paragraph.
fn put_paragraph(paragraph: &Paragraph<'_>, came: &mut String) -> Result<(), AllocError> {
    came.push_str("paragraph\n")?;
    for (name, value) in paragraph.fields() {
        write!(came, " {name} = {value:?}\n")?;
    }
    Ok(())
}

/// Adds a binary: its fields, and then its clauses and provisions.
pub fn put_binary(binary: &Binary, came: &mut String) -> Result<(), AllocError> {
    let (name, version) = (binary.name.as_str(), binary.version.text());
    let (architecture, source) = (binary.architecture.as_str(), binary.source.as_str());
    let source_version = binary.source_version.text();
    write!(
        came,
        "{name} {version} {architecture} {source} {source_version}"
    )?;
    put_clauses(&binary.clauses, came)?;
    put_provisions(&binary.provides, came)?;
    came.push_str("\n")
}

/// Adds the copy of a binary.
fn put_copy(alloc: Global, binary: &Binary, came: &mut String) -> Result<(), AllocError> {
    match binary.copy(alloc) {
        Ok(copy) => put_binary(&copy, came),
        Err(_) => Err(AllocError),
    }
}

/// Adds what a paragraph is read as, by a copy of its binary.
fn put_read(alloc: Global, paragraph: &Paragraph<'_>, came: &mut String) -> Result<(), AllocError> {
    match Binary::parse(alloc, paragraph) {
        Ok(binary) => put_copy(alloc, &binary, came),
        Err(fault) => write!(came, "refused, {fault}\n"),
    }
}

/// Adds what the first paragraph of a text is read as.
pub fn put_first_binary(alloc: Global, bytes: &[u8], came: &mut String) -> Result<(), AllocError> {
    let mut reader = Paragraphs::new(alloc, bytes);
    match reader.next() {
        Ok(Some(paragraph)) => put_read(alloc, &paragraph, came),
        _ => came.push_str("no paragraph\n"),
    }
}
