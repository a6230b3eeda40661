//! Installable rows, from packages in a short notation.

use deb_control::{Binary, Paragraphs};
use std::alloc::{AllocError, Global};
use std::rc::Rc;
use testing_install::{Row, installable, installable_counted};

/// The control data of a package `NAME VERSION; DEPENDS; PROVIDES`, as `aa 1; bb | cc (>= 2); virt (= 1)`.
fn control_of(alloc: Global, text: &str) -> Result<String, AllocError> {
    let (head, rest) = text.split_once(';').unwrap_or((text, ""));
    let (depends, provides) = rest.split_once(';').unwrap_or((rest, ""));
    let (name, version) = head.split_once(' ').unwrap_or((head, "1"));
    format!(in alloc;
        "Package: {name}\nVersion: {version}\nArchitecture: amd64\nDepends: {depends}\nProvides: {provides}\n"
    )
}

/// The package of control data.
fn read_binary(alloc: Global, control: &str) -> Option<Binary> {
    let mut reader = Paragraphs::new(alloc, control.as_bytes());
    match reader.next() {
        Ok(Some(paragraph)) => Binary::parse(alloc, &paragraph).ok(),
        _ => None,
    }
}

/// The packages that lines give in short, to be shared.
pub fn told_binaries(alloc: Global, text: &str) -> Result<Vec<Rc<Binary>>, AllocError> {
    let mut binaries = Vec::new(alloc);
    for line in text.lines() {
        let control = control_of(alloc, line)?;
        if let Some(binary) = read_binary(alloc, control.as_str()) {
            binaries.push(Rc::new(alloc, binary)?)?;
        }
    }
    Ok(binaries)
}

/// A row for each package.
fn rows_of<'a>(alloc: Global, binaries: &'a [Rc<Binary>]) -> Result<Vec<Row<'a>>, AllocError> {
    let mut rows = Vec::new(alloc);
    for binary in binaries {
        rows.push(Row {
            binary: binary.as_ref(),
        })?;
    }
    Ok(rows)
}

/// Adds a sign for each answer: `+` for an installable row, `-` for another one.
fn put_answers(answers: &[bool], came: &mut String) -> Result<(), AllocError> {
    came.push_str("[")?;
    for answer in answers {
        came.push_str(if *answer { "+" } else { "-" })?;
    }
    came.push_str("]\n")
}

/// Adds which rows are installable.
fn put_installable(alloc: Global, rows: &[Row<'_>], came: &mut String) -> Result<(), AllocError> {
    match installable(alloc, rows) {
        Ok(answers) => put_answers(&answers, came),
        Err(_) => Err(AllocError),
    }
}

/// Adds which rows are installable, in how many turns, and how many looks.
fn put_counted(
    alloc: Global,
    rows: &[Row<'_>],
    most: u32,
    came: &mut String,
) -> Result<(), AllocError> {
    let Ok(counted) = installable_counted(alloc, rows) else {
        return Err(AllocError);
    };
    write!(came, "{} turns, ", counted.turns)?;
    put_looks(counted.looks, most, came)?;
    put_answers(&counted.answers, came)
}

/// Adds whether there were at most that many looks, or how many there were if no number is given.
fn put_looks(looks: u64, most: u32, came: &mut String) -> Result<(), AllocError> {
    if most == 0 {
        write!(came, "{looks} looks: ")
    } else if looks <= most as u64 {
        write!(came, "within {most} looks: ")
    } else {
        write!(came, "past {most} looks: ")
    }
}

/// Adds which of the packages are installable.
fn put_judged(
    alloc: Global,
    most: Option<u32>,
    binaries: &[Rc<Binary>],
    came: &mut String,
) -> Result<(), AllocError> {
    let rows = rows_of(alloc, binaries)?;
    match most {
        Some(most) => put_counted(alloc, &rows, most, came),
        None => put_installable(alloc, &rows, came),
    }
}

/// Adds which of the packages that lines give in short are installable; with a number, the steps too.
pub fn put_told(
    alloc: Global,
    most: Option<u32>,
    text: &str,
    came: &mut String,
) -> Result<(), AllocError> {
    let binaries = told_binaries(alloc, text)?;
    put_judged(alloc, most, &binaries, came)
}
