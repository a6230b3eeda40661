//! Relations between packages.

use deb_control::{Alternative, Clause, Clauses, Provision, Provisions, RelationFault};
use deb_version::Version;
use std::alloc::{AllocError, Global};

/// Adds clauses: the alternatives of each in braces.
pub fn put_clauses(clauses: &Clauses, came: &mut String) -> Result<(), AllocError> {
    for clause in clauses.as_slice() {
        put_clause(clause, came)?;
    }
    Ok(())
}

fn put_clause(clause: &Clause, came: &mut String) -> Result<(), AllocError> {
    came.push_str(" {")?;
    for alternative in clause.as_slice() {
        put_alternative(alternative, came)?;
    }
    came.push_str(" }")
}

fn put_alternative(alternative: &Alternative, came: &mut String) -> Result<(), AllocError> {
    let name = alternative.name.as_str();
    match &alternative.relation {
        Some(relation) => {
            write!(
                came,
                " {name} {:?} {}",
                relation.op,
                relation.version.text()
            )
        }
        None => write!(came, " {name}"),
    }
}

/// Adds provisions: the name of each, and the version after `=`, if there is one.
pub fn put_provisions(provisions: &Provisions, came: &mut String) -> Result<(), AllocError> {
    for provision in provisions.as_slice() {
        put_provision(provision, came)?;
    }
    Ok(())
}

fn put_provision(provision: &Provision, came: &mut String) -> Result<(), AllocError> {
    let name = provision.name.as_str();
    match &provision.version {
        Some(version) => write!(came, " {name} = {}", version.text()),
        None => write!(came, " {name}"),
    }
}

/// Adds why a text is refused.
fn put_refused(fault: RelationFault, came: &mut String) -> Result<(), AllocError> {
    write!(came, " refused, {fault}")
}

/// Adds the clauses that a text is read as.
pub fn put_clauses_of(alloc: Global, text: &str, came: &mut String) -> Result<(), AllocError> {
    match Clauses::parse(alloc, text) {
        Ok(clauses) => put_clauses(&clauses, came),
        Err(fault) => put_refused(fault, came),
    }
}

/// Adds the provisions that a text is read as.
pub fn put_provisions_of(alloc: Global, text: &str, came: &mut String) -> Result<(), AllocError> {
    match Provisions::parse(alloc, text) {
        Ok(provisions) => put_provisions(&provisions, came),
        Err(fault) => put_refused(fault, came),
    }
}

/// Adds whether the version at the beginning of a text is in the relation of the clause after it.
pub fn put_holds(alloc: Global, text: &str, came: &mut String) -> Result<(), AllocError> {
    let (version, clause) = text.split_once(' ').unwrap_or((text, ""));
    match Clauses::parse(alloc, clause) {
        Ok(clauses) => put_met(alloc, &clauses, version, came),
        Err(fault) => put_refused(fault, came),
    }
}

/// Adds whether a version is in the relation of a clause.
fn put_met(
    alloc: Global,
    clauses: &Clauses,
    text: &str,
    came: &mut String,
) -> Result<(), AllocError> {
    match Version::parse(alloc, text) {
        Ok(version) => write!(came, " {}", is_met(clauses, &version)),
        Err(fault) => write!(came, " refused, {fault}"),
    }
}

/// Whether a version is in the relation of some clause's first alternative.
fn is_met(clauses: &Clauses, version: &Version) -> bool {
    for clause in clauses.as_slice() {
        if let [alternative, ..] = clause.as_slice() {
            if let Some(relation) = &alternative.relation {
                return relation.holds(version);
            }
        }
    }
    false
}
