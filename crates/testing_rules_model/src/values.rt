//! Whether two values are the same, field by field.
ghost use Rattle.std.specs.Prelude.{◌≡◌, ◌↔◌, IsTrue};
ghost use Rattle.testing_rules_model.specs.JudgedRows.{row_of};

use crate::{FactRow, LentRow, RowIn, SourceIn};
use deb_control::{Alternative, Binary, Clause, Op, Provision, Relation, Text};
use deb_version::Version;

/// A value that can be compared with another.
pub trait Same {
    /// Whether the two are the same. It allocates nothing.
    fn is_same(&self, other: &Self) -> bool
        ensures { IsTrue result ↔ (self.now ≡ other.now) };
}

/// Whether two lists are the same.
pub fn are_same<T: Same>(these: &[T], those: &[T]) -> bool
    ensures { IsTrue result ↔ (these.now ≡ those.now) }
{
    these.len() == those.len()
        && these
            .iter()
            .zip(those)
            .all(|(this, that)| this.is_same(that))
}

impl<T: Same> Same for Option<T> {
    fn is_same(&self, other: &Option<T>) -> bool {
        match (self, other) {
            (Some(this), Some(that)) => this.is_same(that),
            (None, None) => true,
            _ => false,
        }
    }
}

impl Same for Text {
    fn is_same(&self, other: &Text) -> bool {
        self.as_str() == other.as_str()
    }
}

impl Same for Version {
    fn is_same(&self, other: &Version) -> bool {
        self.text() == other.text()
    }
}

impl Same for Op {
    fn is_same(&self, other: &Op) -> bool {
        match (self, other) {
            (Op::Below, Op::Below)
            | (Op::AtMost, Op::AtMost)
            | (Op::Equal, Op::Equal)
            | (Op::AtLeast, Op::AtLeast)
            | (Op::Above, Op::Above) => true,
            _ => false,
        }
    }
}

impl Same for Relation {
    fn is_same(&self, other: &Relation) -> bool {
        self.op.is_same(&other.op) && self.version.is_same(&other.version)
    }
}

impl Same for Alternative {
    fn is_same(&self, other: &Alternative) -> bool {
        self.name.is_same(&other.name) && self.relation.is_same(&other.relation)
    }
}

impl Same for Provision {
    fn is_same(&self, other: &Provision) -> bool {
        self.name.is_same(&other.name) && self.version.is_same(&other.version)
    }
}

impl Same for Clause {
    fn is_same(&self, other: &Clause) -> bool {
        are_same(self.as_slice(), other.as_slice())
    }
}

impl Same for Binary {
    fn is_same(&self, other: &Binary) -> bool {
        self.name.is_same(&other.name)
            && self.version.is_same(&other.version)
            && self.architecture.is_same(&other.architecture)
            && self.source.is_same(&other.source)
            && self.source_version.is_same(&other.source_version)
            && are_same(self.clauses.as_slice(), other.clauses.as_slice())
            && are_same(self.provides.as_slice(), other.provides.as_slice())
    }
}

impl Same for SourceIn {
    fn is_same(&self, other: &SourceIn) -> bool {
        self.name.is_same(&other.name)
            && self.version.is_same(&other.version)
            && self.sender == other.sender
            && self.number == other.number
    }
}

/// Whether a borrowed row is the same as another. Cheap comparisons come first.
pub fn is_row(lent: &LentRow, row: &RowIn) -> bool
    ensures { IsTrue result ↔ (row_of lent.now ≡ row.now) }
{
    let this: &Binary = lent.binary;
    let that: &Binary = &row.binary;
    lent.number == row.number
        && lent.sender == row.sender
        && lent.place == row.place
        && lent.arch == row.arch
        && this.is_same(that)
}

impl Same for RowIn {
    fn is_same(&self, other: &RowIn) -> bool {
        is_row(&self.lend(), other)
    }
}

impl Same for FactRow {
    fn is_same(&self, other: &FactRow) -> bool {
        self.kind == other.kind
            && self.sender == other.sender
            && self.number == other.number
            && self.place == other.place
    }
}
