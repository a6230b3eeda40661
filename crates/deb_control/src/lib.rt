//! Debian control data: paragraphs of fields (Debian Policy 5.1), relations between packages (7.1, 7.2, 7.5), and
//! binary packages (5.3, 5.6). A call that allocates gets the allocator first, and returns `NoMemory` if an allocation
//! failed.
#![tactic(auto)]

mod binary;
mod fault;
mod grammar;
pub mod laws;
mod owned;
mod paragraphs;
mod relation;
mod text;

pub use binary::Binary;
pub use deb_version::NoMemory;
pub use fault::{BinaryFault, BinaryField, ParagraphFault, RelationFault};
pub use grammar::{is_lower_or_digit, is_package_name, is_qualifier_char};
pub use owned::Text;
pub use paragraphs::{Paragraph, Paragraphs};
pub use relation::{Alternative, Clause, Clauses, Op, Provision, Provisions, Relation};
pub use text::{index_of, is_all_white, is_white, skip_white, split_around, trim_white};
