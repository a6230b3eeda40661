//! What a search for hints is asked.

use deb_control::Text;
use jiff_core::civil::Date;
use office_mail::Setup;
use testing_rules_facts::Facts;

/// The basis of a run, the number after which its hints continue, and the sources to be freed, if any is named.
#[derive(Clone, Copy)]
pub(crate) struct Asked<'a> {
    pub setup: &'a Setup,
    pub date: Date,
    pub facts: &'a Facts,
    pub number: u32,
    pub sources: &'a [Text],
}
