//! Which messages of kept mail are taken.
#![tactic(auto, using(office_core_store::proofs::LastFacts::lasting))]

ghost use Rattle.std.specs.Prelude.{◌≡◌, ℕ, Some, IsTrue, IfOk, Contains};
ghost use Rattle.testing_rules_model.specs.Covered.{CoveredItem, upload_of};
ghost use Rattle.testing_rules_model.specs.declared.facts.UploadIn.{UploadIn};
ghost use Rattle.testing_rules_facts.specs.Restored.{said};
ghost use Rattle.office_mail.specs.Kept.{Place};
ghost use Rattle.office_core_facts.specs.Outcome.{item_at};
ghost use Rattle.office_core_facts.specs.steps.Chosen.{IsChosen};

use crate::restored::item_in;
use deb_control::{NoMemory, Text};
use office_mail::Setup;
use std::alloc::Global;
use testing_rules_items::Item;

/// All messages, or the uploads of some sources, which are taken again.
#[derive(Clone, Copy)]
pub enum Choice<'a> {
    All,
    UploadsOf(&'a [Text]),
}

/// Whether a text is chosen.
pub(crate) fn is_chosen(
    alloc: Global,
    setup: &Setup,
    text: &[u8],
    choice: Choice<'_>,
) -> Result<bool, NoMemory>
    ensures { IfOk result (λ chosen. (p : Place) → IsChosen choice.entry (item_at setup.now (p, text.now)) chosen) }
{
    match choice {
        Choice::All => Ok(true),
        Choice::UploadsOf(names) => is_named(alloc, setup, text, names),
    }
}

/// Whether a text is an upload of one of these names.
fn is_named(alloc: Global, setup: &Setup, text: &[u8], names: &[Text]) -> Result<bool, NoMemory>
    ensures { IfOk result (λ named. (p : Place) (m : CoveredItem) (u : UploadIn) → item_at setup.now (p, text.now) ≡ Some m → upload_of m ≡ Some u → Contains names.now u.source → IsTrue named) }
{
    let item = item_in(alloc, setup, text)?;
    let named = is_upload_of(&item, names);
    drop(item);
    Ok(named)
}

/// Whether an item is an upload of one of these names.
fn is_upload_of(item: &Item, names: &[Text]) -> bool
    ensures { (sender number : ℕ) (u : UploadIn) → upload_of (said sender number item.now) ≡ Some u → Contains names.now u.source → IsTrue result }
{
    match item {
        Item::Upload { source, .. } => has_name(names, source.as_str()),
        _ => false,
    }
}

/// Whether the name is among these.
fn has_name(names: &[Text], name: &str) -> bool
    ensures { Contains names.now name.now → IsTrue result }
{
    'names: for other in names {
        if other.as_str() == name {
            return true;
        }
    }
    false
}
