//! Hints in words.
ghost use Rattle.std.specs.Prelude.{◌≡◌, ◌++◌, OnOk, string_bytes};
ghost use Rattle.std.specs.List.{flat_map};
ghost use Rattle.office_core_queries.specs.Listing.{hint_words, item_words, spaced};

use deb_control::Text;
use std::alloc::AllocError;
use testing_rules_items::{Hint, HintItem};

/// A hint, as its message spells it.
pub(crate) fn push_hint(text: &mut String, hint: &Hint) -> Result<(), AllocError>
    ensures { OnOk result (string_bytes text.new ≡ string_bytes text.old ++ hint_words hint.now) }
{
    match hint {
        Hint::Block(names) => {
            text.push_str("block")?;
            push_names(text, names.as_slice())
        }
        Hint::Unblock(items) => {
            text.push_str("unblock")?;
            push_items(text, items.as_slice())
        }
        Hint::Easy(items) => {
            text.push_str("easy")?;
            push_items(text, items.as_slice())
        }
        Hint::AgeDays(days, items) => {
            write!(text, "age-days {days}")?;
            push_items(text, items.as_slice())
        }
        Hint::Remove(items) => {
            text.push_str("remove")?;
            push_items(text, items.as_slice())
        }
        Hint::BlockAll => text.push_str("block-all source"),
    }
}

fn push_names(text: &mut String, names: &[Text]) -> Result<(), AllocError>
    ensures { OnOk result (string_bytes text.new ≡ string_bytes text.old ++ flat_map spaced names.now) }
{
    for name in names {
        write!(text, " {}", name.as_str())?;
    }
    Ok(())
}

fn push_items(text: &mut String, items: &[HintItem]) -> Result<(), AllocError>
    ensures { OnOk result (string_bytes text.new ≡ string_bytes text.old ++ flat_map item_words items.now) }
{
    for item in items {
        write!(text, " {}/{}", item.name.as_str(), item.version.text())?;
    }
    Ok(())
}
