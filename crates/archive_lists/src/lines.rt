//! Lines of items, each after a word, and those of faults.

ghost use Rattle.std.specs.Prelude.{◌≡◌, ◌++◌, IfOk, OnOk, option_map};
ghost use Rattle.std.specs.String.{string_bytes};
ghost use Rattle.archive_lists.specs.List.{fault_text, line_with, lines_with};

use archive_plan::{Item, PlanFault};
use std::alloc::{AllocError, Global};

/// Adds the line of an item after a word.
fn push_line(text: &mut String, word: &str, item: &Item) -> Result<(), AllocError>
    ensures { OnOk result (string_bytes text.new ≡ string_bytes text.old ++ line_with word.now item.now) }
{
    let (name, version) = (item.name.as_str(), item.version.text());
    let architecture = item.architecture.as_str();
    writeln!(text, "{word} {name} {version} {architecture}")
}

/// Adds a line for each item.
pub fn push_items(text: &mut String, word: &str, items: &[Item]) -> Result<(), AllocError>
    ensures { OnOk result (string_bytes text.new ≡ string_bytes text.old ++ lines_with word.now items.now) }
{
    for item in items {
        push_line(text, word, item)?;
    }
    Ok(())
}

/// The lines of a fault: `lacks NAME VERSION ARCHITECTURE` for each item that can't be copied, `lower ..` for each that
/// would go to a lower version, or `leaving N`; none if memory ran out.
pub fn fault_lines(alloc: Global, fault: &PlanFault) -> Result<Option<String>, AllocError>
    ensures { IfOk result (λ text. option_map string_bytes text ≡ fault_text fault.now) }
{
    let mut text = String::new(alloc);
    match fault {
        PlanFault::Lacks(items) => push_items(&mut text, "lacks", items)?,
        PlanFault::Backward(items) => push_items(&mut text, "lower", items)?,
        PlanFault::TooMany(count) => writeln!(text, "leaving {count}")?,
        PlanFault::NoMemory => return Ok(None),
    }
    Ok(Some(text))
}
