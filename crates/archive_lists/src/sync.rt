//! What is due to the office by three lists, and its lines.

ghost use Rattle.std.specs.Prelude.{◌≡◌, IfOk};
ghost use Rattle.std.specs.String.{string_bytes};
ghost use Rattle.archive_lists.specs.List.{IsSyncOfLists, due_text};

use crate::lines::push_items;
use crate::lists::{ListedFault, Lists, read_lists};
use archive_plan::{Due, sync_of};
use std::alloc::{AllocError, Global};

/// What is due to an office by these lists: of what it was told, what the index has, and what was dropped. At most `gone`
/// packages leave its unstable.
pub fn sync_of_lists(alloc: Global, lists: Lists<'_>, gone: usize) -> Result<Due, ListedFault>
    ensures { IfOk result (λ due. IsSyncOfLists lists.entry.first.now lists.entry.second.now lists.entry.third.now gone due) }
{
    let listed = read_lists(alloc, lists)?;
    Ok(sync_of(alloc, &listed.first, &listed.second, &listed.third, gone)?)
}

/// The lines of what is due: `tell NAME VERSION ARCHITECTURE` for each build and each upload, then `drop ..` for each
/// package that is to be dropped up to its version, and `left ..` for what can't be told.
pub fn due_lines(alloc: Global, due: &Due) -> Result<String, AllocError>
    ensures { IfOk result (λ text. string_bytes text ≡ due_text due.now) }
{
    let mut text = String::new(alloc);
    push_items(&mut text, "tell", &due.tells)?;
    push_items(&mut text, "drop", &due.drops)?;
    push_items(&mut text, "left", &due.left)?;
    Ok(text)
}
