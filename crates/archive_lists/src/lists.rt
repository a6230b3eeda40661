//! Three lists, of which a decision is made.

ghost use Rattle.std.specs.Prelude.{IfOk};
ghost use Rattle.archive_lists.specs.List.{AreLists};

use crate::list::{ListFault, read_list};
use archive_plan::{Item, PlanFault};
use std::alloc::Global;

/// The texts of three lists. For a plan they are what testing has, what the published suite has, and what can be copied;
/// for what is due to the office, what it was told, what the index has, and what was dropped.
#[derive(Clone, Copy)]
pub struct Lists<'a> {
    pub first: &'a str,
    pub second: &'a str,
    pub third: &'a str,
}

/// The items of three lists.
#[derive(Drop)]
pub struct Listed {
    pub first: Vec<Item>,
    pub second: Vec<Item>,
    pub third: Vec<Item>,
}

/// Why nothing is decided of lists.
#[derive(Drop)]
pub enum ListedFault {
    First(ListFault),
    Second(ListFault),
    Third(ListFault),
    Decision(PlanFault),
}

impl From<PlanFault> for ListedFault {
    fn from(fault: PlanFault) -> ListedFault {
        ListedFault::Decision(fault)
    }
}

/// The items of three lists.
pub fn read_lists(alloc: Global, lists: Lists<'_>) -> Result<Listed, ListedFault>
    ensures { IfOk result (λ listed. AreLists lists.entry.first.now lists.entry.second.now lists.entry.third.now listed) }
{
    let first = read_list(alloc, lists.first).map_err(|fault| ListedFault::First(fault))?;
    let second = read_list(alloc, lists.second).map_err(|fault| ListedFault::Second(fault))?;
    let third = read_list(alloc, lists.third).map_err(|fault| ListedFault::Third(fault))?;
    Ok(Listed {
        first,
        second,
        third,
    })
}
