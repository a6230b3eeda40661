//! Testing's rows while a run changes them.

ghost use Rattle.std.specs.Prelude.{◌≡◌, IfOk, IfSome, List};
ghost use Rattle.testing_install.specs.Closed.{marked};
ghost use Rattle.testing_rules_model.specs.Boxed.{unboxed};
ghost use Rattle.testing_rules_suites.specs.steps.AfterMoves.{moved_rows, rows_without};
ghost use Rattle.testing_rules_model.specs.FactOrder.{AreBySource};
ghost use Rattle.testing_rules_model.specs.steps.FactOrder.{IsUnstableOrder};
ghost use Rattle.testing_rules_live.specs.steps.Held.{held, AreLive, IsChangeBy};
ghost use Rattle.testing_rules_model.specs.InOrder.{AreByKey};
ghost use Rattle.testing_rules_model.specs.JudgedRows.{lent};
ghost use Rattle.testing_rules_suites.specs.CarriedOver.{AreCarriedOver};
ghost use Rattle.testing_rules_suites.specs.Present.{IsShown};
ghost use Rattle.testing_rules_suites.specs.steps.PresentSteps.{IsLive, present_rows};
ghost use Rattle.testing_rules_items.specs.Words.{Text as Word};
ghost use Rattle.testing_rules_model.specs.declared.suite.RowIn.{RowIn as ARow};

use crate::lent_rows::{moved_rows, rows_without};
use crate::pool_suites::PoolSuites;
use deb_control::Text;
use deb_version::NoMemory;
use std::alloc::Global;
use testing_rules_facts::{Hashes, Unstable};
use testing_rules_items::Archs;
use testing_rules_model::{LentRow, RowIn};
use testing_rules_suites::{CarriedSuites, Change, Testing, copy_lent, lend_rows};

/// Testing's rows: the present ones of a pool, whose suites judge and make a change by what it touches; or a list of
/// them, without suites.
#[derive(Drop)]
pub enum LiveRows {
    Pooled(PoolSuites),
    Listed(Vec<RowIn>),
}

/// A list of the rows after the move of a group, instead of the rows.
fn listed_moved<'a>(
    alloc: Global,
    rows: &'a LiveRows,
    unstable: Unstable<'_, 'a>,
    group: &[Text],
) -> Result<LiveRows, NoMemory>
    requires sources { AreBySource (unboxed unstable.sources.now) }
    requires by_key { AreByKey (held rows.now) }
    ensures rows { IfOk result (λ new. held new ≡ moved_rows (unboxed unstable.entry.sources.now) (lent unstable.entry.rows.now) group.now (held rows.now)) }
    ensures live { IfOk result (λ new. (archs : List Word) → AreLive new archs (lent unstable.entry.rows.now)) }
    ensures by_key { IfOk result (λ new. AreByKey (held new)) }
{
    let rows = rows.list(alloc)?;
    let moved = moved_rows(alloc, &rows, unstable, group)?;
    let copies = copy_lent(alloc, &moved)?;
    Ok(LiveRows::Listed(copies))
}

/// The rows after the move of a group by this change.
fn moved_by(
    alloc: Global,
    rows: LiveRows,
    unstable: Unstable<'_, '_>,
    group: &[Text],
    change: &Change,
) -> Result<LiveRows, NoMemory>
    requires order { IsUnstableOrder (unboxed unstable.sources.now) (lent unstable.rows.now) }
    requires by_key { AreByKey (held rows) }
    requires change { IsChangeBy rows (unboxed unstable.sources.now) group.now change.now }
    ensures rows { IfOk result (λ new. (archs : List Word) → AreLive rows archs (lent unstable.entry.rows.now)
        → held new ≡ moved_rows (unboxed unstable.entry.sources.now) (lent unstable.entry.rows.now) group.now (held rows)) }
    ensures live { IfOk result (λ new. (archs : List Word) → AreLive rows archs (lent unstable.entry.rows.now)
        → AreLive new archs (lent unstable.entry.rows.now)) }
    ensures by_key { IfOk result (λ new. AreByKey (held new)) }
{
    match rows {
        LiveRows::Pooled(suites) => {
            let suites = suites.after(alloc, change)?;
            Ok(LiveRows::Pooled(suites))
        }
        LiveRows::Listed(rows) => {
            let rows = LiveRows::Listed(rows);
            listed_moved(alloc, &rows, unstable, group)
        }
    }
}

/// The suites after the removal of a source.
fn suites_without(alloc: Global, suites: PoolSuites, name: &Text) -> Result<PoolSuites, NoMemory>
    ensures rows { IfOk result (λ new. (archs : List Word) (unstable : List ARow) → IsLive suites archs unstable (present_rows suites)
        → present_rows new ≡ rows_without name.now (present_rows suites)) }
    ensures live { IfOk result (λ new. (archs : List Word) (unstable : List ARow) → IsLive suites archs unstable (present_rows suites)
        → IsLive new archs unstable (present_rows new)) }
{
    let change = suites.change_by_removal(alloc, name.as_str())?;
    suites.after(alloc, &change)
}

/// A list of the rows of other sources.
fn list_without(alloc: Global, rows: &[RowIn], name: &Text) -> Result<Vec<RowIn>, NoMemory>
    ensures { IfOk result (λ left. left.items ≡ rows_without name.now rows.now) }
{
    let rows = lend_rows(alloc, rows)?;
    let left = rows_without(alloc, &rows, name)?;
    copy_lent(alloc, &left)
}

/// The suites kept of the rows, or new ones: if there are none, if they have another number of architectures, or if
/// more than half of their rows are absent.
fn kept_or_new(
    alloc: Global,
    archs: u32,
    rows: &[RowIn],
    kept: Option<CarriedSuites>,
) -> Result<CarriedSuites, NoMemory>
    requires order { AreByKey rows.now }
    requires kept { AreCarriedOver kept rows.now }
    ensures archs { IfOk result (λ suites. suites.archs ≡ archs) }
    ensures shown { IfOk result (λ suites. IsShown suites.rows (marked suites.stands) rows.now) }
{
    match kept {
        Some(kept) => {
            if kept.archs() == archs && kept.len() / 2 <= rows.len() {
                Ok(kept)
            } else {
                CarriedSuites::of(alloc, archs, rows)
            }
        }
        None => CarriedSuites::of(alloc, archs, rows),
    }
}

impl LiveRows {
    /// The rows before a run. Those unstable rows may come whose source is a candidate.
    pub fn new(
        alloc: Global,
        archs: &Archs,
        unstable: Unstable<'_, '_>,
        testing: &Testing,
        candidates: Hashes,
        kept: Option<CarriedSuites>,
    ) -> Result<LiveRows, NoMemory>
        requires { AreCarriedOver kept testing.now.rows }
        ensures rows { IfOk result (λ new. held new ≡ testing.now.rows) }
        ensures live { IfOk result (λ new. AreLive new archs.now (lent unstable.entry.rows.now)) }
        ensures by_key { IfOk result (λ new. AreByKey (held new)) }
    {
        let kept = kept_or_new(alloc, archs.len(), testing.rows(), kept)?;
        let suites = PoolSuites::new(alloc, kept, candidates, unstable.rows)?;
        Ok(LiveRows::Pooled(suites))
    }

    /// The rows after the move of a group, by the tried change. Without one, they are a list from then on.
    pub fn moved(
        self,
        alloc: Global,
        unstable: Unstable<'_, '_>,
        group: &[Text],
        change: Option<Change>,
    ) -> Result<LiveRows, NoMemory>
        requires order { IsUnstableOrder (unboxed unstable.sources.now) (lent unstable.rows.now) }
        requires by_key { AreByKey (held self) }
        requires change { IfSome change (IsChangeBy self (unboxed unstable.sources.now) group.now) }
        ensures rows { IfOk result (λ new. (archs : List Word) → AreLive self archs (lent unstable.entry.rows.now)
            → held new ≡ moved_rows (unboxed unstable.entry.sources.now) (lent unstable.entry.rows.now) group.now (held self)) }
        ensures live { IfOk result (λ new. (archs : List Word) → AreLive self archs (lent unstable.entry.rows.now)
            → AreLive new archs (lent unstable.entry.rows.now)) }
        ensures by_key { IfOk result (λ new. AreByKey (held new)) }
    {
        match change {
            Some(change) => moved_by(alloc, self, unstable, group, &change),
            None => {
                let rows = self;
                listed_moved(alloc, &rows, unstable, group)
            }
        }
    }

    /// The rows after the removal of a source.
    pub fn without(self, alloc: Global, name: &Text) -> Result<LiveRows, NoMemory>
        requires { AreByKey (held self) }
        ensures rows { IfOk result (λ new. (archs : List Word) (unstable : List ARow) → AreLive self archs unstable
            → held new ≡ rows_without name.now (held self)) }
        ensures live { IfOk result (λ new. (archs : List Word) (unstable : List ARow) → AreLive self archs unstable
            → AreLive new archs unstable) }
        ensures by_key { IfOk result (λ new. AreByKey (held new)) }
    {
        match self {
            LiveRows::Pooled(suites) => {
                let suites = suites_without(alloc, suites, name)?;
                Ok(LiveRows::Pooled(suites))
            }
            LiveRows::Listed(rows) => {
                let left = list_without(alloc, &rows, name)?;
                Ok(LiveRows::Listed(left))
            }
        }
    }

    /// A list of the rows.
    pub fn list(&self, alloc: Global) -> Result<Vec<LentRow<'_>>, NoMemory>
        ensures { IfOk result (λ rows. lent rows.items ≡ held self.now) }
    {
        match self {
            LiveRows::Pooled(suites) => suites.rows(alloc),
            LiveRows::Listed(rows) => lend_rows(alloc, rows),
        }
    }

    /// The rows, and the suites kept of them, if any.
    pub fn into_parts(self, alloc: Global) -> Result<(Vec<RowIn>, Option<CarriedSuites>), NoMemory>
        ensures rows { IfOk result (λ parts. parts.0.items ≡ held self) }
        ensures kept { IfOk result (λ parts. (archs : List Word) (unstable : List ARow) → AreLive self archs unstable → AreCarriedOver parts.1 (held self)) }
    {
        match self {
            LiveRows::Pooled(suites) => {
                let rows = suites.copies(alloc)?;
                Ok((rows, Some(suites.into_kept())))
            }
            LiveRows::Listed(rows) => Ok((rows, None)),
        }
    }
}
