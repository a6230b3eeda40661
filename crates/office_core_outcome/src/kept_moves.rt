//! Whether a run moves all that another one moves.

ghost use Rattle.std.specs.Prelude.{◌≡◌, ◌++◌, ℕ, List, true, IfOk, OnOk, map};
ghost use Rattle.std.specs.List.{flat_map, list_all, list_any};
ghost use Rattle.std.specs.Str.{bytes_eq};
ghost use Rattle.office_core_outcome.specs.Proposal.{KeepsMoves};
ghost use Rattle.office_core_outcome.specs.steps.Settled.{names_in};
ghost use Rattle.testing_rules_reports.specs.steps.LentLines.{has_line, lent_lines};

use deb_control::NoMemory;
use std::alloc::{AllocError, Global};
use std::collections::HashSet;
use testing_rules_model::{Decision, Moved};

/// Names that are looked up by their hash.
type NameSet<'a> = HashSet<&'a str>;

/// The names of sources that moved together.
fn push_names<'a>(names: &mut Vec<&'a str>, items: &'a [Moved]) -> Result<(), AllocError>
    ensures { OnOk result (lent_lines names.new.items ≡ lent_lines names.old.items ++ map (λ m. m.name) items.now) }
{
    for item in items {
        names.push(item.name.as_str())?;
    }
    Ok(())
}

/// The names of the sources that the decision moves.
fn push_moved<'a>(names: &mut Vec<&'a str>, decision: &'a Decision) -> Result<(), AllocError>
    ensures { OnOk result (lent_lines names.new.items ≡ lent_lines names.old.items ++ names_in decision.now) }
{
    match decision {
        Decision::EasyDone { hint: _, items } => push_names(names, items.as_slice()),
        Decision::Accept { name, version: _ } => Ok(names.push(name.as_str())?),
        Decision::Wait { .. } => Ok(()),
        Decision::RemoveDone { .. }
        | Decision::RemoveRefused { .. }
        | Decision::EasyNotCandidate { .. }
        | Decision::EasyRefused { .. } => Ok(()),
    }
}

/// The names of the sources that decisions move.
fn moved_names<'a>(alloc: Global, decisions: &'a [Decision]) -> Result<Vec<&'a str>, AllocError>
    ensures { IfOk result (λ names. lent_lines names.items ≡ flat_map names_in decisions.now) }
{
    let mut names = Vec::new(alloc);
    for decision in decisions {
        push_moved(&mut names, decision)?;
    }
    Ok(names)
}

/// The names as a set.
fn set_of<'a>(alloc: Global, names: &[&'a str]) -> Result<NameSet<'a>, AllocError>
    ensures { IfOk result (λ set. (name : List ℕ) → has_line set.keys name ≡ list_any (bytes_eq name) (lent_lines names.now)) }
{
    let set = names.iter().copied().collect(alloc)?;
    Ok(set)
}

/// Whether the set has the name.
fn is_in_set(set: &NameSet, name: &str) -> bool
    ensures { result ≡ has_line set.now.keys name.now }
{
    set.contains(name)
}

/// The set has all of the names.
fn has_all(set: &NameSet, names: &[&str]) -> bool
    ensures { result ≡ list_all (has_line set.now.keys) (lent_lines names.now) }
{
    for name in names {
        if !is_in_set(set, name) {
            return false;
        }
    }
    true
}

/// All sources that move in the one run move in the other too. It costs a few looks at each decision.
pub(crate) fn keeps_moves(
    alloc: Global,
    one: &[Decision],
    other: &[Decision],
) -> Result<bool, NoMemory>
    ensures { IfOk result (λ keeps. keeps ≡ true → KeepsMoves one.now other.now) }
{
    let before = moved_names(alloc, one)?;
    let after = moved_names(alloc, other)?;
    let set = set_of(alloc, &after)?;
    Ok(has_all(&set, &before))
}
