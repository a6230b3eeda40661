//! What a store holds of its runs, compared with what a rebuilt office holds.
#![tactic(auto, using(office_core_store::proofs::LastFacts::lasting))]

ghost use Rattle.std.specs.Prelude.{◌≡◌, ◌↔◌, ◌+◌, IsTrue, Ok, IfOk, IfErr};
ghost use Rattle.office_store_keeper.specs.Content.{item_from_one};
ghost use Rattle.office_store_keeper.specs.FactSet.{rows_in};
ghost use Rattle.office_store_keeper.specs.MemoryState.{content_of};
ghost use Rattle.office_store_keeper.specs.declared.faults.KeepFault.{KeepFault};
ghost use Rattle.office_core_store.specs.declared.faults.StoreFault.TheVariants.{NoMemory};
ghost use Rattle.office_core_store.specs.ReadsStore.{ReadsStore};
ghost use Rattle.office_core_check.specs.steps.Comparing.{AreRunsCompared, IsCompared, IsRunDifference};

use crate::Difference;
use crate::memory::Bounded;
use office_core_store::StoreFault;
use office_store_keeper::{KeepFault, Keeper, Reports};
use testing_rules_model::{Same, are_same};
use testing_rules_suites::Testing;

/// The answer of a store in memory, which fails only if memory runs out.
pub(crate) fn in_memory<T>(answer: Result<T, KeepFault>) -> Result<T, StoreFault>
    ensures ok { IfOk result (λ value. answer ≡ Ok value) }
    ensures fault { IfErr result (λ fault. fault ≡ NoMemory) }
{
    match answer {
        Ok(value) => Ok(value),
        Err(_) => Err(StoreFault::NoMemory),
    }
}

/// How the two reports of a run differ from others, if they do.
fn reports_difference(run: u32, these: &Reports, those: &Reports) -> Option<Difference>
    ensures { IsRunDifference run (Some these.now) (Some those.now) result }
{
    if !these.excuses.is_same(&those.excuses) {
        Some(Difference::Excuses { run })
    } else if !these.updates.is_same(&those.updates) {
        Some(Difference::Update { run })
    } else {
        None
    }
}

/// How the reports of a run differ from others, if they do.
fn run_difference(run: u32, these: &Option<Reports>, those: &Option<Reports>) -> Option<Difference>
    ensures { IsRunDifference run these.now those.now result }
{
    match (these, those) {
        (Some(these), Some(those)) => reports_difference(run, these, those),
        (None, None) => None,
        _ => Some(Difference::Excuses { run }),
    }
}

/// How what a store holds of a run differs from what a rebuilt office holds, if it does.
fn compare_run<K: Keeper>(
    keeper: &mut K,
    made: &mut Bounded,
    run: u32,
) -> Result<Option<Difference>, StoreFault>
    ensures found { K.is_trusted keeper.new → IfOk result (IsRunDifference run (item_from_one run (K.content keeper.old).reports) (item_from_one run (content_of made.old.plain).reports)) }
    ensures same { content_of made.new.plain ≡ content_of made.old.plain }
    ensures looks { ReadsStore K.Keeper keeper.old keeper.new result }
{
    let these = keeper.reports(run)?;
    let those = in_memory(made.reports(run))?;
    Ok(run_difference(run, &these, &those))
}

/// The first difference between the reports of that many runs, if there is one.
fn compare_runs<K: Keeper>(
    keeper: &mut K,
    made: &mut Bounded,
    runs: u32,
) -> Result<Option<Difference>, StoreFault>
    ensures found { K.is_trusted keeper.new → IfOk result (AreRunsCompared (K.content keeper.old) (content_of made.old.plain) runs) }
    ensures same { content_of made.new.plain ≡ content_of made.old.plain }
    ensures looks { ReadsStore K.Keeper keeper.old keeper.new result }
{
    let mut done = 0;
    'runs: while done < runs {
        let difference = compare_run(keeper, made, done + 1)?;
        if difference.is_some() {
            return Ok(difference);
        }
        done += 1;
    }
    Ok(None)
}

/// Whether two testing suites are the same.
fn is_same_testing(these: &Testing, those: &Testing) -> bool
    ensures { IsTrue result ↔ (these.now ≡ those.now) }
{
    are_same(these.sources(), those.sources()) && are_same(these.rows(), those.rows())
}

/// Whether a store holds the testing of a rebuilt office.
fn has_testing<K: Keeper>(keeper: &mut K, made: &mut Bounded) -> Result<bool, StoreFault>
    ensures found { K.is_trusted keeper.new → IfOk result (λ same. IsTrue same ↔ ((K.content keeper.old).testing ≡ (content_of made.old.plain).testing)) }
    ensures same { content_of made.new.plain ≡ content_of made.old.plain }
    ensures looks { ReadsStore K.Keeper keeper.old keeper.new result }
{
    let these = keeper.testing()?;
    let those = in_memory(made.testing())?;
    Ok(is_same_testing(&these, &those))
}

/// Whether a store holds the rows of facts of a rebuilt office.
fn has_facts<K: Keeper>(keeper: &mut K, made: &mut Bounded) -> Result<bool, StoreFault>
    ensures found { K.is_trusted keeper.new → IfOk result (λ same. IsTrue same ↔ (rows_in (K.content keeper.old).facts ≡ rows_in (content_of made.old.plain).facts)) }
    ensures same { content_of made.new.plain ≡ content_of made.old.plain }
    ensures looks { ReadsStore K.Keeper keeper.old keeper.new result }
{
    let these = keeper.facts()?;
    let those = in_memory(made.facts())?;
    Ok(are_same(these.as_slice(), those.as_slice()))
}

/// The first difference between what a store holds of that many runs and what a rebuilt office holds, if there is one.
pub(crate) fn compare<K: Keeper>(
    keeper: &mut K,
    made: &mut Bounded,
    runs: u32,
) -> Result<Option<Difference>, StoreFault>
    ensures found { K.is_trusted keeper.new → IfOk result (IsCompared (K.content keeper.old) (content_of made.old.plain) runs) }
    ensures same { content_of made.new.plain ≡ content_of made.old.plain }
    ensures looks { ReadsStore K.Keeper keeper.old keeper.new result }
{
    let difference = compare_runs(keeper, made, runs)?;
    if difference.is_some() {
        return Ok(difference);
    }
    if !has_testing(keeper, made)? {
        return Ok(Some(Difference::Testing));
    }
    if !has_facts(keeper, made)? {
        return Ok(Some(Difference::Facts));
    }
    Ok(None)
}
