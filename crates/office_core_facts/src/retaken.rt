//! The facts of a run go with the testing that it leaves: uploads are taken again if testing lost their source or has
//! it in a lower version.
#![tactic(auto, using(office_core_store::proofs::LastFacts::lasting))]

ghost use Rattle.std.specs.Prelude.{◌≡◌, IfOk, OnOk, length, slice_index};
ghost use Rattle.testing_rules_model.specs.Covered.{Covered};
ghost use Rattle.testing_rules_model.specs.FactDifference.{IsDifference};
ghost use Rattle.testing_rules_model.specs.KeptFacts.{KeptFacts};
ghost use Rattle.testing_rules_model.specs.StandsFor.{StandsFor};
ghost use Rattle.office_mail_setup.specs.declared.setup.Role.TheVariants.{Release as TheRelease};
ghost use Rattle.office_mail.specs.Setup.{count_of};
ghost use Rattle.office_store_keeper.specs.FactSet.{AreHoldable, facts_after};
ghost use Rattle.office_store_keeper.specs.Provenance.{AreOwnTexts};
ghost use Rattle.office_core_facts.specs.Known.{AreUnderWay};
ghost use Rattle.office_core_store.specs.ReadsStore.{ReadsStore};
ghost use Rattle.office_core_facts.specs.steps.Taking.{TookAgain};
ghost use Rattle.office_core_facts.specs.steps.Walk.{said_within};

use crate::choice::Choice;
use crate::covered::KnownFacts;
use crate::finished::cover_at;
use crate::walk::{Stretch, take_stretch};
use deb_control::Text;
use office_core_store::StoreFault;
use office_mail::Setup;
use office_store_keeper::Keeper;
use std::alloc::Global;
use testing_rules_excuses::fallen;
use testing_rules_facts::Facts;
use testing_rules_model::FactChanges;
use testing_rules_suites::Testing;

/// Adapts what is known after a run to the testing that it leaves. The uploads of the sources that fell are taken again,
/// and uploads that don't count there go. The changes of the rows of facts are recorded.
pub fn follow_testing<K: Keeper>(
    alloc: Global,
    setup: &Setup,
    keeper: &mut K,
    known: &mut KnownFacts,
    before: &Testing,
    after: &Testing,
) -> Result<FactChanges, StoreFault>
    ensures way { K.is_trusted keeper.new → AreUnderWay setup.now (K.content keeper.old) known.old.facts → OnOk result (AreUnderWay setup.now (K.content keeper.old) known.new.facts) }
    ensures difference { IfOk result (λ changes. IsDifference known.new.facts.came known.new.facts.left changes.put changes.gone) }
    ensures held { K.is_trusted keeper.new → AreUnderWay setup.now (K.content keeper.old) known.old.facts → AreOwnTexts setup.now (K.content keeper.old).kept
        → IfOk result (λ changes. AreHoldable setup.now (facts_after changes (K.content keeper.old).facts)) }
    ensures kept { K.is_trusted keeper.new → let s : Covered = said_within setup.now (K.content keeper.old).kept (slice_index known.old.taken.items) (length setup.now.senders) in
        StandsFor known.old.facts s before.now → OnOk result (KeptFacts known.new.facts s after.now) }
    ensures taken { known.new.taken ≡ known.old.taken }
    ensures looks { ReadsStore K.Keeper keeper.old keeper.new result }
{
    one_release_sender(setup);
    retake_uploads(alloc, setup, keeper, known, before, after)?;
    known.facts.trim(after);
    let changes = known.facts.changes()?;
    Ok(changes)
}

/// The release team has one sender.
fn one_release_sender(setup: &Setup)
    ensures { count_of TheRelease setup.now.senders ≡ 1 }
{
    let _ = setup.archs();
}

/// Takes the uploads of the sources that fell again, from each sender's messages up to its number. So the facts fit the
/// testing after, which lost these sources or has lower versions. If none fell, nothing is read.
fn retake_uploads<K: Keeper>(
    alloc: Global,
    setup: &Setup,
    keeper: &mut K,
    known: &mut KnownFacts,
    before: &Testing,
    after: &Testing,
) -> Result<(), StoreFault>
    ensures way { K.is_trusted keeper.new → OnOk result (AreUnderWay setup.now (K.content keeper.old) known.old.facts → AreUnderWay setup.now (K.content keeper.old) known.new.facts) }
    ensures stands { K.is_trusted keeper.new → OnOk result (let s : Covered = said_within setup.now (K.content keeper.old).kept (slice_index known.old.taken.items) (length setup.now.senders) in
        StandsFor known.old.facts s before.now → StandsFor known.new.facts s after.now) }
    ensures taken { known.new.taken ≡ known.old.taken }
    ensures looks { ReadsStore K.Keeper keeper.old keeper.new result }
{
    let sources = fallen(alloc, before, after)?;
    let names = sources.as_slice();
    if names.is_empty() {
        return Ok(());
    }
    retake_all(alloc, setup, keeper, &mut known.facts, &known.taken, names)
}

/// Takes the uploads of these names again, sender by sender, each up to its number.
fn retake_all<K: Keeper>(
    alloc: Global,
    setup: &Setup,
    keeper: &mut K,
    facts: &mut Facts,
    taken: &[u32],
    names: &[Text],
) -> Result<(), StoreFault>
    ensures way { K.is_trusted keeper.new → OnOk result (AreUnderWay setup.now (K.content keeper.old) facts.old → AreUnderWay setup.now (K.content keeper.old) facts.new) }
    ensures again { K.is_trusted keeper.new → OnOk result (TookAgain names.now (said_within setup.now (K.content keeper.old).kept (slice_index taken.now) (length setup.now.senders)) facts.old facts.new) }
    ensures looks { ReadsStore K.Keeper keeper.old keeper.new result }
{
    'senders: for sender in 0..setup.senders().len() {
        let end = cover_at(taken, sender);
        let stretch = Stretch {
            sender: sender as u32,
            done: 0,
            end,
        };
        take_stretch(
            alloc,
            setup,
            keeper,
            facts,
            stretch,
            Choice::UploadsOf(names),
        )?;
    }
    Ok(())
}
