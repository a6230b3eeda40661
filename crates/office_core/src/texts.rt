//! The text of the testing that a store keeps.
#![tactic(auto, using(office_core_store::proofs::LastFacts::lasting))]

ghost use Rattle.std.specs.Prelude.{◌≡◌, IfOk};
ghost use Rattle.office_core_store.specs.ReadsStore.{ReadsStore};
ghost use Rattle.office_core_facts.specs.Outcome.{testing_text};

use deb_control::Text;
use office_core_facts::last_run::give_back;
use office_core_outcome::testing_text;
use office_core_store::{StoreFault, stored};
use office_mail::Setup;
use office_store_keeper::Keeper;
use std::alloc::Global;

/// The text of the kept testing after a number of runs. Testing is returned with what speeds the next run.
pub fn kept_testing_text<K: Keeper>(
    alloc: Global,
    setup: &Setup,
    keeper: &mut K,
    finished: u32,
) -> Result<Text, StoreFault>
    ensures text { K.is_trusted keeper.new → K.is_legible keeper.old → IfOk result (λ text. text ≡ testing_text setup.now finished (K.content keeper.old).testing) }
    ensures looks { ReadsStore K.Keeper keeper.old keeper.new result }
{
    let testing = stored::next_testing(keeper)?;
    let text = testing_text(alloc, setup, finished, &testing);
    give_back(keeper, testing);
    Ok(text?)
}
