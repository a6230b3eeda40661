//! Changes of the tables of facts.
ghost use Rattle.office_store_testing_tables.specs.steps.StepsWithin.{BeginsInside, PerformsNeverBad};
ghost use Rattle.office_store_testing_tables.specs.steps.FactSteps.{ChangesFacts, DropsEach};

use office_store_keeper::KeepFault;
pub use office_store_testing_tables::fact_changes::add_delays;
use office_store_testing_tables::fact_changes::{add_each, drop_each};
use sqlite::{Alter, Transaction};
use testing_rules_model::FactChanges;

/// Removes the facts that are gone.
fn drop_gone<S: Alter>(
    tx: &mut Transaction<'_, S>,
    release: u32,
    changes: &FactChanges,
) -> Result<(), KeepFault>
    requires { BeginsInside S.Store tx.old.conn }
    ensures { PerformsNeverBad S.Store tx.old.conn tx.new.conn result (λ db next _. DropsEach release db next changes.now.gone) }
{
    drop_each(tx, release, changes.gone.as_slice())
}

/// Removes the facts that are gone, then adds the new ones.
pub(crate) fn change_facts<S: Alter>(
    tx: &mut Transaction<'_, S>,
    release: u32,
    changes: &FactChanges,
) -> Result<(), KeepFault>
    requires { BeginsInside S.Store tx.old.conn }
    ensures { PerformsNeverBad S.Store tx.old.conn tx.new.conn result (λ db next _. ChangesFacts release db next changes.now) }
{
    drop_gone(tx, release, changes)?;
    add_each(tx, release, changes.put.as_slice())?;
    Ok(())
}
