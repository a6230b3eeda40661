//! How far a sender's mail continues without a gap.
#![tactic(auto, using(office_core_store::proofs::LastFacts::lasting))]

ghost use Rattle.std.specs.Prelude.{◌≡◌, ◌≤◌, IfOk};
ghost use Rattle.office_core_store.specs.ReadsStore.{ReadsStore};
ghost use Rattle.office_core_orders.specs.Ready.{HasNumbers};
ghost use Rattle.office_core_facts.specs.steps.Counting.{EndsBelow};
ghost use Rattle.office_core_facts.specs.Seen.{IsUnbroken};

use office_core_orders::orders::count_up;
use office_core_store::StoreFault;
use office_mail::MAX_NUMBER;
use office_store_keeper::Keeper;

/// A number, or the least that is due.
fn at_least(number: u32, least: u32) -> u32
    ensures least { least ≤ result }
    ensures same { least ≤ number → result ≡ number }
{
    if number < least { least } else { number }
}

/// The number up to which a sender's mail continues without a gap. It does so up to the known number, and the result
/// isn't below that.
pub(crate) fn count_on<K: Keeper>(
    keeper: &mut K,
    sender: u32,
    known: u32,
) -> Result<u32, StoreFault>
    ensures unbroken { K.is_trusted keeper.new → HasNumbers (K.content keeper.old).kept sender known → EndsBelow (K.content keeper.old).kept sender → IfOk result (IsUnbroken (K.content keeper.old).kept sender) }
    ensures ahead { IfOk result (λ last. known ≤ last) }
    ensures looks { ReadsStore K.Keeper keeper.old keeper.new result }
{
    let count = count_up(keeper, sender, known, MAX_NUMBER)?;
    Ok(at_least(count, known))
}
