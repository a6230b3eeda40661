//! Whether a store holds what an office leaves.
#![tactic(auto, using(office_core_store::proofs::LastFacts::lasting))]

ghost use Rattle.std.specs.Prelude.{◌≡◌, ◌≢◌, ◌≤◌, None, Err, IfOk, length};
ghost use Rattle.std.specs.FinMap.{len};
ghost use Rattle.office_store_keeper.specs.MemoryState.{content_of};
ghost use Rattle.office_core_store.specs.ReadsStore.{ReadsStore};
ghost use Rattle.office_core_store.specs.StaysTrusted.{StaysTrusted};
ghost use Rattle.office_core_facts.specs.State.{IsOffice};
ghost use Rattle.office_core_check.specs.steps.Comparing.{IsAnew, IsMade, IsReadAs};
ghost use Rattle.office_core_check.specs.steps.Reading.{IsFront};
ghost use Rattle.office_core_check.specs.steps.Unread.{Asks, IsEnd, IsReadable, IsTold};
ghost use Rattle.office_core_check.specs.Whole.{CountedCheck, IsFound, is_read};
ghost use Rattle.office_core_check.specs.declared.Checked.TheVariants.{Whole};

use crate::comparison::{compare, in_memory};
use crate::memory::Bounded;
use crate::rebuilt::{make_anew, new_office};
use crate::unread::unread_part;
use crate::{Checked, Difference};
use office_core::Office;
use office_core_store::StoreFault;
use office_mail::Setup;
use office_store_keeper::{Cause, KeepFault, Keeper};
use sqlite::Error;
use std::alloc::Global;

/// The finding on a store of that many runs with no difference so far: whether its tables have what no office leaves,
/// or mail that the rebuilt office didn't take.
fn check_tables<K: Keeper>(keeper: &mut K, made: &Bounded, runs: u32) -> Result<Checked, StoreFault>
    ensures read { K.is_trusted keeper.new → len (content_of made.now.plain).kept ≤ len (K.content keeper.old).kept → IfOk result (IsReadAs (K.is_legible keeper.new × (len (K.content keeper.old).kept ≡ len (content_of made.now.plain).kept)) runs) }
    ensures end { IfOk result IsEnd }
    ensures looks { ReadsStore K.Keeper keeper.old keeper.new result }
{
    if keeper.is_whole(made.texts())? {
        Ok(Checked::Whole { runs })
    } else {
        Ok(Checked::Differs(Difference::Tables))
    }
}

/// The finding on a store of that many runs, compared with a rebuilt office that took its mail. If that office finished
/// fewer runs, memory ran out.
fn check_made<K: Keeper>(
    keeper: &mut K,
    made: &mut Bounded,
    runs: u32,
) -> Result<Checked, StoreFault>
    ensures found { K.is_trusted keeper.new → IsAnew made.old → IsMade made.old.plain.setup (K.content keeper.old).kept runs (content_of made.old.plain).kept None → runs ≡ length (K.content keeper.old).reports →
        IfOk result (IsFound made.old.plain.setup (K.content keeper.old) (K.is_legible keeper.new) (K.is_legible keeper.new)) }
    ensures end { IfOk result IsEnd }
    ensures looks { ReadsStore K.Keeper keeper.old keeper.new result }
{
    if in_memory(made.finished())? != runs {
        return Err(StoreFault::NoMemory);
    }
    let unlike = compare(keeper, made, runs)?;
    match unlike {
        Some(difference) => Ok(Checked::Differs(difference)),
        None => check_tables(keeper, made, runs),
    }
}

/// The finding on a store of that many runs, compared with what was rebuilt from its mail, or by why nothing was.
fn check_beside<K: Keeper>(
    keeper: &mut K,
    made: &mut Bounded,
    unmade: Option<Difference>,
    runs: u32,
) -> Result<Checked, StoreFault>
    ensures found { K.is_trusted keeper.new → IsAnew made.old → IsMade made.old.plain.setup (K.content keeper.old).kept runs (content_of made.old.plain).kept unmade → runs ≡ length (K.content keeper.old).reports →
        IfOk result (IsFound made.old.plain.setup (K.content keeper.old) (K.is_legible keeper.new) (K.is_legible keeper.new)) }
    ensures end { IfOk result IsEnd }
    ensures looks { ReadsStore K.Keeper keeper.old keeper.new result }
{
    match unmade {
        Some(difference) => Ok(Checked::Differs(difference)),
        None => check_made(keeper, made, runs),
    }
}

/// The finding on a store of that many runs, compared with an office rebuilt from its mail.
fn check_anew<K: Keeper>(
    keeper: &mut K,
    office: Office<Bounded>,
    runs: u32,
) -> Result<Checked, StoreFault>
    ensures found { K.is_trusted keeper.new → IsAnew office → IsFront (K.content keeper.old).kept 0 0 (content_of office.plain).kept → runs ≡ length (K.content keeper.old).reports →
        IfOk result (IsFound office.plain.setup (K.content keeper.old) (K.is_legible keeper.new) (K.is_legible keeper.new)) }
    ensures end { IfOk result IsEnd }
    ensures looks { ReadsStore K.Keeper keeper.old keeper.new result }
{
    let mut office = office;
    let unmade = make_anew(keeper, &mut office, runs);
    let mut made = office.into_keeper();
    check_beside(keeper, &mut made, unmade?, runs)
}

/// What is found of a store whose rows all read. A store that refuses has a row that doesn't, or its database failed.
fn check_read<K: Keeper>(
    alloc: Global,
    setup: &Setup,
    keeper: &mut K,
) -> Result<Checked, StoreFault>
    requires lists { K.setup keeper.old ≡ setup.now }
    ensures whole { K.is_trusted keeper.new → K.is_legible keeper.old → IsOffice setup.now (K.content keeper.old) → IfOk result (λ checked. checked ≡ Whole (length (K.content keeper.old).reports)) }
    ensures found { K.is_trusted keeper.new → IfOk result (IsFound setup.now (K.content keeper.old) (K.is_legible keeper.new) (K.is_legible keeper.new)) }
    ensures end { IfOk result IsEnd }
    ensures looks { ReadsStore K.Keeper keeper.old keeper.new result }
{
    let runs = keeper.finished()?;
    let office = new_office(alloc, setup, runs)?;
    check_anew(keeper, office, runs)
}

/// The part of a store of which a row doesn't read, where it refused; or that its database failed.
fn tell_refusal<K: Keeper>(keeper: &mut K, senders: u32) -> Result<Checked, KeepFault>
    ensures told { IsTold StoreFault.Store result }
    ensures none { K.is_trusted keeper.new → IsReadable K.Keeper keeper.old → IfOk result (λ _. ⊥) }
    ensures asks { Asks K.Keeper keeper.old keeper.new }
{
    match unread_part(keeper, senders) {
        Some(part) => Ok(Checked::Unread { part }),
        None => Err(KeepFault::Store(Cause::Sqlite(Error::InvalidQuery))),
    }
}

/// What a fault of a check is told as.
fn tell_fault<K: Keeper>(
    keeper: &mut K,
    fault: StoreFault,
    senders: u32,
) -> Result<Checked, KeepFault>
    ensures told { IsTold fault result }
    ensures none { K.is_trusted keeper.new → IsReadable K.Keeper keeper.old → IfOk result (λ _. ⊥) }
    ensures still { fault ≡ StoreFault.NoMemory → keeper.new ≡ keeper.old }
    ensures asks { Asks K.Keeper keeper.old keeper.new }
{
    match fault {
        StoreFault::NoMemory => Err(KeepFault::NoMemory),
        StoreFault::Store => tell_refusal(keeper, senders),
    }
}

/// Makes all finished runs of a store anew, in memory, from the mail that it keeps, and finds where it differs first
/// from what an office leaves that took this mail: a text that isn't a message of its sender and number, a run that
/// isn't ready, the reports of each run, testing, or the rows of facts; and then whether the store keeps any row more.
/// If a row doesn't read, it finds the part that has it. The store stays as it is, but for what it has in memory to
/// speed the next run.
///
/// It fails only if memory runs out or the database fails.
pub fn check<K: Keeper>(alloc: Global, setup: &Setup, keeper: &mut K) -> Result<Checked, KeepFault>
    requires lists { K.setup keeper.old ≡ setup.now }
    // What an office leaves is found whole.
    ensures whole { K.is_trusted keeper.new → K.is_legible keeper.old → IsOffice setup.now (K.content keeper.old) → IfOk result (λ checked. checked ≡ Whole (length (K.content keeper.old).reports)) }
    // Whole is only what an office leaves. A difference is one where all mail is of senders of the setup.
    ensures found { K.is_trusted keeper.new → IfOk result (IsFound setup.now (K.content keeper.old) (K.is_legible keeper.old) (K.is_legible keeper.new)) }
    // No row that is kept makes it fail.
    ensures unread { result ≢ Err (KeepFault.Store Cause.BadRow) }
    ensures same { K.is_trusted keeper.new → K.content keeper.new ≡ K.content keeper.old }
    ensures setup { K.setup keeper.new ≡ K.setup keeper.old }
    ensures before { K.is_trusted keeper.new → K.is_trusted keeper.old }
    ensures legible { K.is_trusted keeper.new → K.is_legible keeper.old → K.is_legible keeper.new }
    ensures lasts { StaysTrusted K.Keeper keeper.old keeper.new (is_read result) }
    ensures counted { CountedCheck (K.refusals keeper.old) (K.refusals keeper.new) result }
{
    match check_read(alloc, setup, keeper) {
        Ok(checked) => Ok(checked),
        Err(fault) => tell_fault(keeper, fault, setup.senders().len() as u32),
    }
}
