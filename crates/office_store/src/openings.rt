//! Opening an office's tables in a new or existing database.
ghost use Rattle.std.specs.Prelude.{◌≡◌, ◌≢◌, ◌⊎◌, false, Some, None, Err, IfOk, IfErr, OnOk, OnErr};
ghost use Rattle.std.specs.Option.{option_copied};
ghost use Rattle.sqlite.specs.Order.{column};
ghost use Rattle.sqlite.specs.Held.{state};
ghost use Rattle.sqlite.specs.State.{HasCleanDisk};
ghost use Rattle.office_mail.specs.Lists.{Lists};
ghost use Rattle.office_store_tables.specs.Tables.{IsTrusted, IsOurs, number_in, text_in, Endures};
ghost use Rattle.office_store_tables.specs.steps.Tables.{Lasts};
ghost use Rattle.office_store_tables.specs.Reads.{LeavesStore, BeginsOurs, Finds, HoldsOfTables};
ghost use Rattle.office_store.specs.Opening.{open_fault, text_by, text_of_one, kept_text, lists_by, IsKeptFor, IsOpened, IsKeptForOther, IsUnknown, IsUnreadable, IsAlone, IsTakeable};
ghost use Rattle.office_store.specs.steps.Opening.{shown_office};
ghost use Rattle.office_store_tables.specs.Creating.{IsBlank};
ghost use Rattle.office_store_tables.specs.Layout.{no_schema, has_none, HasEachBefore};
ghost use Rattle.office_store_tables.specs.Fresh.{IsEmptyFor};
ghost use Rattle.office_store_tables.specs.SetupText.{setup_text as text_of};
ghost use Rattle.office_store_tables.specs.Unchanged.{IsAsItWas};
ghost use Rattle.office_store.specs.declared.openings.OpenFault.TheVariants as fault;
ghost use Rattle.office_store_keeper.specs.declared.faults.Cause.TheVariants.{BadRow};

use crate::among::{has_each, has_each_before, has_own_indexes};
use crate::migration::migrate;
use office_mail::{Setup, SetupFault};
use office_store_keeper::{Cause, KeepFault};
use office_store_tables::layout::{has_none, has_tables, has_tables_before, is_fresh};
use office_store_tables::runs::office_rows;
use office_store_tables::schema;
use office_store_tables::setup_text::{same_setup, setup_text};
use sqlite::types::ValueRef;
use sqlite::{Alter, Connection, Error, Row};
use std::alloc::{AllocError, Global};

/// Why an office's tables couldn't be opened.
#[derive(Clone, Copy, Debug, PartialEq, Eq)]
pub enum OpenFault {
    NoMemory,
    /// A refusal by the database.
    Store(Cause),
    /// The database was made for a setup with other architectures or senders, by names, roles or order.
    OtherSetup,
    /// The database has some of the office's tables, but wasn't made for an office that this program reads.
    UnknownSchema,
}

impl From<KeepFault> for OpenFault {
    ghost from_gives = { λ fault e. e ≡ open_fault fault };

    fn from(fault: KeepFault) -> OpenFault {
        match fault {
            KeepFault::NoMemory => OpenFault::NoMemory,
            KeepFault::Store(cause) => OpenFault::Store(cause),
        }
    }
}

impl From<AllocError> for OpenFault {
    ghost from_gives = { λ _ e. e ≡ fault.NoMemory };

    fn from(_e: AllocError) -> OpenFault {
        OpenFault::NoMemory
    }
}

impl From<Error> for OpenFault {
    ghost from_gives = { λ _ e. (e ≢ fault.OtherSetup) × (e ≢ fault.UnknownSchema) × (e ≢ fault.Store BadRow) };

    fn from(error: Error) -> OpenFault {
        OpenFault::from(KeepFault::from(error))
    }
}

/// The number from 0 in a column, or none.
pub(crate) fn number_at(row: &Row, at: usize) -> Option<u64>
    ensures { result ≡ number_in (column row.now at) }
{
    match row.get_ref(at) {
        Ok(ValueRef::Int(n)) => u64::try_from(n).ok(),
        _ => None,
    }
}

/// The text in a column, or none.
fn text_at<'a>(row: &'a Row, at: usize) -> Option<&'a [u8]>
    ensures { option_copied result ≡ text_in (column row.now at) }
{
    match row.get_ref(at) {
        Ok(ValueRef::Text(text)) => Some(text),
        _ => None,
    }
}

/// The setup's text in a row of the office, or none if the row doesn't have this schema number.
fn row_text<'a>(row: &'a Row, expected: u64) -> Option<&'a [u8]>
    ensures { option_copied result ≡ text_by expected (shown_office row.now) }
{
    let id = number_at(row, 0)?;
    let schema = number_at(row, 1)?;
    let setup = text_at(row, 2)?;
    let finished = number_at(row, 3)?;
    if id == 1 && schema == expected && finished <= 4_294_967_295 {
        Some(setup)
    } else {
        None
    }
}

/// The setup's text in the only row, or none.
fn only_text<'a>(rows: &'a [Row], expected: u64) -> Option<&'a [u8]>
    ensures { option_copied result ≡ text_of_one expected shown_office rows.now }
{
    match rows {
        [row] => row_text(row, expected),
        _ => None,
    }
}

/// The setup in a text, or none.
fn setup_of(alloc: Global, text: &[u8]) -> Result<Option<Setup>, OpenFault>
    ensures value { IfOk result (λ setup. setup ≡ lists_by (Some text.now)) }
    ensures err { IfErr result (λ e. e ≡ OpenFault.NoMemory) }
{
    match Setup::parse(alloc, text) {
        Ok(setup) => Ok(Some(setup)),
        Err(SetupFault::NoMemory) => Err(OpenFault::NoMemory),
        Err(_) => Ok(None),
    }
}

/// The setup in the only row of the office, or none.
fn kept_setup(alloc: Global, rows: &[Row], expected: u64) -> Result<Option<Setup>, OpenFault>
    ensures value { IfOk result (λ setup. setup ≡ lists_by (text_of_one expected shown_office rows.now)) }
    ensures err { IfErr result (λ e. e ≡ OpenFault.NoMemory) }
{
    match only_text(rows, expected) {
        Some(text) => setup_of(alloc, text),
        None => Ok(None),
    }
}

/// Whether the rows of the office are those of one with this setup and this schema number.
pub(crate) fn judge(
    alloc: Global,
    rows: &[Row],
    expected: u64,
    setup: &Setup,
) -> Result<(), OpenFault>
    ensures ok { OnOk result (lists_by (text_of_one expected shown_office rows.now) ≡ Some setup.now) }
    ensures other { result ≡ Err OpenFault.OtherSetup → (kept : Lists) × (lists_by (text_of_one expected shown_office rows.now) ≡ Some kept) × (kept ≢ setup.now) }
    ensures unknown { result ≡ Err OpenFault.UnknownSchema → lists_by (text_of_one expected shown_office rows.now) ≡ None }
    ensures bad { result ≢ Err (OpenFault.Store BadRow) }
{
    match kept_setup(alloc, rows, expected)? {
        None => Err(OpenFault::UnknownSchema),
        Some(kept) => same_or_other(alloc, &kept, setup),
    }
}

/// Whether a kept setup is this one.
fn same_or_other(alloc: Global, kept: &Setup, setup: &Setup) -> Result<(), OpenFault>
    ensures ok { OnOk result (kept.now ≡ setup.now) }
    ensures other { result ≡ Err OpenFault.OtherSetup → kept.now ≢ setup.now }
    ensures known { result ≢ Err OpenFault.UnknownSchema }
    ensures bad { result ≢ Err (OpenFault.Store BadRow) }
{
    if same_setup(alloc, kept, setup)? {
        Ok(())
    } else {
        Err(OpenFault::OtherSetup)
    }
}

/// Opens the office's tables if they are kept for this setup.
fn go_on<S: Alter>(alloc: Global, conn: &mut Connection<S>, setup: &Setup) -> Result<(), OpenFault>
    requires ours { BeginsOurs S.Store conn.old }
    ensures reads { LeavesStore S.Store conn.old conn.new result }
    ensures kept { Finds S.Store conn.new result (λ db _. lists_by (kept_text (db 0)) ≡ Some setup.now) }
    ensures other { HoldsOfTables S.Store conn.new (λ db. result ≡ Err OpenFault.OtherSetup → (kept : Lists) × (lists_by (kept_text (db 0)) ≡ Some kept) × (kept ≢ setup.now)) }
    ensures unknown { HoldsOfTables S.Store conn.new (λ db. result ≡ Err OpenFault.UnknownSchema → lists_by (kept_text (db 0)) ≡ None) }
    ensures bad { result ≢ Err (OpenFault.Store BadRow) }
{
    let rows = office_rows(conn)?;
    judge(alloc, rows.as_slice(), 2, setup)
}

/// Makes the office's tables in a database that has none of them.
fn begin<S: Alter>(alloc: Global, conn: &mut Connection<S>, setup: &Setup) -> Result<(), OpenFault>
    requires fresh { IsTrusted (state S.Store conn.old) → (state S.Store conn.old).now.schema ≡ no_schema }
    ensures before { IsTrusted (state S.Store conn.new) → IsTrusted (state S.Store conn.old) }
    ensures lasts { Lasts (state S.Store conn.old) (state S.Store conn.new) }
    ensures open { HasCleanDisk (state S.Store conn.new) → IsTrusted (state S.Store conn.old) → OnOk result (IsTrusted (state S.Store conn.new)) }
    ensures ours { IsTrusted (state S.Store conn.new) → OnOk result (IsOurs (state S.Store conn.new)) }
    ensures blank { HoldsOfTables S.Store conn.new (λ db. OnOk result (IsBlank db (record { schema = 2; setup = text_of setup.now; finished = 0 }))) }
    ensures kept { IsTrusted (state S.Store conn.new) → OnOk result (IsKeptFor setup.now (state S.Store conn.new).now) }
    ensures fresh { HoldsOfTables S.Store conn.new (λ db. OnOk result (IsEmptyFor setup.now db)) }
    ensures err { IsTrusted (state S.Store conn.new) → OnErr result (IsAsItWas (state S.Store conn.old) (state S.Store conn.new)) }
    ensures own { (result ≢ Err OpenFault.OtherSetup) × (result ≢ Err OpenFault.UnknownSchema) }
    ensures bad { result ≢ Err (OpenFault.Store BadRow) }
{
    let text = setup_text(alloc, setup)?;
    schema::create(conn, text.as_str())?;
    Ok(())
}

/// Makes the office's tables in addition to others, or finds or migrates them there.
///
/// The effect of a statement on the seven tables is proved only if there are no others. So nothing may be promised here
/// about the content. Each such promise requires a trusted connection, and one with a limit on the steps of a statement
/// isn't trusted: that is why a limit is set. It is 2^64-1 steps, which no statement reaches, so that each statement
/// works as it does without a limit.
fn prepare_among<S: Alter>(
    alloc: Global,
    conn: &mut Connection<S>,
    setup: &Setup,
) -> Result<(), OpenFault>
    ensures endures { Endures (state S.Store conn.old) (state S.Store conn.new) }
    ensures before { IsTrusted (state S.Store conn.new) → conn.new ≡ conn.old }
    ensures apart { IsTrusted (state S.Store conn.new) → result ≡ Err OpenFault.UnknownSchema ⊎ (result ≡ Err OpenFault.NoMemory) }
    ensures takes { OnOk result (IsTakeable (state S.Store conn.old).now.schema) }
    ensures leaves { result ≡ Err OpenFault.UnknownSchema → has_none (state S.Store conn.old).now.schema ≡ false }
    ensures bad { result ≡ Err (OpenFault.Store BadRow) → HasEachBefore (state S.Store conn.old).now.schema }
{
    if has_none(conn.schema()) {
        conn.set_step_limit(Some(u64::MAX));
        return begin(alloc, conn, setup);
    }
    if !has_own_indexes(conn.schema()) {
        return Err(OpenFault::UnknownSchema);
    }
    if has_each_before(alloc, conn.schema())? {
        conn.set_step_limit(Some(u64::MAX));
        return migrate(alloc, conn, setup);
    }
    if !has_each(alloc, conn.schema())? {
        return Err(OpenFault::UnknownSchema);
    }
    conn.set_step_limit(Some(u64::MAX));
    go_on(alloc, conn, setup)
}

/// Makes, finds or migrates the office's tables.
#[tactic(auto, using(crate::proofs::TakenLemmas::takeable, crate::proofs::TakenLemmas::takeable_before))]
pub fn prepare<S: Alter>(
    alloc: Global,
    conn: &mut Connection<S>,
    setup: &Setup,
) -> Result<(), OpenFault>
    ensures before { IsTrusted (state S.Store conn.new) → IsTrusted (state S.Store conn.old) }
    ensures endures { Endures (state S.Store conn.old) (state S.Store conn.new) }
    ensures open { HasCleanDisk (state S.Store conn.new) → IsTrusted (state S.Store conn.old) → IsAlone (state S.Store conn.old).now → OnOk result (IsTrusted (state S.Store conn.new)) }
    ensures takes { OnOk result (IsTakeable (state S.Store conn.old).now.schema) }
    ensures ours { IsTrusted (state S.Store conn.new) → OnOk result (IsOurs (state S.Store conn.new)) }
    ensures opened { IsTrusted (state S.Store conn.new) → OnOk result (IsOpened setup.now (state S.Store conn.old).now (state S.Store conn.new).now) }
    ensures err { IsTrusted (state S.Store conn.new) → OnErr result (IsAsItWas (state S.Store conn.old) (state S.Store conn.new)) }
    ensures other { IsTrusted (state S.Store conn.new) → result ≡ Err OpenFault.OtherSetup → IsKeptForOther setup.now (state S.Store conn.old).now }
    ensures unknown { IsTrusted (state S.Store conn.new) → result ≡ Err OpenFault.UnknownSchema → IsUnknown (state S.Store conn.old).now }
    ensures six { result ≡ Err (OpenFault.Store BadRow) → HasEachBefore (state S.Store conn.old).now.schema }
    ensures bad { IsTrusted (state S.Store conn.new) → result ≡ Err (OpenFault.Store BadRow) → IsUnreadable setup.now (state S.Store conn.old).now }
{
    if !conn.is_autocommit() {
        return Err(OpenFault::Store(Cause::Sqlite(Error::InvalidQuery)));
    }
    if is_fresh(conn.schema()) {
        return begin(alloc, conn, setup);
    }
    if has_tables(alloc, conn.schema())? {
        return go_on(alloc, conn, setup);
    }
    if has_tables_before(alloc, conn.schema())? {
        return migrate(alloc, conn, setup);
    }
    prepare_among(alloc, conn, setup)
}
