//! The keeper over an office's tables in a new or existing database.
ghost use Rattle.std.specs.Prelude.{◌≡◌, None, IfOk, IfErr, OnOk};
ghost use Rattle.sqlite.specs.Held.{state};
ghost use Rattle.sqlite.specs.State.{HasCleanDisk};
ghost use Rattle.office_store_tables.specs.Layout.{HasEachBefore};
ghost use Rattle.office_store_tables.specs.Tables.{IsTrusted, Endures};
ghost use Rattle.office_store_tables.specs.Unchanged.{IsAsItWas};
ghost use Rattle.office_store.specs.Opening.{IsOpened, IsKeptForOther, IsUnknown, IsUnreadable, IsAlone, IsTakeable};
ghost use Rattle.office_store_keeper.specs.declared.faults.Cause.TheVariants.{BadRow};

use crate::on_sqlite::Tables;
use crate::openings::{OpenFault, prepare};
use office_mail::Setup;
use sqlite::{Alter, Connection};
use std::alloc::Global;

impl<S: Alter> Tables<S> {
    /// Opens the office's tables in a database. If it has none of them, it gets them, with this setup, no mail and no
    /// run. If it was made for this setup, it opens as it was left. A database of schema 1 made for this setup is
    /// migrated, all or nothing: it gets the seventh table, with the last delays covered by its finished runs, and
    /// schema number 2. Tables, views and indexes with other names don't count, and stay. `OtherSetup` means that the
    /// database was made for other architectures or senders, by names, roles or order. `UnknownSchema` means that it
    /// has some of the office's seven tables, or a view or an index with such a name, but wasn't made for any setup: it
    /// has neither all seven, column by column, nor all but `fact_delays`; or the office's table doesn't have exactly
    /// one row, with id 1, schema number 2 for seven tables or 1 for six, and a setup as its text. `Store` with
    /// `BadRow` means that a store of schema 1 has no order for a finished run, or that an order, or a text of the
    /// release team up to the orders' cover, isn't a message with its sender and number. A connection in a transaction
    /// is refused with `Store`. A refusal returns the connection and leaves the database unchanged.
    ///
    /// If there are other tables, views or indexes too, nothing is promised about the content, only that each call
    /// returns: such a connection gets a limit of 2^64-1 on the steps of a statement, and a limited one isn't trusted.
    pub fn open(
        alloc: Global,
        conn: Connection<S>,
        setup: &Setup,
    ) -> Result<Tables<S>, (OpenFault, Connection<S>)>
        ensures opened { IfOk result (λ tables. IsTrusted (state S.Store tables.conn) → IsOpened setup.now (state S.Store conn).now (state S.Store tables.conn).now) }
        ensures before { IfOk result (λ tables. IsTrusted (state S.Store tables.conn) → IsTrusted (state S.Store conn)) }
        ensures stays { IfOk result (λ tables. HasCleanDisk (state S.Store tables.conn) → IsTrusted (state S.Store conn) → IsAlone (state S.Store conn).now → IsTrusted (state S.Store tables.conn)) }
        ensures lasts { IfOk result (λ tables. Endures (state S.Store conn) (state S.Store tables.conn)) }
        ensures shut { IfErr result (λ refused. Endures (state S.Store conn) (state S.Store refused.1)) }
        ensures takes { OnOk result (IsTakeable (state S.Store conn).now.schema) }
        ensures setup { IfOk result (λ tables. tables.setup ≡ setup.now) }
        ensures count { IfOk result (λ tables. tables.refusals ≡ 0) }
        ensures memory { IfOk result (λ tables. tables.in_memory ≡ None) }
        ensures err { IfErr result (λ refused. IsTrusted (state S.Store refused.1) → IsAsItWas (state S.Store conn) (state S.Store refused.1)) }
        ensures other { IfErr result (λ refused. IsTrusted (state S.Store refused.1) → refused.0 ≡ OpenFault.OtherSetup → IsKeptForOther setup.now (state S.Store conn).now) }
        ensures unknown { IfErr result (λ refused. IsTrusted (state S.Store refused.1) → refused.0 ≡ OpenFault.UnknownSchema → IsUnknown (state S.Store conn).now) }
        ensures six { IfErr result (λ refused. refused.0 ≡ OpenFault.Store BadRow → HasEachBefore (state S.Store conn).now.schema) }
        ensures bad { IfErr result (λ refused. IsTrusted (state S.Store refused.1) → refused.0 ≡ OpenFault.Store BadRow → IsUnreadable setup.now (state S.Store conn).now) }
    {
        let Ok(copy) = setup.copy(alloc) else {
            return Err((OpenFault::NoMemory, conn));
        };
        let mut conn = conn;
        match prepare(alloc, &mut conn, setup) {
            Ok(()) => Ok(Tables::over(alloc, conn, copy)),
            Err(fault) => Err((fault, conn)),
        }
    }
}
