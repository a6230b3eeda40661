//! The result of migrating a store of schema 1, and how the store of a stopped office opens.
ghost use Rattle.std.specs.Prelude.{◌≡◌};
ghost use Rattle.sqlite.specs.Effect.{Database};
ghost use Rattle.sqlite.specs.Tree.{Trees};
ghost use Rattle.office_mail.specs.Lists.{Lists};
ghost use Rattle.office_mail.specs.Setup.{IsSetup};
ghost use Rattle.office_store_keeper.specs.LastDelays.{GetsLast};
ghost use Rattle.office_store_tables.specs.Layout.{office_schema};
ghost use Rattle.office_store_tables.specs.Legible.{IsLegible};
ghost use Rattle.office_store.specs.Opening.{OpensAsLeft};
ghost use Rattle.office_store.specs.Migrating.{Migrates, IsLegibleBefore, content_before};
ghost use Rattle.office_store_tables.specs.TableContent.{content_in};

/// A migrated store has the same content, with the row of the last delays covered by its finished runs. If its tables
/// were what an office of schema 1 wrote, they are what an office writes.
pub fn migrated_content()
    ensures content { (setup : Lists) (old new : Trees) → Migrates setup old new → GetsLast setup (content_before setup old) (content_in setup new) }
    ensures legible { (setup : Lists) (old new : Trees) → IsSetup setup → IsLegibleBefore setup old → Migrates setup old new → IsLegible setup new }
{}

/// The store of a sound office opens as it was left. If a database has exactly the office's tables, written by an
/// office with this setup, `Tables::open` with this setup never answers `OtherSetup`, `UnknownSchema` or `BadRow`; and
/// if it opens it, nothing changes.
pub fn left_opens()
    ensures { (setup : Lists) (db : Database) → db.schema ≡ office_schema → IsLegible setup db.trees → OpensAsLeft setup db }
{}
