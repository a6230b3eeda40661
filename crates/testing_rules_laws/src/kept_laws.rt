//! Laws of facts kept as rows. Each is a call that does nothing; its contract is the law.

ghost use Rattle.testing_rules_laws.specs.steps.Fallen.{NamesAreFallen};
ghost use Rattle.testing_rules_laws.specs.steps.GivenUpdate.{FactsGiveUpdate};
ghost use Rattle.testing_rules_laws.specs.steps.Logged.{ChangesMake, EntryShifts, TakesLog, TrimsLog};
ghost use Rattle.testing_rules_laws.specs.steps.Restored.{AllCame, RowsDetermine};
ghost use Rattle.testing_rules_laws.specs.steps.Retaken.{TrimKeeps, RetakenStand};
ghost use Rattle.testing_rules_laws.specs.steps.SameRows.{RowsTell, StandsAreSaid};
ghost use Rattle.testing_rules_laws.specs.steps.Told.{AllRestoredTell, LoggedTell, MoreTell, RestoredTell, RowsOnce, SaidRowsTell, StandTell, ToldRowsAreFactRows, TrimmedTell};

/// One more message changes the rows of the facts exactly by its shift.
pub fn entry_shifts()
    ensures { EntryShifts }
{}

/// The rows of facts, restored in any order, give the same facts.
pub fn rows_determine()
    ensures { RowsDetermine }
{}

/// If facts have as many rows as were restored, these are their rows: each came, and none gave way.
pub fn all_came()
    ensures { AllCame }
{}

/// If facts stand for a set, its messages say them, and their lists are in order.
pub fn stands_are_said()
    ensures { StandsAreSaid }
{}

/// If facts stand for a set, other facts with their rows, said by the set's messages, stand for it too.
pub fn rows_tell()
    ensures { RowsTell }
{}

/// Facts that stand for a set with a testing are kept facts with it once trimmed.
pub fn trim_keeps()
    ensures { TrimKeeps }
{}

/// Facts that took the uploads of the fallen sources again stand for the set with the new testing.
pub fn retaken_stand()
    ensures { RetakenStand }
{}

/// Taking a message logs how it changes the rows.
pub fn takes_log()
    ensures { TakesLog }
{}

/// Trimming logs how it changes the rows.
pub fn trims_log()
    ensures { TrimsLog }
{}

/// The new rows are the old ones, minus those gone, plus those put.
pub fn changes_make()
    ensures { ChangesMake }
{}

/// Except for the sources with these names, what counts with the new testing counted with the old one.
pub fn names_are_fallen()
    ensures { NamesAreFallen }
{}

/// Messages that say the facts give everything that a run over these facts brings into testing.
pub fn facts_give_update()
    ensures { FactsGiveUpdate }
{}

/// Messages that say facts also say them with one more row, if they include its message.
pub fn restored_tell()
    ensures { RestoredTell }
{}

/// Messages that say facts also say them with more rows, if they include the rows' messages.
pub fn all_restored_tell()
    ensures { AllRestoredTell }
{}

/// Messages that say facts also say them with other rows that came and left.
pub fn logged_tell()
    ensures { LoggedTell }
{}

/// Messages that say facts also say them trimmed.
pub fn trimmed_tell()
    ensures { TrimmedTell }
{}

/// More messages say the same facts.
pub fn more_tell()
    ensures { MoreTell }
{}

/// Messages say the facts that stand for them.
pub fn stand_tell()
    ensures { StandTell }
{}

/// If facts stand for messages, other facts with the same rows that these messages say stand for them too.
pub fn said_rows_tell()
    ensures { SaidRowsTell }
{}

/// No row occurs twice in facts that messages say.
pub fn rows_once()
    ensures { RowsOnce }
{}

/// The rows of facts that messages say are rows that facts can have.
pub fn told_rows_are_fact_rows()
    ensures { ToldRowsAreFactRows }
{}
