//! Laws of the rules that no call needs.

ghost use Rattle.testing_rules_model.specs.Provenance.{UpdateIsGiven, ArchsStayKnown};
ghost use Rattle.testing_rules_laws.specs.Laws.{UnstableSourceIsFirst, UnstableSourceIsFound, UnstableRowIsFirst, GreatestDropIsFirst};
ghost use Rattle.testing_rules_laws.specs.MoveLaws.{AllowedMeans, NoneIsLeft};
ghost use Rattle.testing_rules_model.specs.SameMessages.{FactsStandForSets};
ghost use Rattle.testing_rules_laws.specs.TakenLaws.{UploadPutsOne, BuildPutsItsOwn, DropTakesOne, DropPutsOne, BugPutsOne, GreatestDropsDecide};
ghost use Rattle.testing_rules_model.specs.Watched.{WatchedRowsStay};

/// The unstable source of a name is its first upload.
pub fn unstable_source_is_first()
    ensures { UnstableSourceIsFirst }
{}

/// The source with a name among unstable's sources is the unstable source of that name.
pub fn unstable_source_is_found()
    ensures { UnstableSourceIsFound }
{}

/// The unstable row of an architecture and a name is the first build above the drops.
pub fn unstable_row_is_first()
    ensures { UnstableRowIsFirst }
{}

/// One more upload puts or improves one source.
pub fn upload_puts_one()
    ensures { UploadPutsOne }
{}

/// One more message on a bug puts or improves one state.
pub fn bug_puts_one()
    ensures { BugPutsOne }
{}

/// A build puts or improves the rows of its own binaries.
pub fn build_puts_its_own()
    ensures { BuildPutsItsOwn }
{}

/// One more drop takes one row or none.
pub fn drop_takes_one()
    ensures { DropTakesOne }
{}

/// One more drop puts or improves one of the greatest drops.
pub fn drop_puts_one()
    ensures { DropPutsOne }
{}

/// The greatest drops decide which builds are above the drops.
pub fn greatest_drops_decide()
    ensures { GreatestDropsDecide }
{}

/// The greatest drop of an architecture and a name is the first one.
pub fn greatest_drop_is_first()
    ensures { GreatestDropIsFirst }
{}

/// Facts that stand for a set of messages stand for it in every order and with repetitions.
pub fn facts_stand_for_sets()
    ensures { FactsStandForSets }
{}

/// A run leaves every watched row installable, if it was so before.
pub fn watched_rows_stay()
    ensures { WatchedRowsStay }
{}

/// A change is allowed exactly if every watched row that comes in is installable, and each other watched row that was
/// installable stays so.
pub fn allowed_means()
    ensures { AllowedMeans }
{}

/// Single moves continue until none is allowed.
pub fn none_is_left()
    ensures { NoneIsLeft }
{}

/// Covered uploads and builds give everything that a run brings into testing.
pub fn update_is_given()
    ensures { UpdateIsGiven }
{}

/// A run brings in no row of an unlisted architecture.
pub fn archs_stay_known()
    ensures { ArchsStayKnown }
{}
