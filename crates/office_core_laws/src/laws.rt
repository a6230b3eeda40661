//! Laws of runs. Each is a call that does nothing; its contract is the law.

ghost use Rattle.std.specs.Prelude.{◌≡◌, ◌⊎◌, ◌+◌, ◌++◌, ◌<◌, ℕ, List, [], Contains};
ghost use Rattle.jiff_core.specs.declared.civil.date.Date.{Date};
ghost use Rattle.archive_plan.specs.declared.items.Item.{Item};
ghost use Rattle.archive_plan.specs.declared.sync.Due.{Due};
ghost use Rattle.archive_plan.specs.Items.{lacking};
ghost use Rattle.archive_plan.specs.Sync.{IsSync, IsUnstable};
ghost use Rattle.testing_rules_items.specs.Archs.{IsArchs};
ghost use Rattle.testing_rules_model.specs.declared.suite.RowIn.{RowIn};
ghost use Rattle.testing_rules_model.specs.Covered.{Covered};
ghost use Rattle.testing_rules_model.specs.Excuses.{testing_version};
ghost use Rattle.testing_rules_model.specs.SameMessages.{HasOneOfEach, SameElements};
ghost use Rattle.testing_rules_model.specs.Unstable.{unstable_rows};
ghost use Rattle.office_mail.specs.Kept.{Kept};
ghost use Rattle.office_mail.specs.Lists.{Lists};
ghost use Rattle.office_mail.specs.Runs.{runs};
ghost use Rattle.office_mail.specs.Setup.{IsSetup};
ghost use Rattle.office_store_keeper.specs.Provenance.{AreOwnTexts};
ghost use Rattle.office_core_orders.specs.Ready.{HasPlaces};
ghost use Rattle.office_core_facts.specs.Outcome.{covered_items, testing_after};
ghost use Rattle.office_core_facts.specs.Seen.{IsSeen, items_within, release};
ghost use Rattle.office_core_outcome.specs.Proposal.{IsShownStuck};
ghost use Rattle.office_core_why.specs.UnstableText.{unstable_text};
ghost use Rattle.office_core.specs.Unbroken.{AreUnbroken};
ghost use Rattle.office_core_laws.specs.Checked.{HasPackages, IsChecked, IsFromIndex, IsOrdered, Marks};
ghost use Rattle.office_core_laws.specs.FromUnstable.{AreAmong, IsFromUnstable, package_item, suite_items, told_items};
ghost use Rattle.office_core_laws.specs.Mailed.{IsToldBy, SaysDue, built_items, dropped_items};
ghost use Rattle.office_core_laws.specs.OrderTaken.{IsFrom1970, IsTaken};
ghost use Rattle.office_core_laws.specs.Printed.{items_text};
ghost use Rattle.office_core_laws.specs.StuckStays.{AreEasy, testing_standing, testing_with};

/// A run moves only what is there. What it brings into testing, sources and their packages, is in unstable as the run's
/// covered mail gives it, at that version.
pub fn moves_only_what_is_there()
    ensures unstable { (setup : Lists) (kept : Kept) (k : ℕ) → IsFromUnstable setup.archs (covered_items setup kept (k + 1)) (testing_after setup kept k) (testing_after setup kept (k + 1)) }
    // So it is in each index that has all that this mail says of unstable.
    ensures index { (setup : Lists) (kept : Kept) (k : ℕ) (index : List Item) → AreAmong (told_items setup.archs (covered_items setup kept (k + 1))) index
        → (x : Item) → Contains (suite_items (testing_after setup kept (k + 1))) x → Contains (suite_items (testing_after setup kept k)) x ⊎ Contains index x }
    // And a plan that brings a suite with the testing of before to the new one lacks nothing, if it copies from such an
    // index.
    ensures plan { (setup : Lists) (kept : Kept) (k : ℕ) (index testing suite : List Item) → AreAmong (told_items setup.archs (covered_items setup kept (k + 1))) index
        → AreAmong testing (suite_items (testing_after setup kept (k + 1))) → AreAmong (suite_items (testing_after setup kept k)) suite → lacking (lacking testing suite) index ≡ [] }
{}

/// What moves behind the check of office-feed is in the index. `office-sync` is told each package of unstable as the
/// run's covered mail gives it, once and above all that was dropped of it, at the version of the archive for which it
/// stands, by any reading of marks; and nothing is due to be dropped. Then the index has what each package stands for
/// that the run brings into testing, at that version, or a higher version of it that is still due to be told. No mail
/// drops a source, so of a source this says that such a package was built from its version.
pub fn checked_index_has_what_moves()
    ensures run { (setup : Lists) (kept : Kept) (k : ℕ) (marks : Marks) (told index dropped : List Item) (gone : ℕ) (due : Due) → IsSetup setup
        → HasPackages marks told (unstable_rows setup.archs (covered_items setup kept (k + 1))) → IsChecked told index dropped gone due
        → IsFromIndex marks index due (testing_after setup kept k) (testing_after setup kept (k + 1)) }
    // The check comes before the order. What it compares is what the office then prints as its unstable, over all mail
    // without a gap, and the run of the next order sees just that, if this order covers it.
    ensures next { (setup : Lists) (kept late : Kept) (k : ℕ) (seen : Covered) (marks : Marks) (told index dropped : List Item) (gone : ℕ) (due : Due) → IsSetup setup → IsSeen setup kept seen → IsOrdered setup kept late k
        → HasPackages marks told (unstable_rows setup.archs seen) → IsChecked told index dropped gone due → IsFromIndex marks index due (testing_after setup late k) (testing_after setup late (k + 1)) }
{}

/// Mail of what is due brings unstable to the index, before the office is asked again.
pub fn due_mail_brings_unstable_to_index()
    // A row of unstable is what `office-sync` calls unstable, by all that was told and dropped.
    ensures unstable { (archs : List (List ℕ)) (s : Covered) (r : RowIn) → Contains (unstable_rows archs s) r → IsUnstable (built_items s) (dropped_items s) (package_item r) }
    // Behind mail that says just what is due, each package of unstable is in the index, at its version.
    ensures index { (archs : List (List ℕ)) (s sent after : Covered) (told index dropped : List Item) (gone : ℕ) (due : Due) → IsArchs archs → HasOneOfEach after → SameElements after (s ++ sent)
        → IsToldBy archs s told dropped → IsSync told index dropped gone due → SaysDue sent due → (r : RowIn) → Contains (unstable_rows archs after) r → Contains index (package_item r) }
    // So a run that covers just that mail brings in only packages of the index.
    ensures moves { (setup : Lists) (kept : Kept) (k : ℕ) (s sent : Covered) (told index dropped : List Item) (gone : ℕ) (due : Due) → IsSetup setup → SameElements (covered_items setup kept (k + 1)) (s ++ sent)
        → IsToldBy setup.archs s told dropped → IsSync told index dropped gone due → SaysDue sent due
        → (r : RowIn) → Contains (testing_after setup kept (k + 1)).rows r → Contains (testing_after setup kept k).rows r ⊎ Contains index (package_item r) }
{}

/// The lines of unstable that an office prints have each package of it as an item of an archive, byte for byte.
pub fn printed_unstable_has_items()
    ensures { (archs : List (List ℕ)) (finished : ℕ) (s : Covered) → IsArchs archs → unstable_text archs finished s ≡ items_text archs finished s }
{}

/// The order that an office tells is taken: its text is read as that order, under the next number, and its run is ready
/// if all earlier ones are.
pub fn order_is_taken()
    ensures { (setup : Lists) (kept : Kept) (unbroken : ℕ → ℕ) (day : Date) → IsSetup setup → HasPlaces setup kept → AreUnbroken kept unbroken → IsFrom1970 day → unbroken (runs setup) < 999_999_999
        → IsTaken setup kept unbroken day }
{}

/// Stuck means stuck. If a text shows of a source that no group frees it, as each block of a proposal does, the source
/// keeps its version in that run, whatever `easy` hints are mailed on top.
pub fn stuck_stays()
    ensures { (setup : Lists) (kept : Kept) (k : ℕ) (date : Date) (covers : ℕ → ℕ) (source text : List ℕ) → IsSetup setup → AreOwnTexts setup kept
        → IsShownStuck setup.archs date (items_within setup kept covers) (testing_after setup kept k) source text → (hints : List (List ℕ)) → AreEasy setup (covers (release setup)) hints
        → testing_version (testing_with setup kept k date covers hints) source ≡ testing_version (testing_standing setup kept k date covers) source }
{}
