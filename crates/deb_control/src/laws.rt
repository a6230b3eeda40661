//! What is true whatever is read.

ghost use Rattle.deb_control.specs.FirstFault.{RefusesBadNames, RefusesBadVersions};
ghost use Rattle.deb_control.specs.Spelling.{ReadsSpelledClauses, ReadsSpelledProvisions, ReadsSpelledSources};
ghost use Rattle.deb_control.specs.WellFormed.{ReadsWellFormed};

/// Each paragraph from a reader has at least one field, its names are valid, and no name occurs twice (Debian Policy
/// 5.1).
pub fn well_formed()
    ensures { ReadsWellFormed }
{}

/// A text is read as clauses, as provisions or as a source exactly if it is written that way (Debian Policy 5.6.1, 7.1,
/// 7.2, 7.5).
pub fn spelled()
    ensures clauses { ReadsSpelledClauses }
    ensures provisions { ReadsSpelledProvisions }
    ensures sources { ReadsSpelledSources }
{}

/// An alternative is refused for its name, or for a version, exactly if that is its first fault from the left. Any
/// other invalid text is refused for its relation.
pub fn refused()
    ensures names { RefusesBadNames }
    ensures versions { RefusesBadVersions }
{}
