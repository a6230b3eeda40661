//! What is true of the lines, for any input.

ghost use Rattle.std.specs.Prelude.{◌≡◌, List, Option};
ghost use Rattle.testing_rules_items.specs.Words.{Text};
ghost use Rattle.testing_rules_model.specs.declared.excuse.Excuse.{Excuse as AnExcuse};
ghost use Rattle.testing_rules_model.specs.declared.facts.UploadIn.{UploadIn as AnUpload};
ghost use Rattle.testing_rules_excuses.specs.Lines.{IsOriginText};
ghost use Rattle.testing_rules_excuses.specs.Said.{SaidLists};

/// Only one text has the lines of a source: only one day is a given number of days after another.
pub fn one_origin_text()
    ensures { (senders archs : List Text) (said : SaidLists) (u : AnUpload) (excuse : Option AnExcuse) (text other : Text)
        → IsOriginText senders archs said u excuse text → IsOriginText senders archs said u excuse other → text ≡ other }
{}
