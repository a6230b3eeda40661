//! What is true of the bag of all kept mail, of its parts, and of offices that got each other's mail.
ghost use Rattle.std.specs.Prelude.{◌≡◌, ◌+◌, ◌++◌, ◌∷◌, ℕ, [], List, None, is_ok, true, length};
ghost use Rattle.std.specs.FinMap.{empty};
ghost use Rattle.std.specs.List.{AllByRecursion};
ghost use Rattle.office_mail.specs.Bag.{IsBag};
ghost use Rattle.office_mail.specs.Kept.{Kept, Within, kept_from};
ghost use Rattle.office_mail.specs.Lists.{Lists};
ghost use Rattle.office_mail.specs.Runs.{IsReadyCount};
ghost use Rattle.office_store_keeper.specs.Content.{Content};
ghost use Rattle.office_store_keeper.specs.declared.values.Letter.{Letter};
ghost use Rattle.office_core_facts.specs.State.{IsOffice};
ghost use Rattle.office_core.specs.Together.{answers_to};
ghost use Rattle.office_core_queries.specs.BagPart.{letters_from, letters_of_part};
ghost use Rattle.office_core_queries.specs.Export.{kept_bag, kept_texts};

/// The bag of all kept mail is a backup: its messages, delivered to an empty office, leave what is kept.
pub fn export_gives_back()
    ensures bag { (setup : Lists) (content : Content) → IsOffice setup content → IsBag (kept_bag setup content.kept) (kept_texts setup content.kept) None }
    ensures gives { (setup : Lists) (content : Content) → IsOffice setup content → kept_from setup empty (kept_texts setup content.kept) ≡ content.kept }
{}

/// The parts of a sender's mail are all of it, if the first begins with number 1 and each other one after the last
/// message of the one before. Nothing between two of them is left out, and a part is empty only after the last message.
pub fn parts_are_the_bag()
    ensures next { (kept : Kept) (sender from : ℕ) (front : List Letter) (last : Letter) → letters_of_part kept sender from ≡ front ++ last ∷ [] → letters_from kept sender from ≡ letters_of_part kept sender from ++ letters_from kept sender (last.number + 1) }
    ensures end { (kept : Kept) (sender from : ℕ) → letters_of_part kept sender from ≡ [] → letters_from kept sender from ≡ [] }
{}

/// If an office held all mail that another keeps, it has that mail, byte for byte. So offices of one setup that got
/// each other's mail and finished all ready runs give the same answers: their mail, reports and testing are equal. The
/// mail's path and order don't matter.
pub fn mirrored()
    ensures within { (setup : Lists) (a b : Content) → IsOffice setup a → IsOffice setup b → AllByRecursion (λ answer. is_ok answer ≡ true) (answers_to setup b.kept (kept_texts setup a.kept))
        → Within a.kept (kept_from setup b.kept (kept_texts setup a.kept)) }
    ensures same { (a b : Kept) → Within a b → Within b a → a ≡ b }
    ensures replicas { (setup : Lists) (a b : Content) → IsOffice setup a → IsOffice setup b → a.kept ≡ b.kept → IsReadyCount setup a.kept (length a.reports) → IsReadyCount setup b.kept (length b.reports)
        → (a.reports ≡ b.reports) × (a.testing ≡ b.testing) }
{}
