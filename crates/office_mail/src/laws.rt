//! Laws of mail: its order of arrival doesn't matter, and later mail changes no ready run.
ghost use Rattle.std.specs.Prelude.{◌≡◌, ◌∷◌, ℕ, List, Some, Ok};
ghost use Rattle.std.specs.FinMap.{empty, get};
ghost use Rattle.office_mail.specs.declared.message.Message.{Message};
ghost use Rattle.office_mail_setup.specs.Lists.{Lists};
ghost use Rattle.office_mail.specs.Kept.{Kept, Within, kept_from, place_of};
ghost use Rattle.office_mail.specs.Read.{read};
ghost use Rattle.office_mail.specs.Laws.{CanTake, Delivers, OneText, SameRun, SameTexts};
ghost use Rattle.office_mail.specs.Runs.{IsReady};
ghost use Rattle.office_mail.specs.Said.{KeepsTo};

/// Two lists of deliveries with the same well-formed texts, in any order and with repetitions, lead to the same kept
/// mail, if no sender has two texts under one number.
pub fn same_set()
    ensures same { (setup : Lists) (xs ys : List (List ℕ)) → OneText setup xs → OneText setup ys → SameTexts setup xs ys → kept_from setup empty xs ≡ kept_from setup empty ys }
    // Each well-formed text is then kept at its place.
    ensures kept { (setup : Lists) (xs : List (List ℕ)) (text : List ℕ) (message : Message) → OneText setup xs → Delivers setup xs text message → get (kept_from setup empty xs) (place_of message) ≡ Some text }
    // Whatever part of such a list came before, a well-formed text is accepted: the answer to a delivery depends only
    // on its text.
    ensures reply { (setup : Lists) (before : List (List ℕ)) (text : List ℕ) (message : Message) → read setup text ≡ Ok message → OneText setup (text ∷ before) → CanTake (kept_from setup empty before) (place_of message) text }
{}

/// A ready run stays ready whatever mail comes later, and sees the same orders, cover, date and covered mail.
pub fn later_mail()
    ensures run { (setup : Lists) (small large : Kept) (k : ℕ) → Within small large → IsReady setup small k → SameRun setup small large k }
    // Deliveries only add to the kept mail.
    ensures within { (setup : Lists) (kept : Kept) (texts : List (List ℕ)) → Within kept (kept_from setup kept texts) }
{}

/// Each message respects its setup: if its kind belongs to bugs, the release team or runs, it is from their only
/// sender, and it names only listed architectures, or `all`.
pub fn keeps_to_setup()
    ensures { (setup : Lists) (text : List ℕ) (message : Message) → read setup text ≡ Ok message → KeepsTo setup message }
{}
