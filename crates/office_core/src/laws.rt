//! What is true of every store, and of every office whatever mail comes and in whatever order.
ghost use Rattle.std.specs.Prelude.{◌≡◌, ◌≢◌, ◌+◌, ◌-◌, ◌≤◌, ◌↔◌, ℕ, List, [], ◌∷◌, ◌++◌, true, length, Contains, Some, None};
ghost use Rattle.std.specs.FinMap.{get};
ghost use Rattle.office_mail.specs.Kept.{Kept, Within, kept_from};
ghost use Rattle.office_mail.specs.Laws.{OneText, SameTexts};
ghost use Rattle.office_mail.specs.Lists.{Lists};
ghost use Rattle.office_mail.specs.Runs.{IsReady, IsReadyCount, order_at};
ghost use Rattle.office_mail.specs.Setup.{count_of};
ghost use Rattle.office_mail.specs.declared.message.RunOrder.{RunOrder};
ghost use Rattle.office_mail_setup.specs.declared.setup.Role.{Role};
ghost use Rattle.office_mail_setup.specs.declared.setup.Role.TheVariants.{Release, Runs};
ghost use Rattle.office_store_keeper.specs.Content.{Content, item_from_one, no_content};
ghost use Rattle.office_store_keeper.specs.LastDelays.{GetsLast};
ghost use Rattle.office_store_keeper.specs.Provenance.{AreOwnTexts};
ghost use Rattle.office_core_orders.specs.declared.wait_lines.Lack.{Lack};
ghost use Rattle.office_core.specs.Came.{AllCame, CameBeside};
ghost use Rattle.office_core.specs.History.{Step, Looked, Settled, Follow, Leads, IsByRules, Agree, coming, is_settled, texts_in};
ghost use Rattle.office_core.specs.Laws.{RunsStand, RunsStay, TookTexts};
ghost use Rattle.office_core.specs.Migrated.{IsOfficeBefore};
ghost use Rattle.office_core.specs.OneSender.{ButOf, DifferByRole, IsUnseen, role_at};
ghost use Rattle.office_core.specs.Visible.{Visible, new_office};
ghost use Rattle.office_core_facts.specs.Outcome.{covered_items, outcome_of, reports_to};
ghost use Rattle.office_core_facts.specs.State.{IsOffice, IsSound};
ghost use Rattle.office_core_orders.specs.Waiting.{AreLacks};

use office_store_keeper::Keeper;

/// An office begins with a store that keeps nothing.
pub fn empty_is_sound<K: Keeper>()
    ensures { (store : K) → K.is_legible store → K.content store ≡ no_content → IsSound K.Keeper store }
{}

/// The headline: after any list of deliveries, with losses, repeats and reorderings, in which no sender gives one
/// number two texts, testing and both reports of every finished run are what the promotion rules give for that run's
/// covered messages, each taken once in its sender's order; a settled office has finished exactly the ready runs; only
/// finishing a run changes testing. A list of steps is any history: deliveries, settles and questions from an empty
/// office on.
pub fn headline()
    ensures rules { (setup : Lists) (steps : List Step) (office : Visible) → Follow setup new_office steps office → IsByRules setup (texts_in steps) office }
    // Neither order nor repeats matter: offices that received the same texts agree.
    ensures order { (setup : Lists) (xs ys : List Step) (a b : Visible) → Follow setup new_office xs a → Follow setup new_office ys b → OneText setup (texts_in xs) → SameTexts setup (texts_in xs) (texts_in ys) → Agree xs ys a b }
    ensures settled { (setup : Lists) (steps : List Step) (office : Visible) → Follow setup new_office steps office → is_settled steps ≡ true → IsReadyCount setup office.kept (length office.reports) }
    ensures only { (setup : Lists) (steps : List Step) (old new : Visible) → Follow setup old steps new → RunsStay old new }
{}

/// Delivered is finished. Starting empty, a settled office has finished run k exactly if all that the run needs came,
/// whatever else came, in any order and with any repeats and losses.
pub fn delivered()
    ensures finished { (setup : Lists) (steps : List Step) (office : Visible) (k : ℕ) → Follow setup new_office steps office → is_settled steps ≡ true → AllCame setup (texts_in steps) k ↔ (k ≤ length office.reports) }
    // So if all that run k needs was sent and came, the run is finished. No other text, from any sender, holds it up,
    // unless it gives one of the run's own orders a second text.
    ensures beside { (setup : Lists) (sent : List (List ℕ)) (steps : List Step) (office : Visible) (k : ℕ) → Follow setup new_office steps office → is_settled steps ≡ true → AllCame setup sent k → CameBeside setup sent (texts_in steps) k → k ≤ length office.reports }
{}

/// If one call leads to an office, and another on from it, both together do; a call that changes nothing is a step too.
pub fn steps_follow()
    ensures twice { (setup : Lists) (xs ys : List Step) (a b c : Visible) → Follow setup a xs b → Follow setup b ys c → Follow setup a (xs ++ ys) c }
    ensures looked { (setup : Lists) (old new : Visible) → new ≡ old → Follow setup old (Looked ∷ []) new }
    // Whatever takes one office to another with these further texts and no fewer runs, like a replay, is such steps.
    ensures came { (setup : Lists) (texts : List (List ℕ)) (old new : Content) → IsOffice setup old → IsOffice setup new → new.kept ≡ kept_from setup old.kept texts → length old.reports ≤ length new.reports → Leads setup old (coming texts (length new.reports - length old.reports) Looked) new }
    // The last of them is a settle that answered Ok, if exactly the ready runs are finished.
    ensures settled { (setup : Lists) (texts : List (List ℕ)) (old new : Content) → IsOffice setup old → IsOffice setup new → new.kept ≡ kept_from setup old.kept texts → length old.reports ≤ length new.reports → IsReadyCount setup new.kept (length new.reports) → Leads setup old (coming texts (length new.reports - length old.reports) Settled) new }
{}

/// If two offices received the same well-formed texts, in any order and with any repeats, and no sender gave one number
/// two texts, each run finished in both has the same two reports.
pub fn same_texts()
    ensures each { (setup : Lists) (xs ys : List (List ℕ)) (a b : Content) (k : ℕ) → TookTexts setup xs a → TookTexts setup ys b → SameTexts setup xs ys → k ≤ length a.reports → k ≤ length b.reports → item_from_one k a.reports ≡ item_from_one k b.reports }
    // If both finished the same number of runs, all reports are the same, and so is testing.
    ensures same { (setup : Lists) (xs ys : List (List ℕ)) (a b : Content) → TookTexts setup xs a → TookTexts setup ys b → SameTexts setup xs ys → length a.reports ≡ length b.reports → (a.reports ≡ b.reports) × (a.testing ≡ b.testing) }
    // Offices that have finished all ready runs, like a settled one, have finished the same number.
    ensures settled { (setup : Lists) (xs ys : List (List ℕ)) (a b : Content) → TookTexts setup xs a → TookTexts setup ys b → SameTexts setup xs ys → IsReadyCount setup a.kept (length a.reports) → IsReadyCount setup b.kept (length b.reports) → (a.reports ≡ b.reports) × (a.testing ≡ b.testing) }
{}

/// Later mail changes nothing of a ready run: neither its reports nor the testing that it leaves.
pub fn runs_stay()
    ensures outcome { (setup : Lists) (small large : Kept) (k : ℕ) → Within small large → IsReady setup small k → outcome_of setup large k ≡ outcome_of setup small k }
    ensures reports { (setup : Lists) (small large : Kept) (k : ℕ) → Within small large → IsReady setup small k → reports_to setup large k ≡ reports_to setup small k }
    // So an office with more mail and runs has the reports that it had, and the same testing unless it finished a run.
    ensures office { (setup : Lists) (old new : Content) → IsOffice setup old → IsOffice setup new → Within old.kept new.kept → length old.reports ≤ length new.reports → RunsStand old new }
{}

/// What one sender can do. Mail of it that a run doesn't cover changes nothing of the run: neither whether it is ready,
/// nor the reports and the testing of the runs up to it.
pub fn unseen()
    ensures ready { (setup : Lists) (sender k : ℕ) (a b : Kept) → IsUnseen setup sender k a b → IsReady setup a k ↔ IsReady setup b k }
    ensures outcome { (setup : Lists) (sender k : ℕ) (a b : Kept) → IsUnseen setup sender k a b → outcome_of setup a k ≡ outcome_of setup b k }
    ensures reports { (setup : Lists) (sender k : ℕ) (a b : Kept) → IsUnseen setup sender k a b → reports_to setup a k ≡ reports_to setup b k }
{}

/// Of a run that covers mail of it, one sender changes only what its role may say: no other role's uploads, drops,
/// builds, bugs, hints, unhints or delays. All else can change by the sender of run orders alone.
pub fn by_role()
    ensures { (setup : Lists) (sender k : ℕ) (a b : Kept) (role : Role) → ButOf sender a b → AreOwnTexts setup a → AreOwnTexts setup b → role_at setup sender ≡ Some role → role ≢ Runs → DifferByRole role (covered_items setup a k) (covered_items setup b k) }
{}

/// What an office of schema 1 left, once it has the row of the last delays that the finished runs cover, is what an
/// office leaves: its rows of facts are those of facts that stand for all covered mail.
pub fn migrated_is_office()
    ensures { (setup : Lists) (old new : Content) → count_of Release setup.senders ≡ 1 → IsOfficeBefore setup old → GetsLast setup old new → IsOffice setup new }
{}

/// If the order of the next run is kept, that run is ready exactly if no sender has a gap by it.
pub fn lacks_say_why()
    ensures why { (setup : Lists) (kept : Kept) (n : ℕ) (order : RunOrder) (lacks : List Lack) → IsReady setup kept n → order_at setup kept (n + 1) ≡ Some order → AreLacks kept order (length setup.senders) lacks → (lacks ≡ []) ↔ IsReady setup kept (n + 1) }
    // The missing mail is one list, given the kept mail and the order.
    ensures one { (kept : Kept) (order : RunOrder) (n : ℕ) (xs ys : List Lack) → AreLacks kept order n xs → AreLacks kept order n ys → xs ≡ ys }
{}

/// Each missing number must come: mail with all of the kept mail but not that number doesn't make the run ready.
pub fn lacks_are_needed()
    ensures mail { (setup : Lists) (small large : Kept) (n : ℕ) (order : RunOrder) (lacks : List Lack) (lack : Lack) → Within small large → order_at setup small (n + 1) ≡ Some order → AreLacks small order (length setup.senders) lacks → Contains lacks lack → get large (lack.sender, lack.number) ≡ None → IsReady setup large (n + 1) → ⊥ }
    // So must an order that isn't kept.
    ensures order { (setup : Lists) (kept : Kept) (n : ℕ) → order_at setup kept (n + 1) ≡ None → IsReady setup kept (n + 1) → ⊥ }
{}
