//! What is true of every trial of hints.
ghost use Rattle.std.specs.Prelude.{◌≡◌, ◌<◌, ℕ, ◌+◌, Bool, List, Option, Some, length};
ghost use Rattle.jiff_core.specs.declared.civil.date.Date.{Date};
ghost use Rattle.office_mail.specs.Kept.{Kept};
ghost use Rattle.office_mail.specs.Lists.{Lists};
ghost use Rattle.office_mail.specs.Runs.{IsReady, latest_day, orders_to};
ghost use Rattle.office_core_facts.specs.Outcome.{outcome_of};
ghost use Rattle.office_core_orders.specs.Ready.{HasPlaces};
ghost use Rattle.office_core_facts.specs.Seen.{release, AreTrialCovers};
ghost use Rattle.office_core_outcome.specs.NextRun.{HasCome};
ghost use Rattle.office_core_outcome.specs.Proposal.{IsProposed, tried_decisions};
ghost use Rattle.office_core_outcome.specs.Trial.{IsTrial, decided, judged, trial_date, tried, without_reasons};
ghost use Rattle.office_core_outcome.specs.WhyRefused.{AreReasons};
ghost use Rattle.office_core_outcome.specs.declared.proposal.Proposal.{Proposal};
ghost use Rattle.office_core_outcome.specs.declared.TrialOptions.{TrialOptions};
ghost use Rattle.office_core_outcome.specs.declared.Trial.{Trial};
ghost use Rattle.office_core_outcome.specs.declared.Trial.TheVariants.{Told};
ghost use Rattle.testing_rules_reports.specs.Reports.{update_text};

/// A tried hint is a promise: where messages that say the hints have come under their numbers, and the order of the
/// next run has the date of the trial, and covers what it did and the hints, that run decides what the trial was told
/// of it. Other fields of these messages, and other mail that has come, which the order doesn't cover, change nothing.
pub fn try_is_next_run()
    ensures next { (setup : Lists) (kept late : Kept) (k : ℕ) (all : Bool) (day : Option Date) (date : Date) (covers : ℕ → ℕ) (hints : List (List ℕ)) → IsReady setup kept k → AreTrialCovers setup kept k all covers
        → trial_date (latest_day (orders_to setup kept k)) day ≡ Some date → HasPlaces setup late → HasCome setup kept late k date covers hints
        → decided setup (k + 1) (outcome_of setup late (k + 1)) ≡ (tried setup kept k date covers hints).with }
{}

/// A trial has one report: what an office keeps, the terms and the hints determine it. Only the lines on why hints are
/// refused may be others with the same result. Every setup has a release team.
pub fn trials_have_one_end()
    ensures { (setup : Lists) (kept : Kept) (k : ℕ) (terms : TrialOptions) (hints : List (List ℕ)) (x y : Trial) → HasPlaces setup kept → release setup < length setup.senders
        → IsTrial setup kept k terms hints x → IsTrial setup kept k terms hints y → without_reasons x ≡ without_reasons y }
{}

/// A proposal is a trial. If its hints are tried on the same terms, over the same covers, the trial is accepted, and
/// the run with the hints records just the decisions that the proposal cites.
pub fn proposals_are_trials()
    ensures trial { (setup : Lists) (kept : Kept) (k : ℕ) (terms : TrialOptions) (sources : List (List ℕ)) (p : Proposal) → (proposed : IsProposed setup kept k terms sources p)
        → (reasons : List ℕ) → AreReasons (judged setup kept k p.date proposed.covers p.hints.items) reasons → IsTrial setup kept k terms p.hints.items (Told (tried setup kept k p.date proposed.covers p.hints.items) reasons) }
    ensures updates { (setup : Lists) (kept : Kept) (k : ℕ) (date : Date) (covers : ℕ → ℕ) (hints : List (List ℕ))
        → (tried setup kept k date covers hints).with.updates ≡ update_text setup.archs (k + 1) date (tried_decisions setup kept k date covers hints) }
{}
