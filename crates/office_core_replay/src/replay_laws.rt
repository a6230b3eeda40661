//! What is true of every replay.
ghost use Rattle.std.specs.Prelude.{◌≡◌, ◌-◌, ⊤, ℕ, List, Option, false, length};
ghost use Rattle.office_mail.specs.Runs.{IsReadyCount};
ghost use Rattle.office_core_replies.specs.Replies.{not_lost};
ghost use Rattle.office_core_replies.specs.declared.replies.Delivery.{Delivery};
ghost use Rattle.office_core_facts.specs.OfficeState.{OfficeState};
ghost use Rattle.office_core_facts.specs.State.{IsSound, state_of};
ghost use Rattle.office_core.specs.History.{Leads, Looked, Settled, coming};
ghost use Rattle.office_core_replay.specs.Blocks.{DeliversTexts};
ghost use Rattle.office_core_replay.specs.Delivered.{KeepsMail};
ghost use Rattle.office_core_replay.specs.Output.{reply_lines};

use office_store_keeper::Keeper;

/// If nothing is lost, texts kept a block at a time leave the same mail as texts delivered one by one, and the same
/// lines answer them.
pub fn blocks_are_no_other()
    ensures { (s a b : OfficeState) (texts : List (List ℕ)) (w v x : Option (List ℕ)) → (p : DeliversTexts s a texts w v false ⊤) → (q : DeliversTexts s b texts w x false ⊤) → (a.kept ≡ b.kept) × (reply_lines s.setup s.kept p.deliveries ≡ reply_lines s.setup s.kept q.deliveries) }
{}

/// A whole replay is steps of an office's history: its messages came except the lost ones, and runs were finished.
pub fn replays_are_steps<K: Keeper>()
    ensures came { (old new : K) (deliveries : List Delivery) → KeepsMail (state_of K.Keeper old) (state_of K.Keeper new) deliveries → IsSound K.Keeper old → IsSound K.Keeper new → Leads (K.setup old) (K.content old) (coming (not_lost deliveries) (length (K.content new).reports - length (K.content old).reports) Looked) (K.content new) }
    // If its last settle answered Ok, they end in that.
    ensures settled { (old new : K) (deliveries : List Delivery) → KeepsMail (state_of K.Keeper old) (state_of K.Keeper new) deliveries → IsSound K.Keeper old → IsSound K.Keeper new → IsReadyCount (K.setup new) (K.content new).kept (length (K.content new).reports) → Leads (K.setup old) (K.content old) (coming (not_lost deliveries) (length (K.content new).reports - length (K.content old).reports) Settled) (K.content new) }
{}
