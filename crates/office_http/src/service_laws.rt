//! What is true of what the service answers.
ghost use Rattle.std.specs.Prelude.{◌≡◌, ◌≢◌, ◌⊎◌, ◌≤◌, ◌<◌, ◌-◌, ◌^◌, ◌↔◌, ℕ, List, [], Option, Some, None, false, true, flat_map, length};
ghost use Rattle.office_core_orders.specs.Ready.{HasPlaces};
ghost use Rattle.office_http_requests.specs.Asked.{asked_of};
ghost use Rattle.office_http_requests.specs.declared.request.Action.{Action};
ghost use Rattle.office_http_requests.specs.declared.request.Asked.{Asked};
ghost use Rattle.office_http_requests.specs.declared.request.Page.{Page};
ghost use Rattle.office_http_requests.specs.declared.request.Posted.{Posted};
ghost use Rattle.office_http.specs.Serve.{action_answer, answer_of, AsksBreaks, AsksProposal, Does, Exchange, Found, IsFoundForAsked, Moves, Serves, StopsServe, delivered_by, kept_by, settles};
ghost use Rattle.office_core_facts.specs.OfficeState.{OfficeState};
ghost use Rattle.office_core_facts.specs.State.{IsSound, reports_at, state_of};
ghost use Rattle.office_core_store.specs.declared.faults.StoreFault.{StoreFault};
ghost use Rattle.office_core.specs.History.{IsByRules, Leads, Looked, Settled, coming};
ghost use Rattle.office_core.specs.Preserves.{Preserves, StoreRefused};
ghost use Rattle.office_core.specs.Came.{AllCame};
ghost use Rattle.office_core.specs.OneSender.{ButOf};
ghost use Rattle.office_core.specs.Visible.{visible};
ghost use Rattle.office_core_replay.specs.Replay.{Replays, StopsReplay};
ghost use Rattle.office_core_replay.specs.declared.replays.Replayed.{Replayed};
ghost use Rattle.office_mail.specs.Reading.{Reading};
ghost use Rattle.office_http.specs.declared.serve.ServeFault.{ServeFault};
ghost use Rattle.office_store_keeper.specs.Content.{no_content};
ghost use Rattle.office_http.specs.Life.{Event, IsEvent, IsLedBy, Lives, texts_of};
ghost use Rattle.office_http.specs.ShortTexts.{short_text};
ghost use Rattle.office_http.specs.Trials.{terms_of};

use office_store_keeper::Keeper;

/// The answer to a request is a function of the request and of the office's state: what `serve_one` says of what is
/// found leaves no other. The texts on a source, a trial, a proposal and what a change breaks are what was found of them.
/// The hints and unstable need an office with mail only of senders of its setup.
pub fn requests_have_one_answer()
    ensures { (s : OfficeState) (asked : Asked) (rest : List ℕ) (x y : Found) → IsFoundForAsked s x asked rest → IsFoundForAsked s y asked rest
        → ((source : List ℕ) → asked ≡ Asked.Tell (Page.Why source) → x.why ≡ y.why) → ((p : Posted) → asked ≡ Asked.Post p → terms_of p.action ≢ None → x.trial ≡ y.trial)
        → ((asked ≡ Asked.Tell Page.Hints) ⊎ (asked ≡ Asked.Tell Page.Unstable) → HasPlaces s.setup s.kept) → (AsksProposal asked → x.proposal ≡ y.proposal)
        → (AsksBreaks asked → x.breaks ≡ y.breaks)
        → answer_of s x asked rest ≡ answer_of s y asked rest }
{}

/// What comes by the path of a sender changes what is kept of that sender alone, whatever the text says.
pub fn bound_mail()
    ensures { (s : OfficeState) (sender : ℕ) (body : List ℕ) (fault : Option StoreFault) → ButOf sender s.kept (kept_by s (Action.DeliverOf sender) body fault) }
{}

/// A text that is only looked at is answered like a delivery of it. What is kept stays, and nothing is settled.
pub fn lint_is_mail()
    ensures same { (s : OfficeState) (body : List ℕ) (x y : Found) → action_answer s x Action.Look body ≡ action_answer s y Action.Deliver body }
    ensures keeps { (s : OfficeState) (body : List ℕ) (fault : Option StoreFault) → kept_by s Action.Look body fault ≡ s.kept }
    ensures still { (s : OfficeState) (body : List ℕ) (fault : Option StoreFault) → settles s Action.Look body fault ≡ false }
{}

/// A text that answers a question has at most 4,000,000 bytes, since a longer one is cut.
pub fn texts_are_short()
    ensures { (text : List ℕ) → length text < 2 ^ 64 → length (short_text text) ≤ 4_000_000 }
{}

/// What a request does is steps of an office's history: the body that it delivers came, if it does, and runs were finished.
pub fn requests_are_steps<K: Keeper>()
    ensures came { (old new : K) (post : Option (Action × List ℕ)) (fault : Option StoreFault) (ready : ℕ) → Does (state_of K.Keeper old) (state_of K.Keeper new) post fault ready (StoreRefused K.Keeper old new) → IsSound K.Keeper old → IsSound K.Keeper new
        → Leads (K.setup old) (K.content old) (coming (delivered_by (K.setup old) post fault) (length (K.content new).reports - length (K.content old).reports) Looked) (K.content new) }
    // If it settles, like a held delivery, and the settle met nothing, they end in a settle that answered Ok.
    ensures settled { (old new : K) (action : Action) (body : List ℕ) (fault : Option StoreFault) (ready : ℕ) → (does : Moves (state_of K.Keeper old) (state_of K.Keeper new) action body fault ready (StoreRefused K.Keeper old new)) → IsSound K.Keeper old → IsSound K.Keeper new
        → settles (state_of K.Keeper old) action body fault ≡ true → does.met ≡ None
        → Leads (K.setup old) (K.content old) (coming (delivered_by (K.setup old) (Some (action, body)) fault) (length (K.content new).reports - length (K.content old).reports) Settled) (K.content new) }
    // Likewise if the request was to settle and was answered by 200, as the client knows.
    ensures told { (old new : K) (left : Option (List ℕ)) (input told reply : List ℕ) (code : ℕ) (p : Posted) → (x : Exchange (state_of K.Keeper old) (state_of K.Keeper new) left input told reply code (StoreRefused K.Keeper old new)) → IsSound K.Keeper old → IsSound K.Keeper new
        → asked_of (K.setup old) x.head ≡ Asked.Post p → p.action ≡ Action.Settle → code ≡ 200
        → Leads (K.setup old) (K.content old) (coming [] (length (K.content new).reports - length (K.content old).reports) Settled) (K.content new) }
{}

/// Answered once, answered for good. A life is any list of requests, whole replays and openings of the store again. It
/// is steps of the headline, with the texts that the requests and the replays delivered. Its result from an empty store
/// on is what the headline says of these texts. What was answered on a finished run is answered ever after.
pub fn life<K: Keeper>()
    ensures steps { (old new : K) (events : List Event) → Lives K.Keeper old events new → IsSound K.Keeper old → K.is_trusted new → IsLedBy (K.setup old) (flat_map (texts_of (K.setup old)) events) (K.content old) (K.content new) }
    ensures rules { (old new : K) (events : List Event) → Lives K.Keeper old events new → K.is_legible old → K.content old ≡ no_content → K.is_trusted new → IsByRules (K.setup old) (flat_map (texts_of (K.setup old)) events) (visible (K.content new)) }
    ensures told { (old new : K) (events : List Event) (k : ℕ) → Lives K.Keeper old events new → IsSound K.Keeper old → K.is_trusted new → k ≤ length (K.content old).reports → reports_at (state_of K.Keeper new) k ≡ reports_at (state_of K.Keeper old) k }
    // So both pages of the run answer the same, whatever else is found.
    ensures excuses { (old new : K) (events : List Event) (k : ℕ) (x y : Found) (rest more : List ℕ) → Lives K.Keeper old events new → IsSound K.Keeper old → K.is_trusted new → k ≤ length (K.content old).reports → answer_of (state_of K.Keeper new) y (Asked.Tell (Page.Excuses k)) more ≡ answer_of (state_of K.Keeper old) x (Asked.Tell (Page.Excuses k)) rest }
    ensures updates { (old new : K) (events : List Event) (k : ℕ) (x y : Found) (rest more : List ℕ) → Lives K.Keeper old events new → IsSound K.Keeper old → K.is_trusted new → k ≤ length (K.content old).reports → answer_of (state_of K.Keeper new) y (Asked.Tell (Page.Update k)) more ≡ answer_of (state_of K.Keeper old) x (Asked.Tell (Page.Update k)) rest }
{}

/// What `serve_one` and `replay` ensure is an event of a life, whatever they answer. It holds while the store is
/// trusted, which a life requires only at its end.
pub fn calls_are_events<K: Keeper>()
    ensures served { (old new : K) (left unread written wrote : Option (List ℕ)) (code : Option ℕ) → Preserves K.Keeper old new → Serves (state_of K.Keeper old) (state_of K.Keeper new) left unread written wrote code (StoreRefused K.Keeper old new) → IsEvent K.Keeper old new }
    ensures cut_off { (old new : K) (left unread written wrote : Option (List ℕ)) (fault : ServeFault) → Preserves K.Keeper old new → StopsServe (state_of K.Keeper old) (state_of K.Keeper new) left unread written wrote fault (StoreRefused K.Keeper old new) → IsEvent K.Keeper old new }
    ensures replayed { (old new : K) (start now : Reading) (written wrote : Option (List ℕ)) (done : Replayed) → Preserves K.Keeper old new → Replays (state_of K.Keeper old) (state_of K.Keeper new) start now written wrote done (StoreRefused K.Keeper old new) → IsEvent K.Keeper old new }
    ensures replay_cut_off { (old new : K) (start now : Reading) (written wrote : Option (List ℕ)) → Preserves K.Keeper old new → StopsReplay (state_of K.Keeper old) (state_of K.Keeper new) start now written wrote (StoreRefused K.Keeper old new) → IsEvent K.Keeper old new }
{}

/// Delivered is finished, as a client knows it. Start with an empty store, and make any requests, replays and openings.
/// If a request to settle is then answered by 200, exactly those runs are finished whose needs have all come.
pub fn life_finishes<K: Keeper>()
    ensures { (old between new : K) (events : List Event) (k : ℕ) (left : Option (List ℕ)) (input told reply : List ℕ) (code : ℕ) (p : Posted) → Lives K.Keeper old events between → K.is_legible old → K.content old ≡ no_content → Preserves K.Keeper between new → K.is_trusted new
        → (x : Exchange (state_of K.Keeper between) (state_of K.Keeper new) left input told reply code (StoreRefused K.Keeper between new)) → asked_of (K.setup between) x.head ≡ Asked.Post p → p.action ≡ Action.Settle → code ≡ 200
        → AllCame (K.setup old) (flat_map (texts_of (K.setup old)) events) k ↔ (k ≤ length (K.content new).reports) }
{}
