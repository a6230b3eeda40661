//! Hints that a request asks the office to propose.
ghost use Rattle.std.specs.Prelude.{◌≡◌, ◌∷◌, [], IfErr, IfOk};
ghost use Rattle.office_core.specs.Preserves.{Holds};
ghost use Rattle.office_core_facts.specs.State.{state_of};
ghost use Rattle.office_http.specs.steps.Calls.{AsksPlaced};
ghost use Rattle.office_http.specs.Serve.{proposal_answer};
ghost use Rattle.office_http.specs.steps.ServeSteps.{TellsProposal};
ghost use Rattle.office_http.specs.Trials.{request_terms, terms_on};
ghost use Rattle.office_http_requests.specs.steps.Reply.{HasPlace};

use crate::trials::{request_terms, terms_on};
use deb_control::{NoMemory, Text};
use jiff_core::civil::Date;
use office_core::Office;
use office_core_outcome::{Proposal, TrialOptions, proposal_text};
use office_core_store::StoreFault;
use office_http_requests::{Answer, Refusal};
use office_mail::Setup;
use office_store_keeper::Keeper;
use std::alloc::Global;

/// The answer to a request for hints, given what is proposed.
fn proposal_answer(
    alloc: Global,
    setup: &Setup,
    proposal: &Option<Proposal>,
) -> Result<Answer, NoMemory>
    ensures answer { IfOk result (λ answer. answer ≡ proposal_answer proposal.now) }
    ensures place { IfOk result (λ answer. HasPlace setup.now answer) }
{
    match proposal {
        Some(proposal) => Ok(Answer::Told(proposal_text(alloc, proposal)?)),
        None => Ok(Answer::Refused(Refusal::NoRun)),
    }
}

/// The answer to a request for hints, given what is proposed, which is dropped. It fails only if memory runs out.
fn answer_proposed(
    alloc: Global,
    setup: &Setup,
    proposal: Option<Proposal>,
) -> Result<Answer, StoreFault>
    ensures answer { IfOk result (λ answer. answer ≡ proposal_answer proposal) }
    ensures place { IfOk result (λ answer. HasPlace setup.now answer) }
    ensures no_store { IfErr result (λ fault. fault ≡ StoreFault.NoMemory) }
{
    let answer = proposal_answer(alloc, setup, &proposal);
    drop(proposal);
    Ok(answer?)
}

/// The answer to a request for hints on these terms that free sources, or that move groups if no source is named.
fn propose<K: Keeper>(
    office: &mut Office<K>,
    terms: TrialOptions,
    sources: &[Text],
) -> Result<Answer, StoreFault>
    ensures asks { AsksPlaced K.Keeper office.old office.new result }
    ensures tells { Holds K.Keeper office.old office.new → IfOk result (λ answer. TellsProposal (state_of K.Keeper office.old) terms sources.now answer) }
{
    let proposal = office.propose(terms, sources)?;
    answer_proposed(office.alloc(), office.setup(), proposal)
}

/// The answer to a request for hints that move groups.
pub(crate) fn propose_groups<K: Keeper>(office: &mut Office<K>) -> Result<Answer, StoreFault>
    ensures asks { AsksPlaced K.Keeper office.old office.new result }
    ensures tells { Holds K.Keeper office.old office.new → IfOk result (λ answer. TellsProposal (state_of K.Keeper office.old) request_terms [] answer) }
{
    propose(office, request_terms(), &[])
}

/// The answer to a request for hints that move groups, in a run on this day or later.
pub(crate) fn propose_on<K: Keeper>(office: &mut Office<K>, day: Date) -> Result<Answer, StoreFault>
    ensures asks { AsksPlaced K.Keeper office.old office.new result }
    ensures tells { Holds K.Keeper office.old office.new → IfOk result (λ answer. TellsProposal (state_of K.Keeper office.old) (terms_on day) [] answer) }
{
    propose(office, terms_on(day), &[])
}

/// The answer to a request for hints that free a source.
pub(crate) fn propose_for<K: Keeper>(
    office: &mut Office<K>,
    source: Text,
) -> Result<Answer, StoreFault>
    ensures asks { AsksPlaced K.Keeper office.old office.new result }
    ensures tells { Holds K.Keeper office.old office.new → IfOk result (λ answer. TellsProposal (state_of K.Keeper office.old) request_terms (source ∷ []) answer) }
{
    let sources = [source];
    let answer = propose(office, request_terms(), &sources);
    drop(sources);
    answer
}
