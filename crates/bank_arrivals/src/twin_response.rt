// A response service message to two keys that were sent in one message arrives: both are live.
ghost use Rattle.std.specs.Prelude.{◌≡◌, ◌∷◌, [], IfOk};
ghost use Rattle.party_state.specs.declared.edit.Edit.TheVariants.{PutKey, DropExchange};
ghost use Rattle.party_tables.specs.declared.key.KeyStatus.TheVariants.{Live};
ghost use Rattle.role_base.specs.Deciding.{decision_of};
ghost use Rattle.bank_arrivals.specs.Rsm.{rsm_twins, twins_lead};

use csm_grammar::{Arrival, Rsm};
use party_state::{Decision, Edit, KeyRec, KeyStatus, Lead, State};
use role_base::{
    Twins, accept, answer_front, answer_verdict, early_refusal, is_accept, lead_under, list_of,
    refusal, tests_pass,
};
use std::alloc::Global;
use x_base::{Ident, NoMemory};

fn both_live(alloc: Global, peer: Ident, twins: &Twins) -> Result<Vec<Edit>, NoMemory>
    ensures { IfOk result (λ edits. edits.items ≡ PutKey (record twins.now.first { status = Live }) ∷ PutKey (record twins.now.second { status = Live }) ∷ DropExchange peer ∷ []) }
{
    let status = KeyStatus::Live;
    let first = Edit::PutKey(KeyRec {
        status,
        ..twins.first
    });
    let second = Edit::PutKey(KeyRec {
        status,
        ..twins.second
    });
    list_of(alloc, [first, second, Edit::DropExchange { peer }])
}

/// The response to two keys that were sent, with the key under which its code is tested.
pub(crate) fn rsm_twins(
    alloc: Global,
    state: &State,
    arrival: &Arrival,
    message: &Rsm,
    twins: &Twins,
    lead: &Option<Lead>,
) -> Result<Decision, NoMemory>
    requires { lead.now ≡ twins_lead state.now arrival.now message.now twins.now }
    ensures { IfOk result (λ d. d ≡ decision_of state.now (rsm_twins state.now arrival.now message.now twins.now)) }
{
    let (receiver, originator) = (&message.receiver, &message.originator);
    let Some(lead) = lead else {
        return Ok(early_refusal(&answer_front(state, receiver, originator, true)));
    };
    let verdict = answer_verdict(state, receiver, originator, true, lead.verified);
    if !is_accept(&verdict) {
        return Ok(refusal(verdict));
    }
    let edits = both_live(alloc, message.originator, twins)?;
    accept(alloc, state, edits, None)
}

/// The exclusive-or of the two keys, under the name of the first.
pub(crate) fn twins_lead(
    state: &State,
    arrival: &Arrival,
    message: &Rsm,
    twins: &Twins,
) -> Option<Lead>
    ensures { result ≡ twins_lead state.now arrival.now message.now twins.now }
{
    if tests_pass(&answer_front(state, &message.receiver, &message.originator, true)) {
        let under = twins.first.full_name(&state.own());
        Some(lead_under(arrival, under, twins.value()))
    } else {
        None
    }
}
