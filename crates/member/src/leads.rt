// The key under which the code of an arrival is tested, by the party's role and the message's class.
ghost use Rattle.std.specs.Prelude.{◌≡◌};
ghost use Rattle.member.specs.Leads.{lead_in};

use bank_arrivals::{dsm_lead, esm_lead, rsm_lead};
use bank_keys::{ksm_lead, rtr_lead};
use csm_grammar::Message;
use party_state::{Input, Lead, State};
use x_base::Role;

/// The key under which the authentication code of an arrival is tested, with its full name, and
/// whether the code is the one carried. It is none exactly of a command, and where the arrival is
/// closed by an error detection code, or is refused before its code is looked at. It takes no memory.
pub fn lead(state: &State, input: &Input) -> Option<Lead>
    ensures { result ≡ lead_in state.now input.now }
{
    match state.role() {
        Role::Distribution => distribution_role::lead(state, input),
        Role::Translation => translation_role::lead(state, input),
        Role::Bank => match input {
            Input::Ordered(_) => None,
            Input::Arrived(arrival) => match &arrival.parsed.message {
                Message::Rtr(message) => rtr_lead(state, arrival, message),
                Message::Ksm(message) => ksm_lead(state, arrival, message),
                Message::Rsm(message) => rsm_lead(state, arrival, message),
                Message::Esm(message) => esm_lead(state, arrival, message),
                Message::Dsm(message) => dsm_lead(state, arrival, message),
                Message::Rsi(_) | Message::Rfs(_) | Message::Ers(_) => None,
            },
        },
    }
}
