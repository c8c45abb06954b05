// What a translation centre decides: of a command, or of a message that arrives, by its class.
ghost use Rattle.std.specs.Prelude.{◌≡◌};
ghost use Rattle.role_base.specs.Deciding.{Decides};
ghost use Rattle.role_base.specs.Leads.{of_arrival};
ghost use Rattle.translation_role.specs.Rows.{translation_row, translation_lead};

use crate::service::rfs;
use csm_grammar::Message;
use party_state::{Decision, Input, Lead, State};
use role_base::{body_issuer, centre_command, other_class, unserved};
use std::alloc::Global;
use x_base::NoMemory;

/// What a translation centre decides of a command or of a message that arrives, with the key under
/// which the message's code is tested (ANSI X9.17; the order of the tests is this project's profile).
/// It draws no key, so that the moment plays no part.
///
/// The change has the edits that make a difference. The only error is want of memory.
pub fn decide(
    alloc: Global,
    state: &State,
    input: &Input,
    lead: &Option<Lead>,
    _moment: u64,
) -> Result<Decision, NoMemory>
    requires { lead.now ≡ of_arrival (λ a. translation_lead state.now a a.parsed.message) input.now }
    ensures { Decides state.now (translation_row state.now input.now) result }
{
    match input {
        Input::Ordered(order) => centre_command(alloc, state, order),
        Input::Arrived(arrival) => match &arrival.parsed.message {
            Message::Rfs(message) => rfs(alloc, state, arrival, message, lead),
            Message::Rsi(m) => Ok(other_class(state, &m.receiver, &m.originator, &m.originator)),
            Message::Rtr(m) => Ok(other_class(state, &m.receiver, &m.originator, &m.originator)),
            Message::Ers(m) => Ok(other_class(state, &m.receiver, &m.originator, &m.originator)),
            Message::Ksm(m) => {
                let known = body_issuer(&m.originator, &m.body);
                Ok(other_class(state, &m.receiver, &m.originator, &known))
            }
            Message::Rsm(m) => Ok(unserved(state, &m.receiver, &m.originator)),
            Message::Esm(m) => Ok(unserved(state, &m.receiver, &m.originator)),
            Message::Dsm(m) => Ok(unserved(state, &m.receiver, &m.originator)),
        },
    }
}
