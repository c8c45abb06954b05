// What a distribution centre decides: of a command, or of a message that arrives, by its class.
ghost use Rattle.std.specs.Prelude.{◌≡◌};
ghost use Rattle.role_base.specs.Deciding.{Decides};
ghost use Rattle.role_base.specs.Leads.{of_arrival};
ghost use Rattle.distribution_role.specs.Rows.{distribution_row, distribution_lead};

use crate::recovery::ers;
use crate::requests::rsi;
use csm_grammar::Message;
use party_state::{Decision, Input, Lead, State};
use role_base::{body_issuer, centre_command, other_class, unserved};
use std::alloc::Global;
use x_base::NoMemory;

/// What a distribution centre decides of a command or of a message that arrives, at a moment, with
/// the key under which the message's code is tested (ANSI X9.17; the order of the tests is this
/// project's profile).
///
/// The change has the edits that make a difference. The only error is want of memory.
pub fn decide(
    alloc: Global,
    state: &State,
    input: &Input,
    lead: &Option<Lead>,
    moment: u64,
) -> Result<Decision, NoMemory>
    requires { lead.now ≡ of_arrival (λ a. distribution_lead state.now a a.parsed.message) input.now }
    ensures { Decides state.now (distribution_row state.now input.now moment) result }
{
    match input {
        Input::Ordered(order) => centre_command(alloc, state, order),
        Input::Arrived(arrival) => match &arrival.parsed.message {
            Message::Rsi(message) => rsi(alloc, state, arrival, message, moment),
            Message::Ers(message) => ers(alloc, state, arrival, message, lead, moment),
            Message::Rfs(m) => Ok(other_class(state, &m.receiver, &m.originator, &m.originator)),
            Message::Rtr(m) => Ok(other_class(state, &m.receiver, &m.originator, &m.originator)),
            Message::Ksm(m) => {
                let known = body_issuer(&m.originator, &m.body);
                Ok(other_class(state, &m.receiver, &m.originator, &known))
            }
            Message::Rsm(m) => Ok(unserved(state, &m.receiver, &m.originator)),
            Message::Esm(m) => Ok(unserved(state, &m.receiver, &m.originator)),
            Message::Dsm(m) => Ok(unserved(state, &m.receiver, &m.originator)),
        },
    }
}
