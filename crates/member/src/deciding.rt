// What a party decides, by its role, and by the class of a message that arrives.
ghost use Rattle.std.specs.Prelude.{◌≡◌, IfOk};
ghost use Rattle.member.specs.Deciding.{IsDecided};
ghost use Rattle.member.specs.Leads.{lead_in};

use crate::laws::{law_passing, law_ranged, law_taking};
use bank_arrivals::{dsm, esm, rsi, rsm};
use bank_keys::{ksm, rtr};
use bank_orders::command;
use csm_grammar::Message;
use party_state::{Decision, Input, Lead, State};
use role_base::{law_input, other_class};
use std::alloc::Global;
use x_base::{NoMemory, Role};

/// What a party decides of a command or of a message that arrives, at a moment (microseconds since
/// 1970), with the key under which the message's code is tested: so the code is tested once (ANSI X9.17; the order of the tests
/// is this project's profile).
///
/// The change has the edits that make a difference. The only error is want of memory.
pub fn decide(
    alloc: Global,
    state: &State,
    input: &Input,
    lead: &Option<Lead>,
    moment: u64,
) -> Result<Decision, NoMemory>
    requires { lead.now ≡ lead_in state.now input.now }
    ensures { IfOk result (IsDecided state.now input.now moment) }
{
    // Tell which keys are taken, which go on, and that what is written is short.
    law_taking();
    law_passing();
    law_ranged();
    state.law_party();
    law_input(input);
    match state.role() {
        Role::Distribution => distribution_role::decide(alloc, state, input, lead, moment),
        Role::Translation => translation_role::decide(alloc, state, input, lead, moment),
        Role::Bank => match input {
            Input::Ordered(order) => command(alloc, state, order, moment),
            Input::Arrived(arrival) => match &arrival.parsed.message {
                Message::Rsi(m) => rsi(alloc, state, arrival, m, moment),
                Message::Rfs(m) => Ok(other_class(
                    state,
                    &m.receiver,
                    &m.originator,
                    &m.originator,
                )),
                Message::Rtr(m) => rtr(alloc, state, arrival, m, lead),
                Message::Ksm(m) => ksm(alloc, state, arrival, m, lead),
                Message::Rsm(m) => rsm(alloc, state, arrival, m, lead),
                Message::Ers(m) => Ok(other_class(
                    state,
                    &m.receiver,
                    &m.originator,
                    &m.originator,
                )),
                Message::Esm(m) => esm(alloc, state, arrival, m, lead),
                Message::Dsm(m) => dsm(alloc, state, arrival, m, lead),
            },
        },
    }
}
