// The key under which the code of an arrival is tested.
ghost use Rattle.std.specs.Prelude.{◌≡◌};
ghost use Rattle.role_base.specs.Leads.{of_arrival};
ghost use Rattle.distribution_role.specs.Rows.{distribution_lead};

use crate::recovery::ers_lead;
use csm_grammar::Message;
use party_state::{Input, Lead, State};

/// The key under which the authentication code of an arrival is tested, with its full name, and
/// whether the code is the one carried. It is none exactly of a command, and where the arrival is
/// closed by an error detection code, or is refused before its code is looked at. It takes no memory.
pub fn lead(state: &State, input: &Input) -> Option<Lead>
    ensures { result ≡ of_arrival (λ a. distribution_lead state.now a a.parsed.message) input.now }
{
    match input {
        Input::Ordered(_) => None,
        Input::Arrived(arrival) => match &arrival.parsed.message {
            Message::Ers(message) => ers_lead(state, arrival, message),
            Message::Rsi(_)
            | Message::Rfs(_)
            | Message::Rtr(_)
            | Message::Ksm(_)
            | Message::Rsm(_)
            | Message::Esm(_)
            | Message::Dsm(_) => None,
        },
    }
}
