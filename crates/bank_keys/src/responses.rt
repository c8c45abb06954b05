// A centre's answer arrives, with the key or without.
ghost use Rattle.std.specs.Prelude.{◌≡◌};
ghost use Rattle.role_base.specs.Deciding.{Decides};
ghost use Rattle.bank_keys.specs.Rtr.{rtr, rtr_lead};

use crate::from_distribution::{brought, brought_lead};
use crate::from_translation::{translated, translated_lead};
use csm_grammar::{Arrival, Rtr};
use party_state::{Decision, Lead, State};
use std::alloc::Global;
use x_base::NoMemory;

/// Decides of a centre's answer, with the key under which its code is tested.
///
/// The change has the edits that make a difference. The only error is want of memory.
pub fn rtr(
    alloc: Global,
    state: &State,
    arrival: &Arrival,
    message: &Rtr,
    lead: &Option<Lead>,
) -> Result<Decision, NoMemory>
    requires { lead.now ≡ rtr_lead state.now arrival.now message.now }
    ensures { Decides state.now (rtr state.now arrival.now message.now) result }
{
    match &message.kd {
        Some(kd) => brought(alloc, state, arrival, message, kd, lead),
        None => translated(alloc, state, arrival, message, lead),
    }
}

/// The key under which the code of a centre's answer is tested: the one that it brings, or the one
/// that is with the centre. There is none where the answer is refused before its code is looked at.
pub fn rtr_lead(state: &State, arrival: &Arrival, message: &Rtr) -> Option<Lead>
    ensures { result ≡ rtr_lead state.now arrival.now message.now }
{
    match &message.kd {
        Some(kd) => brought_lead(state, arrival, message, kd),
        None => translated_lead(state, arrival, message),
    }
}
