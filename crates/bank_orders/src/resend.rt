// Writing the text of an exchange again, as it is kept.
ghost use Rattle.role_base.specs.Deciding.{Decides};
ghost use Rattle.bank_orders.specs.Resend.{resend};

use party_state::{Decision, State};
use role_base::{Written, accept, refusal};
use std::alloc::Global;
use x_base::{Ident, NoMemory, Verdict};

/// What a bank decides where the text of the exchange with a peer is to be written again.
#[tactic(auto, using(role_base::proofs::Kept::is_refused))]
pub(crate) fn resend(alloc: Global, state: &State, peer: &Ident) -> Result<Decision, NoMemory>
    ensures { Decides state.now (resend state.now peer.now) result }
{
    match state.exchange(peer) {
        Some(exchange) => {
            let written = Written::again(alloc, &exchange.text)?;
            accept(alloc, state, Vec::new(alloc), Some(written))
        }
        None => Ok(refusal(Verdict::NoExchange)),
    }
}
