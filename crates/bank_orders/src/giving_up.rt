// Giving an exchange up.
ghost use Rattle.std.specs.Prelude.{◌≡◌, IfOk};
ghost use Rattle.role_base.specs.Deciding.{Decides};
ghost use Rattle.bank_orders.specs.GivingUp.{given_up, given_up_in, drop};

use party_state::{Decision, Edit, Exchange, Kind, State, law_found};
use role_base::{
    accept, dropped, ended, joined, list_of, new_link, record_behind, record_of, refusal,
};
use std::alloc::Global;
use x_base::{Ident, NoMemory, Verdict};

/// What becomes of what the exchange names.
fn given_up(alloc: Global, state: &State, peer: &Ident, kind: &Kind) -> Result<Vec<Edit>, NoMemory>
    ensures { IfOk result (λ edits. edits.items ≡ given_up state.now peer.now kind.now) }
{
    match kind {
        Kind::KeySent { name, via } => {
            let link = dropped(alloc, new_link(state, peer, via))?;
            joined(link, ended(alloc, record_of(state, peer, name))?)
        }
        Kind::PairSent { name } => {
            let first = ended(alloc, record_of(state, peer, name))?;
            joined(first, ended(alloc, record_behind(state, peer, name))?)
        }
        Kind::Asked { .. } | Kind::Translating { .. } | Kind::Ending { .. } => {
            Ok(Vec::new(alloc))
        }
    }
}

fn given_up_in(
    alloc: Global,
    state: &State,
    peer: &Ident,
    exchange: &Exchange,
) -> Result<Vec<Edit>, NoMemory>
    ensures { IfOk result (λ edits. edits.items ≡ given_up_in state.now peer.now (Some exchange.now)) }
{
    let gone = list_of(alloc, [Edit::DropExchange { peer: *peer }])?;
    joined(given_up(alloc, state, peer, &exchange.kind)?, gone)
}

/// What a bank decides where the exchange with a peer is to be given up.
#[tactic(auto, using(role_base::proofs::Kept::is_refused))]
pub(crate) fn drop_exchange(
    alloc: Global,
    state: &State,
    peer: &Ident,
) -> Result<Decision, NoMemory>
    ensures { Decides state.now (drop state.now peer.now) result }
{
    // Tells that what is found has the key under which it was looked for.
    law_found();
    match state.exchange(peer) {
        Some(exchange) => {
            let edits = given_up_in(alloc, state, peer, exchange)?;
            accept(alloc, state, edits, None)
        }
        None => Ok(refusal(Verdict::NoExchange)),
    }
}
