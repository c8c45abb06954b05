// The check value of a party's link.
ghost use Rattle.std.specs.Prelude.{◌≡◌, ◌⊎◌};
ghost use Rattle.x_disk.specs.Disk.{IsUntouched};
ghost use Rattle.x_party.specs.Asking.{AsksParty, IsDueAnswer, value_answer};
ghost use Rattle.x_party.specs.Outcomes.{LeavesShelf};
ghost use Rattle.x_party.specs.Dues.{GivesDue};

use crate::closing::put_back;
use crate::opening::open;
use crate::outcome::Outcome;
use key_store::law_one_finding;
use pair_check::check_value;
use party_state::State;
use party_tables::LinkKey;
use std::alloc::Global;
use x_base::{Ident, Verdict};
use x_disk::Shelf;

fn answer_of(alloc: Global, state: &State, key: LinkKey) -> Outcome
    ensures { (result ≡ value_answer key state.now) ⊎ (result ≡ Outcome.NoMemory) }
{
    let known = state.knows(&key.peer);
    match state.link(&key.peer, &key.label, key.side) {
        Some(link) => match check_value(alloc, link.pair) {
            Ok(text) => Outcome::Done { reply: Some(text) },
            Err(_) => Outcome::NoMemory,
        },
        None if known => Outcome::Refused {
            verdict: Verdict::UnknownKk,
            reply: None,
        },
        None => Outcome::Refused {
            verdict: Verdict::UnknownPeer,
            reply: None,
        },
    }
}

/// The check value of the key-encrypting key of this peer, label and side, ready or not. It is refused as a start under a key
/// that isn't there: with `UnknownPeer` where no link names the peer, and otherwise with `UnknownKk`. Nothing is written, and the
/// disk is put back, whatever comes.
pub fn value<H: Shelf>(alloc: Global, shelf: &mut H, name: &Ident, key: LinkKey) -> Outcome
    ensures valued { AsksParty (value_answer key) (H.entry shelf.old name.now) (H.entry shelf.new name.now) result }
    ensures due { GivesDue (H.entry shelf.old name.now) (IsDueAnswer (value_answer key)) result }
    ensures untouched { IsUntouched (H.entry shelf.old name.now) (H.entry shelf.new name.now) }
    ensures shelf { LeavesShelf name.now result (H.is_back shelf.new name.now) (H.entry shelf.old) (H.entry shelf.new) (H.faults shelf.old) (H.faults shelf.new) }
{
    law_one_finding();
    let node = match open(alloc, shelf, name) {
        Ok(node) => node,
        Err(outcome) => return outcome,
    };
    let outcome = answer_of(alloc, node.view(), key);
    put_back(shelf, name, node.into_disk(), outcome)
}
