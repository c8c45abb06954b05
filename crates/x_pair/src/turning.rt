// A party on two disks has a turn.
ghost use Rattle.std.specs.Prelude.{◌≡◌, ◌≢◌, option_map};
ghost use Rattle.csm_grammar.specs.declared.arrival.Arrival.{Arrival};
ghost use Rattle.party_state.specs.declared.command.Input.TheVariants.{Arrived};
ghost use Rattle.x_party.specs.Notices.{class_word};
ghost use Rattle.x_pair.specs.Dues.{GivesDuePair, IsDueTurn};
ghost use Rattle.x_pair.specs.Notices.{HasPairNotice};
ghost use Rattle.x_pair.specs.Outcomes.{MakesPair, IsSafePair, LeavesBoth, turning};

use crate::acting::turn_over;
use crate::closing::{closed, failure};
use csm_grammar::Arrival;
use disk_pair::{fetch_two, put_back_two};
use key_store::law_one_finding;
use mirror_store::law_recovers;
use party_state::Input;
use std::alloc::Global;
use x_base::Ident;
use x_disk::Shelf;
use x_party::{Outcome, TurnWithNotice, class_word, law_one_space};

/// The turn with an input, and its notice, where the word of the class of the input's message is given.
fn turn_noticed<H: Shelf>(
    alloc: Global,
    shelf: &mut H,
    name: &Ident,
    mirror: &Ident,
    input: &Input,
    class: Option<&[u8]>,
    moment: u64,
) -> TurnWithNotice
    requires { name.now ≢ mirror.now }
    ensures turned { MakesPair (turning name.now input.now moment) (H.entry shelf.old name.now) (H.entry shelf.old mirror.now) (H.entry shelf.new name.now) (H.entry shelf.new mirror.now) result.outcome }
    ensures safe { IsSafePair (turning name.now input.now moment) (H.entry shelf.old name.now) (H.entry shelf.old mirror.now) (H.entry shelf.new name.now) (H.entry shelf.new mirror.now) }
    ensures due { GivesDuePair (H.entry shelf.old name.now) (H.entry shelf.old mirror.now) (IsDueTurn name.now input.now moment) result.outcome }
    ensures shelf { LeavesBoth name.now mirror.now result.outcome (H.is_back shelf.new name.now) (H.is_back shelf.new mirror.now) (H.entry shelf.old) (H.entry shelf.new) (H.faults shelf.old) (H.faults shelf.new) }
    ensures notice { (a : Arrival) → input.now ≡ Arrived a → option_map (λ w. w.now) class.entry ≡ Some (class_word a.parsed.message) → HasPairNotice (H.entry shelf.old name.now) (H.entry shelf.old mirror.now) a moment result.outcome result.notice }
{
    law_one_finding();
    law_one_space();
    law_recovers();
    let disks = match fetch_two(shelf, name, mirror) {
        Ok(disks) => disks,
        Err(cause) => {
            return TurnWithNotice {
                outcome: failure(cause),
                notice: None,
            };
        }
    };
    let (disks, outcome, notice) = turn_over(alloc, disks, name, input, class, moment);
    let put = put_back_two(shelf, name, mirror, disks);
    let outcome = closed(outcome, put);
    TurnWithNotice::of(outcome, notice)
}

/// Opens the party on its two disks, which repairs the one that lacks it, and gives it its turn with an operator's command or a
/// message that arrived, at a moment: it decides, the change is kept on the first disk and then on the second, and then the reply
/// is handed out. A party whose own identity isn't the name isn't asked. Both disks are put back, whatever comes.
///
/// `Refused` and `OtherParty` leave the party as it was. Where one was opened both disks stand for it: the opening may have made
/// the one that lacked it. `OtherParty` has the name and that party's own identity then. Where the two disks stand for parties
/// of different identities it has these, and nothing is written; nor is anything where `Refused` comes because no party
/// stands on either disk, or because the party isn't on both and is too large for one frame.
pub fn turn_pair<H: Shelf>(
    alloc: Global,
    shelf: &mut H,
    name: &Ident,
    mirror: &Ident,
    input: &Input,
    moment: u64,
) -> Outcome
    requires { name.now ≢ mirror.now }
    ensures turned { MakesPair (turning name.now input.now moment) (H.entry shelf.old name.now) (H.entry shelf.old mirror.now) (H.entry shelf.new name.now) (H.entry shelf.new mirror.now) result }
    ensures safe { IsSafePair (turning name.now input.now moment) (H.entry shelf.old name.now) (H.entry shelf.old mirror.now) (H.entry shelf.new name.now) (H.entry shelf.new mirror.now) }
    ensures due { GivesDuePair (H.entry shelf.old name.now) (H.entry shelf.old mirror.now) (IsDueTurn name.now input.now moment) result }
    ensures shelf { LeavesBoth name.now mirror.now result (H.is_back shelf.new name.now) (H.is_back shelf.new mirror.now) (H.entry shelf.old) (H.entry shelf.new) (H.faults shelf.old) (H.faults shelf.new) }
{
    let turn = turn_noticed(alloc, shelf, name, mirror, input, None, moment);
    turn.outcome
}

/// A turn as that of `turn_pair`, with a message that arrived, and where it is done its notice: the class of the message, and the
/// name and the status of each data key whose record was put. The notice is made when the party is opened, before its turn: where
/// no memory is left for it, `NoMemory` comes, and the party has no turn.
pub fn turn_pair_with_notice<H: Shelf>(
    alloc: Global,
    shelf: &mut H,
    name: &Ident,
    mirror: &Ident,
    arrival: Arrival,
    moment: u64,
) -> TurnWithNotice
    requires { name.now ≢ mirror.now }
    ensures turned { MakesPair (turning name.now (Arrived arrival) moment) (H.entry shelf.old name.now) (H.entry shelf.old mirror.now) (H.entry shelf.new name.now) (H.entry shelf.new mirror.now) result.outcome }
    ensures safe { IsSafePair (turning name.now (Arrived arrival) moment) (H.entry shelf.old name.now) (H.entry shelf.old mirror.now) (H.entry shelf.new name.now) (H.entry shelf.new mirror.now) }
    ensures due { GivesDuePair (H.entry shelf.old name.now) (H.entry shelf.old mirror.now) (IsDueTurn name.now (Arrived arrival) moment) result.outcome }
    ensures shelf { LeavesBoth name.now mirror.now result.outcome (H.is_back shelf.new name.now) (H.is_back shelf.new mirror.now) (H.entry shelf.old) (H.entry shelf.new) (H.faults shelf.old) (H.faults shelf.new) }
    ensures notice { HasPairNotice (H.entry shelf.old name.now) (H.entry shelf.old mirror.now) arrival moment result.outcome result.notice }
{
    let class = class_word(&arrival.parsed.message);
    let input = Input::Arrived(arrival);
    turn_noticed(alloc, shelf, name, mirror, &input, Some(class), moment)
}
