// A party has a turn with a message, and a notice is made of it.
ghost use Rattle.std.specs.Prelude.{◌≡◌};
ghost use Rattle.csm_grammar.specs.declared.arrival.Arrival.{Arrival};
ghost use Rattle.party_state.specs.declared.command.Input.TheVariants.{Arrived};
ghost use Rattle.x_party.specs.Outcomes.{TakesTurn, IsSafe, LeavesShelf};
ghost use Rattle.x_party.specs.Dues.{IsDue, GivesDue};
ghost use Rattle.x_party.specs.Notices.{HasNotice, class_word, kept_notice};

use crate::looking::look;
use crate::outcome::Outcome;
use crate::turning::turn;
use crate::wording::class_word;
use csm_grammar::Arrival;
use party_state::Input;
use std::alloc::Global;
use x_base::{Ident, Text};
use x_disk::Shelf;

/// What became of a turn, and its notice.
#[derive(Drop)]
pub struct TurnWithNotice {
    pub outcome: Outcome,
    /// A line, with its line feed.
    pub notice: Option<Text>,
}

impl TurnWithNotice {
    /// The notice is kept where the turn is done.
    pub fn of(outcome: Outcome, notice: Option<Text>) -> TurnWithNotice
        ensures outcome { result.outcome ≡ outcome }
        ensures notice { result.notice ≡ kept_notice outcome notice }
    {
        match outcome {
            Outcome::Done { reply } => TurnWithNotice {
                outcome: Outcome::Done { reply },
                notice,
            },
            other => TurnWithNotice {
                outcome: other,
                notice: None,
            },
        }
    }
}

/// A turn with a message as an input, and its notice, given the word of the message's class.
fn turn_noticed<H: Shelf>(
    alloc: Global,
    shelf: &mut H,
    name: &Ident,
    input: &Input,
    class: &[u8],
    moment: u64,
) -> TurnWithNotice
    ensures turned { TakesTurn name.now (H.entry shelf.old name.now) (H.entry shelf.new name.now) input.now moment result.outcome }
    ensures safe { IsSafe name.now (H.entry shelf.old name.now) (H.entry shelf.new name.now) input.now moment }
    ensures due { GivesDue (H.entry shelf.old name.now) (IsDue name.now input.now moment) result.outcome }
    ensures shelf { LeavesShelf name.now result.outcome (H.is_back shelf.new name.now) (H.entry shelf.old) (H.entry shelf.new) (H.faults shelf.old) (H.faults shelf.new) }
    ensures notice { (a : Arrival) → input.now ≡ Arrived a → class.now ≡ class_word a.parsed.message → HasNotice (H.entry shelf.old name.now) a moment result.outcome result.notice }
{
    match look(alloc, shelf, name, input, class, moment) {
        Ok(notice) => {
            let outcome = turn(alloc, shelf, name, input, moment);
            TurnWithNotice::of(outcome, notice)
        }
        Err(error) => TurnWithNotice {
            outcome: Outcome::from(error),
            notice: None,
        },
    }
}

/// A party's turn with a message that arrived, at a moment, and where it is done its notice: the class of the message, and the
/// name and the status of each data key whose record was put. The party is looked at before its turn, so its disk is fetched
/// twice.
pub fn turn_with_notice<H: Shelf>(
    alloc: Global,
    shelf: &mut H,
    name: &Ident,
    arrival: Arrival,
    moment: u64,
) -> TurnWithNotice
    ensures turned { TakesTurn name.now (H.entry shelf.old name.now) (H.entry shelf.new name.now) (Arrived arrival) moment result.outcome }
    ensures safe { IsSafe name.now (H.entry shelf.old name.now) (H.entry shelf.new name.now) (Arrived arrival) moment }
    ensures due { GivesDue (H.entry shelf.old name.now) (IsDue name.now (Arrived arrival) moment) result.outcome }
    ensures shelf { LeavesShelf name.now result.outcome (H.is_back shelf.new name.now) (H.entry shelf.old) (H.entry shelf.new) (H.faults shelf.old) (H.faults shelf.new) }
    ensures notice { HasNotice (H.entry shelf.old name.now) arrival moment result.outcome result.notice }
{
    let class = class_word(&arrival.parsed.message);
    let input = Input::Arrived(arrival);
    turn_noticed(alloc, shelf, name, &input, class, moment)
}
