// A planned event is carried out whole.
ghost use Rattle.std.specs.Prelude.{◌≡◌, true, Err, IfOk, IfErr};
ghost use Rattle.change_code.specs.Cost.{is_change};
ghost use Rattle.member.specs.Member.{after};
ghost use Rattle.node_core.specs.Turns.{member_of};
ghost use Rattle.open_parties.specs.Closing.{AnyFaulty};
ghost use Rattle.open_parties.specs.Crash.{HoldsSince};
ghost use Rattle.replay.specs.Events.{IsWhole, IsLeft};
ghost use Rattle.open_parties.specs.OpenParties.{IsEmptyAt};

use crate::play_state::PlayState;
use course::note;
use key_journal::Unmade;
use node_core::{Planned, Turn};
use open_parties::{Failure, PartyDisk, failure_by};
use x_base::Verdict;
use x_disk::Disk;

/// What is planned at the party that was taken out is carried out whole; what is written is added to the texts, and its
/// fact is noted. The party is put back in its place.
pub(crate) fn play_whole<D: Disk>(
    play_state: &mut PlayState<D>,
    place: usize,
    planned: Planned<D>,
) -> Result<Verdict, Failure>
    requires { IsEmptyAt play_state.old.parties place }
    ensures whole { IfOk result (λ verdict. IsWhole D.told planned play_state.old play_state.new place verdict) }
    ensures left { IfErr result (λ why. IsLeft D.told planned play_state.old.parties play_state.new.parties place why) }
    ensures fault { result ≡ Err Failure.Fault → AnyFaulty D.told play_state.new.parties }
    ensures crash { HoldsSince D.told planned.node (member_of planned.node) (after (member_of planned.node) planned.plan.edits) (is_change planned.plan.edits ≡ true) play_state.old.parties play_state.new.parties place }
{
    match planned.carry_out() {
        Turn::Done {
            node,
            verdict,
            reply,
            under,
        } => {
            play_state.parties.put_in(place, PartyDisk::Open(node));
            note(&mut play_state.facts, &mut play_state.texts, under, &reply)?;
            Ok(verdict)
        }
        Turn::Broken(broken) => {
            let Unmade { disk, cause } = broken.give_up();
            play_state.parties.put_in(place, PartyDisk::Closed(disk));
            Err(failure_by(cause))
        }
        Turn::NoMemory(node) => {
            play_state.parties.put_in(place, PartyDisk::Open(node));
            Err(Failure::NoMemory)
        }
    }
}
