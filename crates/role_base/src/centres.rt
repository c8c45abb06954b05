// What the two centres share: how the tests of a request begin, what neither serves, and the commands
// of a centre.
ghost use Rattle.std.specs.Prelude.{◌≡◌};
ghost use Rattle.role_base.specs.Deciding.{Decides, IsDecision};
ghost use Rattle.role_base.specs.Centres.{request_front, unserved, centre_command};

use crate::conditions::{is_for, is_of_centre};
use crate::decisions::refusal;
use crate::loading::load;
use crate::verdicts::verdict_of;
use party_state::{Command, Decision, State};
use std::alloc::Global;
use x_base::{Ident, NoMemory, Verdict};

/// The first tests of a request: it is for this centre, from a bank that it knows, and served.
pub fn request_front(
    state: &State,
    receiver: &Ident,
    originator: &Ident,
    served: bool,
) -> [(bool, Verdict); 3]
    ensures { result ≡ request_front state.now receiver.now originator.now served }
{
    [
        (is_for(state, receiver, originator), Verdict::NotForMe),
        (state.knows(originator), Verdict::UnknownPeer),
        (served, Verdict::WrongClass),
    ]
}

/// What a centre decides of a response, an error message or a disconnection. It doesn't look
/// whether the sender is known.
#[tactic(auto, using(crate::proofs::Kept::is_refused))]
pub fn unserved(state: &State, receiver: &Ident, originator: &Ident) -> Decision
    ensures { IsDecision state.now (unserved state.now receiver.now originator.now) result }
{
    refusal(verdict_of(&[
        (is_for(state, receiver, originator), Verdict::NotForMe),
        (false, Verdict::WrongClass),
    ]))
}

/// What a centre decides of a command: it loads key-encrypting keys with the label of the links
/// with centres, and serves nothing else. The only error is want of memory.
#[tactic(auto, using(crate::proofs::Kept::is_refused))]
pub fn centre_command(alloc: Global, state: &State, command: &Command) -> Result<Decision, NoMemory>
    ensures { Decides state.now (centre_command state.now command.now) result }
{
    match command {
        Command::Load {
            peer,
            label,
            side,
            pair,
        } => {
            if is_of_centre(label) {
                load(alloc, state, peer, label, *side, *pair)
            } else {
                Ok(refusal(Verdict::WrongClass))
            }
        }
        Command::Start { .. }
        | Command::StartKk { .. }
        | Command::Ask { .. }
        | Command::Translate { .. }
        | Command::Resend { .. }
        | Command::End { .. }
        | Command::Drop { .. }
        | Command::Purge => Ok(refusal(Verdict::WrongClass)),
    }
}
