// A message is heard from a source.
ghost use Rattle.std.specs.Prelude.{◌≡◌, [], Some, IfSome, IfOk, IfErr};
ghost use Rattle.x_base.specs.Edge.{Rose};
ghost use Rattle.csm_feed.specs.Heard.{input_limit};
ghost use Rattle.call_ends.specs.Listening.{IsHeard, IsUnheard};
ghost use Rattle.call_ends.specs.Transfer.{TookAtMost};

use crate::status::{Refusal, Status};
use csm_feed::{INPUT_LIMIT, hear};
use csm_grammar::Arrival;
use std::alloc::Global;
use x_base::{NoMemory, Source};

/// Takes the bytes of an input and hears the message in them.
pub fn listen<S: Source>(alloc: Global, source: &mut S) -> Result<Arrival, Status>
    ensures heard { IfOk result (λ a. IfSome (S.left source.old) (λ all. IsHeard all a × (S.left source.new ≡ Some []))) }
    ensures unheard { IfErr result (IsUnheard (S.left source.old)) }
    ensures read_fault { IfErr result (λ s. s ≡ Status.ReadFault → Rose (S.faults source.old) (S.faults source.new)) }
    ensures most { TookAtMost input_limit (S.left source.old) (S.left source.new) }
{
    let mut input = [0u8; INPUT_LIMIT];
    let mut count = 0;
    let mut ended = false;
    'taking: while !ended && count < INPUT_LIMIT {
        let Ok(n) = source.take(&mut input[count..]) else {
            return Err(Status::ReadFault);
        };
        ended = n == 0;
        count += n;
    }
    match hear(alloc, &input[..count]) {
        Ok(Ok(arrival)) => Ok(arrival),
        Ok(Err(unheard)) => Err(Status::Refused(Refusal::Unheard(unheard))),
        Err(NoMemory) => Err(Status::NoMemory),
    }
}
