// The show lines of each party are written.
ghost use Rattle.std.specs.Prelude.{Err, IfErr, OnOk, OnErr};
ghost use Rattle.x_base.specs.Edge.{AppendsTo, WrotePrefix};
ghost use Rattle.party_show.specs.Show.{shown};
ghost use Rattle.replay.specs.Around.{SinkStays};
ghost use Rattle.open_parties.specs.OpenParties.{AreOpen, members};
ghost use Rattle.replay.specs.Showing.{IsWriteEnd};
ghost use Rattle.course.specs.Transcript.{show_lines};

use open_parties::{Ending, OpenParties};
use party_show::show_text;
use party_state::State;
use std::alloc::Global;
use x_base::{Sink, SinkFault, put_all};
use x_disk::Disk;

/// Writes the show lines of a party.
#[tactic(auto, using(crate::proofs::Unfinished::wrote_none))]
fn write_show<K: Sink>(sink: &mut K, alloc: Global, state: &State) -> Result<(), Ending>
    ensures written { OnOk result (AppendsTo (K.written sink.old) (K.written sink.new) (shown state.now)) }
    ensures part { OnErr result (WrotePrefix (K.written sink.old) (K.written sink.new) (shown state.now)) }
    ensures ends { IfErr result IsWriteEnd }
    ensures sink { SinkStays (K.faults sink.old) (K.faults sink.new) result }
{
    let text = show_text(alloc, state)?;
    match put_all(sink, text.bytes()) {
        Ok(()) => Ok(()),
        Err(SinkFault) => Err(Ending::Write),
    }
}

/// Writes the show lines of each party, in their order.
pub(crate) fn write_shows<K: Sink, D: Disk>(
    sink: &mut K,
    alloc: Global,
    parties: &OpenParties<D>,
) -> Result<(), Ending>
    requires { AreOpen parties.now }
    ensures written { OnOk result (AppendsTo (K.written sink.old) (K.written sink.new) (show_lines (members parties.now))) }
    ensures part { OnErr result (WrotePrefix (K.written sink.old) (K.written sink.new) (show_lines (members parties.now))) }
    ensures ends { IfErr result IsWriteEnd }
    ensures sink { SinkStays (K.faults sink.old) (K.faults sink.new) result }
{
    for place in 0..parties.len() {
        write_show(sink, alloc, parties.view_at(place))?;
    }
    Ok(())
}
