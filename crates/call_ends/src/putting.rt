// A text is put into a sink.
ghost use Rattle.std.specs.Prelude.{◌≡◌, ◌⊎◌, ◌++◌, OnOk, OnErr};
ghost use Rattle.x_base.specs.Edge.{Rose, AppendsTo, WrotePrefix};
ghost use Rattle.call_ends.specs.Puts.{Puts};

use crate::status::Status;
use x_base::{Sink, SinkFault, Text, put_all};

/// Puts the text and then its ending, without memory.
#[tactic(auto, using(crate::proofs::Endings::both_whole, crate::proofs::Endings::first_part, crate::proofs::Endings::second_part, crate::proofs::Endings::rose_later))]
fn put_both<K: Sink>(sink: &mut K, text: &[u8], ending: &[u8]) -> Result<(), SinkFault>
    ensures whole { OnOk result (AppendsTo (K.written sink.old) (K.written sink.new) (text.now ++ ending.now)) }
    ensures part { OnErr result (WrotePrefix (K.written sink.old) (K.written sink.new) (text.now ++ ending.now)) }
    ensures fault { OnErr result (Rose (K.faults sink.old) (K.faults sink.new)) }
{
    put_all(sink, text)?;
    put_all(sink, ending)
}

/// Puts a text, where there is one; the status is the answer where that doesn't fail.
pub fn put_text<K: Sink>(sink: &mut K, text: Option<Text>, ending: &[u8], answer: Status) -> Status
    ensures puts { Puts text ending.now answer result (K.written sink.old) (K.written sink.new) }
    ensures fault { (result ≡ answer) ⊎ Rose (K.faults sink.old) (K.faults sink.new) }
{
    let Some(text) = text else {
        return answer;
    };
    match put_both(sink, text.bytes(), ending) {
        Ok(()) => answer,
        Err(_) => Status::WriteFault,
    }
}
