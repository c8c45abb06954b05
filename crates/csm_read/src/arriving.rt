// How an arrival comes to be.
ghost use Rattle.std.specs.Prelude.{◌≡◌, ◌⊎◌, take, IfOk, IfErr, Err};
ghost use Rattle.csm_grammar.specs.declared.parsed.Parsed.{Parsed};
ghost use Rattle.csm_grammar.specs.declared.refusal.ReadRefusal.{ReadRefusal};
ghost use Rattle.csm_grammar.specs.Reading.{IsRead};
ghost use Rattle.csm_read.specs.Faults.{IsFault};

use crate::reading::answer;
use csm_grammar::{Arrival, ReadRefusal};
use std::alloc::Global;
use x_base::Text;

/// Reads the message that begins at byte 0, and keeps its spelling.
pub fn read_arrival(alloc: Global, bytes: &[u8]) -> Result<Arrival, ReadRefusal>
    ensures found { IfOk result (λ a. IsRead bytes.now a.parsed × (a.text ≡ take a.parsed.len bytes.now)) }
    ensures only { (p : Parsed) → IsRead bytes.now p → IfErr result (λ r. r ≡ ReadRefusal.NoMemory) }
    ensures faulted { (r : ReadRefusal) → result ≡ Err r → IsFault bytes.now r ⊎ (r ≡ ReadRefusal.NoMemory) }
    ensures faults { (r : ReadRefusal) → IsFault bytes.now r → (result ≡ Err r) ⊎ (result ≡ Err ReadRefusal.NoMemory) }
{
    let parsed = match answer(alloc, bytes) {
        Ok(parsed) => parsed,
        Err(refusal) => return Err(refusal),
    };
    let (spelling, _) = bytes.split_at(parsed.len);
    let mut text = Text::new(alloc);
    match text.push(spelling) {
        Ok(()) => Ok(Arrival { parsed, text }),
        Err(_) => Err(ReadRefusal::NoMemory),
    }
}
