// Moving bytes from a source.
ghost use Rattle.std.specs.Prelude.{◌≡◌, ◌≤◌, ◌<◌, length, IfOk};
ghost use Rattle.x_base.specs.Edge.{Rose};
ghost use Rattle.call_ends.specs.Transfer.{IsAtEnd, IsFront, Took, TookAtMost};

use std::alloc::Global;
use x_base::{Source, Text};

/// Why no text was taken.
#[derive(Clone, Copy)]
pub enum GatherError {
    Fault,
    NoMemory,
}

/// Takes bytes until the end or the limit, each turn at least one.
#[tactic(auto, using(crate::proofs::Transfers::took_none, crate::proofs::Transfers::took_more, crate::proofs::Transfers::took_piece, crate::proofs::Transfers::ended))]
pub fn gather<S: Source>(alloc: Global, source: &mut S, limit: usize) -> Result<Text, GatherError>
    ensures bound { IfOk result (λ text. length text ≤ limit) }
    ensures took { IfOk result (λ text. Took (S.left source.old) (S.left source.new) text) }
    ensures front { IfOk result (λ text. IsFront limit (S.left source.old) text) }
    ensures end { IfOk result (λ text. length text < limit → IsAtEnd (S.left source.old) (S.left source.new)) }
    ensures fault { result ≡ Err GatherError.Fault → Rose (S.faults source.old) (S.faults source.new) }
    ensures most { TookAtMost limit (S.left source.old) (S.left source.new) }
{
    let mut text = Text::new(alloc);
    let mut buf = [0u8; 4096];
    'taking: while text.bytes().len() < limit {
        let want = (limit - text.bytes().len()).min(buf.len());
        let Ok(n) = source.take(&mut buf[..want]) else {
            return Err(GatherError::Fault);
        };
        if n == 0 {
            break 'taking;
        }
        let Ok(()) = text.push(&buf[..n]) else {
            return Err(GatherError::NoMemory);
        };
    }
    Ok(text)
}
