// A body more, or the state as one body.
ghost use Rattle.std.specs.Prelude.{◌≡◌, ◌+◌, ◌≤◌, length, IfOk};
ghost use Rattle.key_journal.specs.Layout.{area_size};
ghost use Rattle.key_journal.specs.States.{other_start};
ghost use Rattle.journal_state.specs.Keeping.{IsFrameOf, IsKept, IsReplaced};
ghost use Rattle.journal_state.specs.States.{IsStanding, stood};

use crate::judge::Judge;
use crate::standing::Standing;
use key_journal::{Broken, Ready};
use x_disk::Disk;

impl<D: Disk, J: Judge> Standing<D, J> {
    /// Keeps the body of this frame, which leads to the next state. Makes disk calls alone.
    pub fn keep(self, frame: &[u8], next: J) -> Result<Standing<D, J>, Broken<D>>
        requires fits { self.gate + 1 + length frame.now ≤ self.end }
        requires frame { IsFrameOf J.step frame.now self.state next }
        ensures { IsKept J.step J.start D.told self (length frame.now) next result }
    {
        Standing::keep_behind(self.ready, frame, next)
    }

    /// The same of a journal and its state that were taken apart: the state before isn't needed any more, so that the next one
    /// may be made of it in place.
    pub fn keep_behind(ready: Ready<D>, frame: &[u8], next: J) -> Result<Standing<D, J>, Broken<D>>
        requires fits { ready.gate + 1 + length frame.now ≤ ready.end }
        requires frame { (old : J) × IsStanding J.step J.start (D.told ready.disk) ready.gate ready.end old × IsFrameOf J.step frame.now old next }
        ensures { (old : J) → IsStanding J.step J.start (D.told ready.disk) ready.gate ready.end old → IsFrameOf J.step frame.now old next
            → IsKept J.step J.start D.told (stood ready old) (length frame.now) next result }
    {
        match ready.stage(frame) {
            Err(broken) => Err(broken),
            Ok(staged) => match staged.commit() {
                Err(broken) => Err(broken),
                Ok(ready) => Ok(Standing { ready, state: next }),
            },
        }
    }

    /// Writes the body of this frame alone into the other area of the journal, and selects that area. The body leads to the
    /// state from the start. Makes disk calls alone.
    pub fn replace(self, frame: &[u8], next: J) -> Result<Standing<D, J>, Broken<D>>
        requires { IsFrameOf J.step frame.now J.start next }
        ensures replaced { IsReplaced J.step J.start D.told self next result }
        ensures place { IfOk result (λ s. (s.gate ≡ other_start self.end + length frame.now) × (s.end ≡ other_start self.end + area_size)) }
    {
        match self.ready.switch(frame) {
            Err(broken) => Err(broken),
            Ok(ready) => Ok(Standing { ready, state: next }),
        }
    }
}
