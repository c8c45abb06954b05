// A journal is made on a blank disk.
ghost use Rattle.std.specs.Prelude.{◌≡◌, ◌+◌, length, IfOk};
ghost use Rattle.key_journal.specs.Layout.{first_start, second_start};
ghost use Rattle.journal_state.specs.Making.{IsMade};
ghost use Rattle.journal_state.specs.Keeping.{IsFrameOf};

use crate::judge::Judge;
use crate::standing::Standing;
use key_journal::{Unmade, prepare};
use x_disk::Disk;

impl<D: Disk, J: Judge> Standing<D, J> {
    /// Makes a journal with the body of this frame, which leads to the state from the start. Comes with `NotEmpty` exactly
    /// where the image isn't blank.
    pub fn create(disk: D, frame: &[u8], state: J) -> Result<Standing<D, J>, Unmade<D>>
        requires { IsFrameOf J.step frame.now J.start state }
        ensures made { IsMade J.step J.start D.told state disk result }
        ensures place { IfOk result (λ s. (s.gate ≡ first_start + length frame.now) × (s.end ≡ second_start)) }
    {
        match prepare(disk) {
            Err(unmade) => Err(unmade),
            Ok(blank) => match blank.create(frame) {
                Ok(ready) => Ok(Standing { ready, state }),
                Err(broken) => Err(broken.give_up()),
            },
        }
    }
}
