// Compaction and migration: the party as one frame in the other area.
ghost use Rattle.std.specs.Prelude.{◌≡◌, OnOk, IfOk, IfErr};
ghost use Rattle.key_journal.specs.Journal.{frame_of, IsBody};
ghost use Rattle.key_journal.specs.States.{IsFrame};
ghost use Rattle.change_code.specs.Code.{IsCode};
ghost use Rattle.change_code.specs.Whole.{whole_edits, whole_of, IsTooLarge};
ghost use Rattle.key_store.specs.Compacting.{IsWhole, IsCompacting, IsMigrating};

use crate::store::{Kept, Store};
use change_code::{Format, WholeFault, law_whole, whole_behind};
use key_journal::close_frame;
use party_state::State;
use std::alloc::Global;
use x_base::Text;
use x_disk::Disk;

/// The text of the frame of the whole party.
pub(crate) fn whole_frame(alloc: Global, format: Format, state: &State) -> Result<Text, WholeFault>
    ensures text { IfOk result (λ t. t ≡ frame_of (whole_of format state.now)) }
    ensures frame { IfOk result IsFrame }
    ensures code { OnOk result (IsCode format (whole_of format state.now) (whole_edits state.now)) }
    ensures body { OnOk result (IsBody (whole_of format state.now)) }
    ensures fits { OnOk result (IsTooLarge format state.now → ⊥) }
    ensures too_large { IfErr result (λ fault. fault ≡ WholeFault.TooLarge → IsTooLarge format state.now) }
{
    let mut text = whole_behind(alloc, &[0, 0, 0, 0], format, state)?;
    close_frame(&mut text)?;
    Ok(text)
}

impl<D: Disk> Store<D> {
    /// Writes the party as one frame into the other area, and selects that area. The party stays with its format, whatever a
    /// crash leaves. Comes with `Full` exactly where the party is too large for one frame in that format.
    pub fn compact(self, alloc: Global) -> Kept<D>
        ensures { IsCompacting D.told self result }
    {
        let format = self.format;
        self.write_whole(alloc, format)
    }

    /// Turns a store of format 1 into one of format 2, with the party as one frame in the other area; in format 2 it makes no
    /// disk call. The party stays, whatever a crash leaves. Comes with `Full` exactly where the store has format 1 and the
    /// party is too large for one frame in format 2.
    pub fn migrate(self, alloc: Global) -> Kept<D>
        ensures { IsMigrating D.told self result }
    {
        match self.format {
            Format::One => self.write_whole(alloc, Format::Two),
            Format::Two => Kept::Done(self),
        }
    }

    /// Writes the party as one frame of this format into the other area, and selects that area.
    fn write_whole(self, alloc: Global, format: Format) -> Kept<D>
        ensures { IsWhole D.told format self result }
    {
        law_whole();
        let Store {
            ready,
            format: old,
            state,
        } = self;
        state.law_party();
        let text = match whole_frame(alloc, format, &state) {
            Ok(text) => text,
            Err(WholeFault::TooLarge) => {
                return Kept::Full(Store {
                    ready,
                    format: old,
                    state,
                });
            }
            Err(WholeFault::NoMemory) => {
                return Kept::NoMemory(Store {
                    ready,
                    format: old,
                    state,
                });
            }
        };
        match ready.switch(text.bytes()) {
            Ok(ready) => Kept::Done(Store {
                ready,
                format,
                state,
            }),
            Err(broken) => Kept::Broken(broken),
        }
    }
}
