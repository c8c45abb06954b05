// A store takes over a state as one frame, over what stood or on a blank disk.
ghost use Rattle.std.specs.Prelude.{◌≡◌, OnOk, IfOk, IfErr};
ghost use Rattle.party_state.specs.Limits.{IsWithinLimits};
ghost use Rattle.change_code.specs.declared.format.Format.TheVariants.{Two};
ghost use Rattle.change_code.specs.Whole.{IsTooLarge};
ghost use Rattle.key_store.specs.Replacing.{IsReplacing, IsMadeAs};

use crate::compact::whole_frame;
use crate::framed_state::FramedState;
use crate::store::Store;
use change_code::{Format, WholeFault, law_whole};
use key_journal::{Broken, Unmade};
use party_state::State;
use std::alloc::Global;
use x_disk::Disk;

impl FramedState {
    /// Makes the frame of a state in format 2. Comes with `TooLarge` exactly where the state is too large for one frame in that
    /// format.
    pub fn of(alloc: Global, state: State) -> Result<FramedState, WholeFault>
        requires { IsWithinLimits state }
        ensures party { IfOk result (λ f. f ≡ state) }
        ensures fits { OnOk result (IsTooLarge Two state → ⊥) }
        ensures too_large { IfErr result (λ fault. fault ≡ WholeFault.TooLarge → IsTooLarge Two state) }
    {
        law_whole();
        state.law_party();
        match whole_frame(alloc, Format::Two, &state) {
            Ok(text) => Ok(FramedState { text, state }),
            Err(fault) => Err(fault),
        }
    }
}

impl<D: Disk> Store<D> {
    /// Writes a framed state into the other area, in format 2, and selects that area: from `Ok` on the store stands for it.
    /// Makes five disk calls and takes no memory itself.
    pub fn replace(self, framed: FramedState) -> Result<Store<D>, Broken<D>>
        ensures { IsReplacing D.told self framed result }
    {
        let Store { ready, .. } = self;
        let FramedState { text, state } = framed;
        match ready.switch(text.bytes()) {
            Ok(ready) => Ok(Store {
                ready,
                format: Format::Two,
                state,
            }),
            Err(broken) => Err(broken),
        }
    }

    /// Makes a store of a framed state on a disk, in format 2. Comes with `NotEmpty` exactly where the image isn't blank.
    /// Takes no memory itself.
    pub fn create_as(disk: D, framed: FramedState) -> Result<Store<D>, Unmade<D>>
        ensures { IsMadeAs D.told framed disk result }
    {
        Store::made(disk, framed)
    }
}
