// A disk is made to stand for a party.
ghost use Rattle.std.specs.Prelude.{◌≡◌, true, IfOk, IfErr, OnOk, Some, List, ℕ};
ghost use Rattle.key_journal.specs.Journal.{is_blank};
ghost use Rattle.party_state.specs.Limits.{IsWithinLimits};
ghost use Rattle.change_code.specs.declared.format.Format.TheVariants.{Two};
ghost use Rattle.change_code.specs.Whole.{IsTooLarge};
ghost use Rattle.key_store.specs.Store.{StandsWith, space};
ghost use Rattle.mirror_store.specs.Framing.{IsCopying, IsBlankOrBefore};

use crate::uncopied::Uncopied;
use change_code::WholeFault;
use key_journal::{Cause, Unmade};
use key_store::{FramedState, Store};
use party_state::State;
use std::alloc::Global;
use x_base::NoMemory;
use x_disk::Disk;

/// The frame of a state, with a copy of it.
pub(crate) fn framed(alloc: Global, state: &State) -> Result<FramedState, WholeFault>
    requires { IsWithinLimits state.now }
    ensures party { IfOk result (λ f. f ≡ state.now) }
    ensures fits { OnOk result (IsTooLarge Two state.now → ⊥) }
    ensures too_large { IfErr result (λ fault. fault ≡ WholeFault.TooLarge → IsTooLarge Two state.now) }
{
    match state.copy(alloc) {
        Ok(copy) => FramedState::of(alloc, copy),
        Err(NoMemory) => Err(WholeFault::NoMemory),
    }
}

/// Makes a blank disk stand for a state.
pub(crate) fn copy_to<D: Disk>(
    alloc: Global,
    state: &State,
    disk: D,
) -> Result<Store<D>, Uncopied<D>>
    requires within { IsWithinLimits state.now }
    requires blank { (b : List ℕ) → (D.told disk).now ≡ Some b → is_blank b ≡ true }
    ensures { IsCopying D.told disk (IsBlankOrBefore (D.told disk)) state.now result }
{
    match framed(alloc, state) {
        Ok(framed) => match Store::create_as(disk, framed) {
            Ok(store) => Ok(store),
            Err(unmade) => Err(Uncopied::Failed(unmade)),
        },
        Err(WholeFault::TooLarge) => Err(Uncopied::TooLarge(disk)),
        Err(WholeFault::NoMemory) => Err(Uncopied::Failed(Unmade {
            disk,
            cause: Cause::NoMemory,
        })),
    }
}

/// Makes the disk of a store stand for another state.
pub(crate) fn switch_to<D: Disk>(
    alloc: Global,
    state: &State,
    store: Store<D>,
) -> Result<Store<D>, Uncopied<D>>
    requires { IsWithinLimits state.now }
    ensures { IsCopying D.told store.disk (λ c. StandsWith c store.party (space store)) state.now result }
{
    store.view();
    match framed(alloc, state) {
        Ok(framed) => match store.replace(framed) {
            Ok(store) => Ok(store),
            Err(broken) => Err(Uncopied::Failed(broken.give_up())),
        },
        Err(WholeFault::TooLarge) => Err(Uncopied::TooLarge(store.into_disk())),
        Err(WholeFault::NoMemory) => Err(Uncopied::Failed(Unmade {
            disk: store.into_disk(),
            cause: Cause::NoMemory,
        })),
    }
}
