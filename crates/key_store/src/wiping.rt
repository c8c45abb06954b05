// Wiping: what doesn't count of a store's file becomes zeros.
ghost use Rattle.key_store.specs.Wiping.{IsStoreWipe};

use crate::store::Store;
use key_journal::Broken;
use x_disk::Disk;

impl<D: Disk> Store<D> {
    /// Overwrites with zeros each byte of the file that doesn't count. The party stays with its space, whatever a crash
    /// leaves. Takes no memory itself.
    pub fn wipe(self) -> Result<Store<D>, Broken<D>>
        ensures { IsStoreWipe D.told self result }
    {
        let Store {
            ready,
            format,
            state,
        } = self;
        match ready.wipe() {
            Ok(ready) => Ok(Store {
                ready,
                format,
                state,
            }),
            Err(broken) => Err(broken),
        }
    }
}
