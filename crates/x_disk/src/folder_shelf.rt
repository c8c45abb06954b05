// The edge over a real folder, of which nothing is told.
ghost use Rattle.std.specs.Prelude.{◌≡◌};
ghost use Rattle.x_disk.specs.Untold.{untold, untold_sound};

use crate::files::{FileDisk, counted, open_if_there};
use crate::{DiskErr, LockingFiles, Shelf};
use std::alloc::{AllocError, Global};
use x_base::Ident;

/// The files `IDENT.x917` of the current folder. A file that is there is locked from the fetch to the put back, a new one
/// from its first write; a fetch where another command has the lock is a fault. Faults of the disks that are put back are
/// counted here.
#[derive(Drop)]
pub struct FolderShelf<R> {
    rt: R,
    alloc: Global,
    faults: u64,
}

impl<R: LockingFiles + Clone + Drop> FolderShelf<R> {
    pub fn new(rt: R, alloc: Global) -> FolderShelf<R>
        ensures { ⟦<FolderShelf<R> as Shelf>⟧.faults result ≡ 0 }
    {
        FolderShelf {
            rt,
            alloc,
            faults: 0,
        }
    }
}

impl<R: LockingFiles + Clone + Drop> Shelf for FolderShelf<R> {
    type Disk = FileDisk<R>;

    ghost entry = { λ s name. untold 0 };

    ghost has_slot = { λ s name. Unit {0} };

    ghost is_back = { λ s name. Unit {0} };

    ghost faults = { λ s. s.faults };

    ghost sound = { λ s name. untold_sound 0 };

    fn fetch(&mut self, name: &Ident) -> Result<FileDisk<R>, DiskErr> {
        let path = path_of(self.alloc, name)?;
        let Ok(rt) = self.rt.clone() else {
            return Err(DiskErr::NoMemory);
        };
        let outcome = open_if_there(&rt, path.as_str());
        let file = counted(&mut self.faults, outcome)?;
        Ok(FileDisk::new(rt, path, file))
    }

    fn put_back(&mut self, _name: &Ident, disk: FileDisk<R>) -> Result<(), DiskErr> {
        self.faults = self.faults.saturating_add(disk.faults());
        Ok(())
    }
}

// The name of the file.
fn path_of(alloc: Global, name: &Ident) -> Result<String, AllocError> {
    let mut path = String::new(alloc);
    for byte in name.bytes() {
        path.push(*byte as char)?;
    }
    path.push_str(".x917")?;
    Ok(path)
}
