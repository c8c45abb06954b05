// A shelf that fails after so many calls, and whose disks do.
ghost use Rattle.std.specs.Prelude.{◌≡◌};

use crate::{DiskErr, Fused, Shelf};
use std::marker::Model;
use x_base::Ident;

/// A shelf whose calls of fetch and put back pass as often as was said. Every later one is counted and answers `Fault`;
/// a put back of these keeps the disk all the same, after a fetch that passed. Each disk has a fuse while it is taken
/// out, and a fuse that has blown is counted as the disk is put back.
#[derive(Drop)]
pub struct FusedShelf<H: Shelf> {
    inner: H,
    shelf_calls: u64,
    disk_calls: u64,
    faults: u64,
}

impl<H: Shelf> Model for FusedShelf<H> {
    ghost use Rattle.x_disk.specs.FusedShelf.{WithCalls};

    ghost Value = { WithCalls H };

    ghost view = { λ s. record { inner = s.inner; shelf_calls = s.shelf_calls; disk_calls = s.disk_calls; faults = s.faults } };
}

impl<H: Shelf> FusedShelf<H> {
    ghost use Rattle.std.specs.Prelude.{◌≡◌};
    ghost use Rattle.x_disk.specs.FusedShelf.{IsFaultCounted, IsPass};

    /// The shelf with so many calls that pass, and so many of each disk that is fetched. Takes no memory.
    pub fn new(inner: H, shelf_calls: u64, disk_calls: u64) -> FusedShelf<H>
        ensures inner { result.inner ≡ inner }
        ensures shelf_calls { result.shelf_calls ≡ shelf_calls }
        ensures disk_calls { result.disk_calls ≡ disk_calls }
        ensures faults { result.faults ≡ 0 }
    {
        FusedShelf {
            inner,
            shelf_calls,
            disk_calls,
            faults: 0,
        }
    }

    /// The shelf without its fuses.
    pub fn into_inner(self) -> H
        ensures { result ≡ self.inner }
    {
        self.inner
    }

    // Counts a fault.
    fn add_fault(&mut self)
        ensures { IsFaultCounted self.old self.new }
    {
        self.faults = self.faults.saturating_add(1);
    }

    // Counts a call, which fails where none passes any more.
    fn pass(&mut self) -> Result<(), DiskErr>
        ensures { IsPass self.old self.new result }
    {
        if self.shelf_calls == 0 {
            self.add_fault();
            return Err(DiskErr::Fault);
        }
        self.shelf_calls -= 1;
        Ok(())
    }
}

impl<H: Shelf> Shelf for FusedShelf<H> {
    ghost use Rattle.std.specs.Prelude.{◌≡◌, ◌-◌, ◌<◌, false, true, Some, IfOk, IsErrOf};
    ghost use Rattle.x_base.specs.Edge.{Rose};
    ghost use Rattle.x_disk.specs.declared.fused.Fuse.TheVariants.{Passes};
    ghost use Rattle.x_disk.specs.Fuse.{fused_view, fused_sound, is_blown};
    ghost use Rattle.x_disk.specs.FusedShelf.{fused_entry, all_faults, fused_shelf_view};
    ghost use Rattle.x_disk.specs.Shelf.{IsFetched, IsPutBack};

    type Disk = Fused<H::Disk>;

    ghost entry = { λ s. fused_entry H.entry s };

    ghost has_slot = { λ s. H.has_slot s.inner };

    ghost is_back = { λ s. H.is_back s.inner };

    ghost faults = { λ s. all_faults H.faults s };

    ghost sound = { λ s name. fused_sound (Passes s.disk_calls) (H.entry s.inner name) (H.sound s.inner name) };

    fn fetch(&mut self, name: &Ident) -> Result<Fused<H::Disk>, DiskErr>
        ensures call { IsFetched (fused_view H.Disk.told) name.now (fused_shelf_view H.entry H.has_slot H.is_back H.faults self.old) (fused_shelf_view H.entry H.has_slot H.is_back H.faults self.new) result }
        ensures calls_left { IfOk result (λ disk. (fused_view H.Disk.told disk).calls_left ≡ Some self.old.disk_calls) }
        ensures inner { 0 < self.old.shelf_calls → IsErrOf result DiskErr.Fault → Rose (H.faults self.old.inner) (H.faults self.new.inner) }
        ensures own { 0 < self.old.shelf_calls → self.new.faults ≡ self.old.faults }
        ensures fails { self.old.shelf_calls ≡ 0 → IsErrOf result DiskErr.Fault × Rose self.old.faults self.new.faults × (self.new.inner ≡ self.old.inner) }
        ensures shelf_calls { self.new.shelf_calls ≡ self.old.shelf_calls - 1 }
        ensures disk_calls { self.new.disk_calls ≡ self.old.disk_calls }
    {
        self.pass()?;
        let disk = self.inner.fetch(name)?;
        Ok(Fused::new(disk, self.disk_calls))
    }

    fn put_back(&mut self, name: &Ident, disk: Fused<H::Disk>) -> Result<(), DiskErr>
        ensures call { IsPutBack (fused_view H.Disk.told disk) name.now (fused_shelf_view H.entry H.has_slot H.is_back H.faults self.old) (fused_shelf_view H.entry H.has_slot H.is_back H.faults self.new) result }
        ensures inner { 0 < self.old.shelf_calls → IsErrOf result DiskErr.Fault → Rose (H.faults self.old.inner) (H.faults self.new.inner) }
        ensures own { 0 < self.old.shelf_calls → is_blown disk.fuse ≡ false → self.new.faults ≡ self.old.faults }
        ensures blown { is_blown disk.fuse ≡ true → Rose self.old.faults self.new.faults }
        ensures fails { self.old.shelf_calls ≡ 0 → IsErrOf result DiskErr.Fault × Rose self.old.faults self.new.faults }
        ensures shelf_calls { self.new.shelf_calls ≡ self.old.shelf_calls - 1 }
        ensures disk_calls { self.new.disk_calls ≡ self.old.disk_calls }
    {
        if disk.has_blown() {
            self.add_fault();
        }
        let answer = self.inner.put_back(name, disk.into_inner());
        self.pass().and(answer)
    }
}
