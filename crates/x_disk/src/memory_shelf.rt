// A shelf of disks in memory.
ghost use Rattle.std.specs.Prelude.{◌≡◌, ◌<◌, ℕ, List, unwrap_or, None, IfSome, IfNone, IfOk, OnOk, OnErr};
ghost use Rattle.x_disk.specs.Slots.{fresh, disk_at, entry_at, entry_sound, memory_view, HasSlot, NoneOf, IsFirst, OthersSame, AllSame};
ghost use Rattle.x_disk.specs.History.{view_of};
ghost use Rattle.x_disk.specs.Shelf.{IsAlike, IsFetched, SlotsStay};

use crate::slot::Slot;
use crate::{DiskErr, Shelf, TornDisk};
use std::alloc::{AllocError, Global};
use x_base::Ident;

/// Disks in memory. An identity that isn't there has an empty disk that reserves nothing and grows.
#[derive(Drop)]
pub struct MemoryShelf {
    alloc: Global,
    slots: Vec<Slot>,
}

impl MemoryShelf {
    /// An empty shelf. Takes no memory.
    pub fn new(alloc: Global) -> MemoryShelf
        ensures entries { (name : List ℕ) → IsAlike (view_of fresh) (⟦<MemoryShelf as Shelf>⟧.entry result name) }
        ensures faults { ⟦<MemoryShelf as Shelf>⟧.faults result ≡ 0 }
    {
        MemoryShelf {
            alloc,
            slots: Vec::new(alloc),
        }
    }
}

// The place of the first slot of this identity.
fn place_of(slots: &[Slot], name: &Ident) -> Option<usize>
    ensures some { IfSome result (λ place. IsFirst slots.now name.now place) }
    ensures none { IfNone result (NoneOf slots.now name.now) }
{
    for place in 0..slots.len() {
        if slots[place].name == *name {
            return Some(place);
        }
    }
    None
}

// Takes a disk out of its slot, which it makes where there is none.
fn take_out(slots: &mut Vec<Slot>, name: &Ident) -> Result<Option<TornDisk>, AllocError>
    ensures disk { IfOk result (λ taken. disk_at slots.old.items name.now ≡ unwrap_or taken fresh) }
    ensures slot { OnOk result (HasSlot slots.new.items name.now) }
    ensures slots { SlotsStay (HasSlot slots.old.items) (HasSlot slots.new.items) }
    ensures others { OnOk result (OthersSame name.now slots.old.items slots.new.items) }
    ensures none { IfOk result (λ taken. taken ≡ None → AllSame slots.old.items slots.new.items) }
    ensures err { OnErr result (slots.new.items ≡ slots.old.items) }
{
    match place_of(slots, name) {
        Some(place) => Ok(slots[place].disk.take()),
        None => {
            slots.push(Slot {
                name: *name,
                disk: None,
            })?;
            Ok(None)
        }
    }
}

// Puts a disk into its slot, which it makes where there is none.
fn put_in(slots: &mut Vec<Slot>, name: &Ident, disk: TornDisk) -> Result<(), AllocError>
    ensures disk { OnOk result (disk_at slots.new.items name.now ≡ disk) }
    ensures slot { OnOk result (HasSlot slots.new.items name.now) }
    ensures err { OnErr result (slots.new.items ≡ slots.old.items) }
    ensures kept { HasSlot slots.old.items name.now → disk_at slots.new.items name.now ≡ disk }
    ensures slots { SlotsStay (HasSlot slots.old.items) (HasSlot slots.new.items) }
    ensures others { OthersSame name.now slots.old.items slots.new.items }
{
    match place_of(slots, name) {
        Some(place) => slots[place].disk = Some(disk),
        None => slots.push(Slot {
            name: *name,
            disk: Some(disk),
        })?,
    }
    Ok(())
}

impl Shelf for MemoryShelf {
    type Disk = TornDisk;

    ghost entry = { λ s. entry_at s.slots.items };

    ghost has_slot = { λ s. HasSlot s.slots.items };

    ghost is_back = { λ s name. HasSlot s.slots.items name };

    ghost faults = { λ s. 0 };

    ghost sound = { λ s name. entry_sound s.slots.items name };

    /// A disk that isn't there is made, empty and with nothing reserved.
    fn fetch(&mut self, name: &Ident) -> Result<TornDisk, DiskErr>
        ensures call { IsFetched view_of name.now (memory_view self.old.slots.items) (memory_view self.new.slots.items) result }
        ensures exact { IfOk result (λ disk. disk ≡ disk_at self.old.slots.items name.now) }
    {
        match take_out(&mut self.slots, name)? {
            Some(disk) => Ok(disk),
            None => Ok(TornDisk::new(self.alloc, 0)?),
        }
    }

    fn put_back(&mut self, name: &Ident, disk: TornDisk) -> Result<(), DiskErr> {
        put_in(&mut self.slots, name, disk)?;
        Ok(())
    }
}
