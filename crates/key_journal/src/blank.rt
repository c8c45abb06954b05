// Making a journal on a blank disk.
ghost use Rattle.std.specs.Prelude.{◌≡◌, ◌+◌, ◌≤◌, [], ◌∷◌, ◌++◌, List, ℕ, length, take, Some, is_some, OnOk};
ghost use Rattle.x_disk.specs.Disk.{IsDurable, LeavesOnly, overwrite, disk_size};
ghost use Rattle.key_journal.specs.Journal.{magic};
ghost use Rattle.key_journal.specs.States.{IsFrame, HasFaults};
ghost use Rattle.key_journal.specs.Writing.{IsFirstFrame};
ghost use Rattle.key_journal.specs.Reading.{IsPrepared};

use crate::header::look;
use crate::layout::{FIRST_START, SECOND_START};
use crate::put::put;
use crate::{Broken, Cause, Ready, Unmade};
use std::marker::Model;
use x_disk::{Disk, DiskErr};

/// A disk whose image is blank, with its gate closed.
#[derive(Drop)]
pub struct Blank<D: Disk> {
    disk: D,
}

impl<D: Disk> Model for Blank<D> {
    ghost use Rattle.key_journal.specs.States.{Empty, IsEmpty};

    ghost Value = { Empty D };

    ghost view = { λ b. record { disk = b.disk } };

    ghost invariant = { λ b. IsEmpty (D.told b.disk) };
}

// The selector of area 0, the magic, and the open gate of the first frame.
const HEAD: [u8; 16] = *b"\0X917-KEYSTORE1\x01";

// Writes all but the file's gate.
fn lay<D: Disk>(disk: &mut D, frame: &[u8]) -> Result<(), DiskErr>
    requires { 17 + length frame.now ≤ disk_size }
    ensures durable { OnOk result (IsDurable (D.told disk.new)) }
    ensures written { OnOk result ((b : List ℕ) → (D.told disk.old).now ≡ Some b
        → (D.told disk.new).now ≡ Some (overwrite 17 frame.now (overwrite 1 (0 ∷ magic ++ 1 ∷ []) b))) }

    // A crash at any moment leaves the gate as it was.
    ensures any_moment { (b : List ℕ) → (D.told disk.old).now ≡ Some b → IsDurable (D.told disk.old) → 1 ≤ length b
        → LeavesOnly (D.told disk.old) (D.told disk.new) (λ c. take 1 c ≡ take 1 b) }

    ensures tells { is_some (D.told disk.new).now ≡ is_some (D.told disk.old).now }
    ensures cause { HasFaults (D.told disk.old) (D.told disk.new) result }
{
    disk.write_at(1, &HEAD)?;
    put(disk, 17, frame)
}

/// Syncs and looks at the image; where that is blank, its gate is made to stand closed. Comes with `NotEmpty` exactly where
/// the image isn't blank.
pub fn prepare<D: Disk>(disk: D) -> Result<Blank<D>, Unmade<D>>
    ensures { IsPrepared D.told disk result }
{
    let mut disk = disk;
    let header = match look(&mut disk) {
        Ok(header) => header,
        Err(cause) => {
            return Err(Unmade {
                disk,
                cause: Cause::from(cause),
            });
        }
    };
    if !header.is_blank() {
        return Err(Unmade {
            disk,
            cause: Cause::NotEmpty,
        });
    }
    if header.length > 1 {
        return Ok(Blank { disk });
    }
    match put(&mut disk, 0, &[0]) {
        Ok(()) => Ok(Blank { disk }),
        Err(cause) => Err(Unmade {
            disk,
            cause: Cause::from(cause),
        }),
    }
}

impl<D: Disk> Blank<D> {
    /// Makes a journal with this frame's body alone: writes all but the file's gate, syncs, opens the gate, and syncs.
    pub fn create(self, frame: &[u8]) -> Result<Ready<D>, Broken<D>>
        requires { IsFrame frame.now }
        ensures { IsFirstFrame D.told self frame.now result }
    {
        let Blank { mut disk } = self;
        match lay(&mut disk, frame) {
            Ok(()) => {}
            Err(cause) => return Err(Broken { disk, cause }),
        }
        match put(&mut disk, 0, &[1]) {
            Ok(()) => Ok(Ready::new(disk, FIRST_START + frame.len() as u64, SECOND_START)),
            Err(cause) => Err(Broken { disk, cause }),
        }
    }
}
