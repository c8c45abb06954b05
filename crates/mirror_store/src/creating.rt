// A party is created on two disks.
ghost use Rattle.std.specs.Prelude.{◌≡◌, ℕ, List, Some, true};
ghost use Rattle.key_journal.specs.Journal.{is_blank};
ghost use Rattle.mirror_store.specs.Creating.{IsPairCreated, IsLookedAt, IsMadeTwice};

use crate::mirror::Mirror;
use crate::pair::{PairCause, PairUnmade};
use disk_pair::Disks;
use key_journal::{Cause, Unmade, open_disk};
use key_store::Store;
use node_core::Node;
use std::alloc::Global;
use x_base::{Ident, Role};
use x_disk::Disk;
use x_gen::Gen;

/// Syncs and looks at the image, and writes nothing. Comes with `NotEmpty` exactly where that isn't blank.
fn look<D: Disk>(disk: D) -> Result<D, Unmade<D>>
    ensures { IsLookedAt D.told disk result }
{
    match open_disk(disk) {
        Ok(opened) => Err(Unmade {
            disk: opened.into_disk(),
            cause: Cause::NotEmpty,
        }),
        Err(
            Unmade {
                disk,
                cause: Cause::Blank,
            },
        ) => Ok(disk),
        Err(
            Unmade {
                disk,
                cause: Cause::Damaged(_),
            },
        ) => Err(Unmade {
            disk,
            cause: Cause::NotEmpty,
        }),
        Err(unmade) => Err(unmade),
    }
}

/// Creates a party on two disks whose images are blank.
fn create_both<D: Disk>(
    alloc: Global,
    disks: Disks<D>,
    own: Ident,
    role: Role,
    generator: Gen,
) -> Result<Mirror<D>, PairUnmade<D>>
    requires first { (b : List ℕ) → (D.told disks.first).now ≡ Some b → is_blank b ≡ true }
    requires second { (b : List ℕ) → (D.told disks.second).now ≡ Some b → is_blank b ≡ true }
    ensures { IsMadeTwice D.told own role generator disks result }
{
    let Disks { first, second } = disks;
    match Store::create(alloc, first, own, role, generator) {
        Ok(one) => match Store::create(alloc, second, own, role, generator) {
            Ok(two) => Ok(Mirror {
                node: Node::of(one),
                second: two,
            }),
            Err(Unmade { disk, cause }) => Err(PairUnmade {
                disks: Disks {
                    first: one.into_disk(),
                    second: disk,
                },
                cause: PairCause::Second(cause),
            }),
        },
        Err(Unmade { disk, cause }) => Err(PairUnmade {
            disks: Disks {
                first: disk,
                second,
            },
            cause: PairCause::First(cause),
        }),
    }
}

impl<D: Disk> Mirror<D> {
    /// Creates a party on two disks: looks at both images, and then makes the first, and then the second. Comes with
    /// `NotEmpty` exactly where that image isn't blank, and then nothing is written.
    pub fn create(
        alloc: Global,
        disks: Disks<D>,
        own: Ident,
        role: Role,
        generator: Gen,
    ) -> Result<Mirror<D>, PairUnmade<D>>
        ensures { IsPairCreated D.told own role generator disks result }
    {
        let Disks { first, second } = disks;
        match look(first) {
            Ok(first) => match look(second) {
                Ok(second) => create_both(alloc, Disks { first, second }, own, role, generator),
                Err(Unmade { disk, cause }) => Err(PairUnmade {
                    disks: Disks {
                        first,
                        second: disk,
                    },
                    cause: PairCause::Second(cause),
                }),
            },
            Err(Unmade { disk, cause }) => Err(PairUnmade {
                disks: Disks {
                    first: disk,
                    second,
                },
                cause: PairCause::First(cause),
            }),
        }
    }
}
