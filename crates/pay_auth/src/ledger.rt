// A ledger over its disk.
ghost use Rattle.std.specs.Prelude.{◌≡◌};
ghost use Rattle.x_disk.specs.Disk.{IsDurable};
ghost use Rattle.pay_auth.specs.Entries.{last_number};
ghost use Rattle.pay_auth.specs.Opening.{IsLedgerMade, IsLedgerOpened};

use crate::entries::Entries;
use crate::entry::EntryKey;
use crate::keeping::empty_frame;
use journal_state::{Judge, Standing, law_one_finding};
use key_journal::{Cause, Unmade};
use std::alloc::Global;
use std::marker::Model;
use x_base::{Ident, KeyName, Side};
use x_disk::Disk;

/// A ledger over its disk. Every image that a crash may leave stands for its entries.
#[derive(Drop)]
pub struct Ledger<D: Disk> {
    pub(crate) standing: Standing<D, Entries>,
}

impl<D: Disk> Model for Ledger<D> {
    ghost use Rattle.pay_auth.specs.Ledgers.{LedgerView};

    ghost Value = { LedgerView D };

    ghost view = { λ l. l.standing };
}

impl<D: Disk> Ledger<D> {
    /// Opens the ledger for which the image stands; where it is blank, a ledger without entries is created. Comes with
    /// `Damaged` and the place exactly at the first damage of the image, else with the fault of the disk or
    /// with want of memory.
    pub fn open_ledger(alloc: Global, disk: D) -> Result<Ledger<D>, Unmade<D>>
        ensures { IsLedgerOpened D.told disk result }
    {
        law_one_finding::<Entries>();
        match Standing::load(alloc, disk) {
            Ok(standing) => Ok(Ledger { standing }),
            Err(Unmade { disk, cause }) => match cause {
                Cause::Blank => Ledger::create(alloc, disk),
                cause => Err(Unmade { disk, cause }),
            },
        }
    }

    /// Creates a ledger without entries.
    fn create(alloc: Global, disk: D) -> Result<Ledger<D>, Unmade<D>>
        ensures { IsLedgerMade D.told disk result }
    {
        let Ok(frame) = empty_frame(alloc) else {
            return Err(Unmade {
                disk,
                cause: Cause::NoMemory,
            });
        };
        match Standing::create(disk, frame.bytes(), Entries::start(alloc)) {
            Ok(standing) => Ok(Ledger { standing }),
            Err(unmade) => Err(unmade),
        }
    }

    /// The disk.
    pub fn into_disk(self) -> D
        ensures disk { result ≡ self.disk }
        ensures durable { IsDurable (D.told result) }
    {
        self.standing.into_disk()
    }

    /// The last number under a key, paid out or taken in, and 0 where there is none.
    pub fn last(&self, peer: &Ident, name: &KeyName, side: Side) -> u64
        ensures { result ≡ last_number (record { peer = peer.now; name = name.now; side = side }) self.now.state }
    {
        self.standing.state().last(&EntryKey {
            peer: *peer,
            name: *name,
            side,
        })
    }
}
