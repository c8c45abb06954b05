// A pair of disks is opened as one party.
ghost use Rattle.std.specs.Prelude.{◌≡◌, ℕ, List, Some, true, bytes_eq};
ghost use Rattle.key_journal.specs.Journal.{is_blank};
ghost use Rattle.mirror_store.specs.Beside.{IsBeside, IsOverBlank};
ghost use Rattle.mirror_store.specs.Framing.{IsSettled};
ghost use Rattle.mirror_store.specs.Opening.{IsPairOpened};
ghost use Rattle.mirror_store.specs.Pairs.{IsTwin};
ghost use Rattle.mirror_store.specs.Answers.{twin_disks};

use crate::copying::{copy_to, switch_to};
use crate::mirror::Mirror;
use crate::pair::{PairCause, PairUnmade};
use crate::recovering::law_recovers;
use crate::seeing::see;
use crate::seen::Seen;
use crate::uncopied::Uncopied;
use disk_pair::Disks;
use key_journal::{Cause, Unmade};
use key_store::{Store, law_one_finding};
use node_core::Node;
use party_state::State;
use std::alloc::Global;
use x_base::Ident;
use x_disk::Disk;

/// Whether two identities are one.
fn same_identity(one: Ident, other: Ident) -> bool
    ensures { result ≡ bytes_eq one other }
{
    one == other
}

fn unmade<D: Disk>(first: D, second: D, cause: PairCause) -> PairUnmade<D>
    ensures disks { result.disks ≡ record { first = first; second = second } }
    ensures cause { result.cause ≡ cause }
{
    PairUnmade {
        disks: Disks { first, second },
        cause,
    }
}

/// Makes the second disk stand for the first one's party.
fn settle<D: Disk>(
    alloc: Global,
    first: Store<D>,
    second: Store<D>,
) -> Result<Mirror<D>, PairUnmade<D>>
    ensures { IsSettled D.told first second result }
{
    let own = first.view().own();
    let other = second.view().own();
    if !same_identity(own, other) {
        return Err(unmade(
            first.into_disk(),
            second.into_disk(),
            PairCause::OtherParty(own, other),
        ));
    }
    if first.view().same(second.view()) {
        return Ok(Mirror {
            node: Node::of(first),
            second,
        });
    }
    match switch_to(alloc, first.view(), second) {
        Ok(second) => Ok(Mirror {
            node: Node::of(first),
            second,
        }),
        Err(Uncopied::TooLarge(second)) => {
            Err(unmade(first.into_disk(), second, PairCause::TooLarge))
        }
        Err(Uncopied::Failed(Unmade { disk, cause })) => {
            Err(unmade(first.into_disk(), disk, PairCause::Second(cause)))
        }
    }
}

/// Opens the pair where the first disk stands.
fn open_beside<D: Disk>(
    alloc: Global,
    first: Store<D>,
    second: D,
) -> Result<Mirror<D>, PairUnmade<D>>
    ensures { IsBeside D.told first second result }
{
    law_one_finding();
    match see(alloc, second) {
        Seen::Stands(second) => settle(alloc, first, second),
        Seen::Blank(disk) => match copy_to(alloc, first.view(), disk) {
            Ok(second) => Ok(Mirror {
                node: Node::of(first),
                second,
            }),
            Err(Uncopied::TooLarge(disk)) => {
                Err(unmade(first.into_disk(), disk, PairCause::TooLarge))
            }
            Err(Uncopied::Failed(Unmade { disk, cause })) => {
                Err(unmade(first.into_disk(), disk, PairCause::Second(cause)))
            }
        },
        Seen::Refused(Unmade { disk, cause }) => {
            Err(unmade(first.into_disk(), disk, PairCause::Second(cause)))
        }
    }
}

/// Opens the pair where the first disk is blank.
fn open_over_blank<D: Disk>(alloc: Global, first: D, second: D) -> Result<Mirror<D>, PairUnmade<D>>
    requires { (b : List ℕ) → (D.told first).now ≡ Some b → is_blank b ≡ true }
    ensures { IsOverBlank D.told (record { first = first; second = second }) result }
{
    law_one_finding();
    match see(alloc, second) {
        Seen::Stands(second) => match copy_to(alloc, second.view(), first) {
            Ok(first) => Ok(Mirror {
                node: Node::of(first),
                second,
            }),
            Err(Uncopied::TooLarge(first)) => {
                Err(unmade(first, second.into_disk(), PairCause::TooLarge))
            }
            Err(Uncopied::Failed(Unmade { disk, cause })) => {
                Err(unmade(disk, second.into_disk(), PairCause::First(cause)))
            }
        },
        Seen::Blank(disk) => Err(unmade(first, disk, PairCause::First(Cause::Blank))),
        Seen::Refused(Unmade { disk, cause }) => {
            Err(unmade(first, disk, PairCause::Second(cause)))
        }
    }
}

impl<D: Disk> Mirror<D> {
    /// Opens two disks as one party: that of the first, to which the second is made equal; or that of the second, where the
    /// first is blank.
    pub fn open_pair(alloc: Global, disks: Disks<D>) -> Result<Mirror<D>, PairUnmade<D>>
        ensures { IsPairOpened D.told disks result }
    {
        law_one_finding();
        law_recovers();
        let Disks { first, second } = disks;
        match see(alloc, first) {
            Seen::Stands(first) => open_beside(alloc, first, second),
            Seen::Blank(disk) => open_over_blank(alloc, disk, second),
            Seen::Refused(Unmade { disk, cause }) => {
                Err(unmade(disk, second, PairCause::First(cause)))
            }
        }
    }

    /// The state. Each image of either disk that a crash may leave stands for it.
    pub fn view(&self) -> &State
        ensures party { result.now ≡ self.now.first.party }
        ensures stand { IsTwin D.told self.now }
    {
        self.node.view()
    }

    /// The two disks.
    pub fn into_disks(self) -> Disks<D>
        ensures { result ≡ twin_disks self }
    {
        let Mirror { node, second } = self;
        Disks {
            first: node.into_disk(),
            second: second.into_disk(),
        }
    }
}
