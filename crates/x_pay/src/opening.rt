// The party is opened, and then its ledger.
ghost use Rattle.std.specs.Prelude.{◌≡◌, IfOk, IfErr};
ghost use Rattle.x_pay.specs.Outcomes.{nothing};
ghost use Rattle.x_pay.specs.Steps.{AreOpened, HasActed, outcome_of, outcome_of_why};

use crate::outcome::PayOutcome;
use disk_pair::Disks;
use journal_state::law_one_finding;
use key_journal::{Cause, Unmade};
use node_core::{Node, NotOpened, WhyNotOpened};
use pay_auth::{Entries, Ledger};
use std::alloc::Global;
use x_base::Ident;
use x_disk::Disk;

/// A party and its ledger.
#[derive(Drop)]
pub(crate) struct Opened<D: Disk> {
    pub(crate) node: Node<D>,
    pub(crate) ledger: Ledger<D>,
}

/// Two disks of which a party or a ledger wasn't opened, and what is told of that.
#[derive(Drop)]
pub(crate) struct Unopened<D: Disk> {
    pub(crate) disks: Disks<D>,
    pub(crate) outcome: PayOutcome,
}

/// The outcome where a disk isn't opened. No opening tells that a disk isn't empty, but of a file that changes by itself.
pub(crate) fn outcome_of(cause: Cause) -> PayOutcome
    ensures { result ≡ outcome_of cause }
{
    match cause {
        Cause::Blank => PayOutcome::Blank,
        Cause::NotEmpty => PayOutcome::Damaged(0),
        Cause::Damaged(place) => PayOutcome::Damaged(place),
        Cause::Fault => PayOutcome::Fault,
        Cause::NoMemory => PayOutcome::NoMemory,
    }
}

/// The outcome where the party of the name isn't opened.
fn no_party(party: &Ident, why: WhyNotOpened) -> PayOutcome
    ensures { result ≡ outcome_of_why party.now why }
{
    match why {
        WhyNotOpened::OtherParty(found) => PayOutcome::OtherParty(*party, found),
        WhyNotOpened::Unmade(cause) => outcome_of(cause),
    }
}

/// Opens the party of this name, whose disk is the first, and then the ledger.
pub(crate) fn open_both<D: Disk>(
    alloc: Global,
    disks: Disks<D>,
    party: &Ident,
) -> Result<Opened<D>, Unopened<D>>
    ensures opened { IfOk result (λ o. AreOpened D.told party.now disks o.node o.ledger) }
    ensures failed { IfErr result (λ u. HasActed nothing party.now D.told disks u.disks u.outcome) }
{
    law_one_finding::<Entries>();
    let Disks { first, second } = disks;
    let node = match Node::open_named(alloc, first, party) {
        Ok(node) => node,
        Err(NotOpened { disk, why }) => {
            return Err(Unopened {
                disks: Disks {
                    first: disk,
                    second,
                },
                outcome: no_party(party, why),
            });
        }
    };
    match Ledger::open_ledger(alloc, second) {
        Ok(ledger) => Ok(Opened { node, ledger }),
        Err(Unmade { disk, cause }) => Err(Unopened {
            disks: Disks {
                first: node.into_disk(),
                second: disk,
            },
            outcome: outcome_of(cause),
        }),
    }
}
