// Parties whose disks are held open together, by their identities and in the order in which they came.
ghost use Rattle.std.specs.Prelude.{◌≡◌, ◌<◌, ◌++◌, [], ◌∷◌, length, IfNone, IfSome, Some, None, OnErr, OnOk, bytes_eq, position};
ghost use Rattle.party_state.specs.Limits.{IsWithinLimits};
ghost use Rattle.open_parties.specs.OpenParties.{open_party, AreOpen, DropsLast, Fills, HoldsAt, IsTakenOut, IsPlace, NoneOf};
ghost use Rattle.open_parties.specs.declared.open_party.PartyDisk.TheVariants.{Away};

use crate::open_party::{OpenParty, PartyDisk};
use indexmap::IndexSet;
use node_core::Node;
use party_state::State;
use std::alloc::Global;
use std::marker::Model;
use std::mem;
use x_base::{Ident, NoMemory};
use x_disk::Disk;

/// What is held of each party; each has one place.
#[derive(Drop)]
pub struct OpenParties<D: Disk> {
    names: IndexSet<Ident>,
    open_parties: Vec<OpenParty<D>>,
}

impl<D: Disk> Model for OpenParties<D> {
    ghost use Rattle.std.specs.Prelude.{◌≡◌, List};
    ghost use Rattle.open_parties.specs.OpenParties.{owners};
    ghost use Rattle.open_parties.specs.declared.open_party.OpenParty.{OpenParty as TheOpenParty};

    ghost Value = { List (TheOpenParty D) };

    ghost view = { λ p. p.open_parties.items };

    ghost invariant = { λ p. p.names.keys ≡ owners p.open_parties.items };
}

/// The place of an identity among those of the parties, in their order.
fn index_of(names: &IndexSet<Ident>, own: &Ident) -> Option<usize>
    ensures some { IfSome result (λ place. position (bytes_eq own.now) names.now.keys ≡ Some place) }
    ensures none { IfNone result (position (bytes_eq own.now) names.now.keys ≡ None) }
{
    names.get_index_of(own)
}

impl<D: Disk> OpenParties<D> {
    pub fn new(alloc: Global) -> OpenParties<D>
        ensures { result ≡ [] }
    {
        OpenParties {
            names: IndexSet::new(alloc),
            open_parties: Vec::new(alloc),
        }
    }

    pub fn len(&self) -> usize
        ensures { result ≡ length self.now }
    {
        self.open_parties.len()
    }

    /// One more party behind the others, of which nothing is held yet. Where no memory is left, nothing changes.
    pub fn add(&mut self, own: Ident) -> Result<(), NoMemory>
        requires { NoneOf self.old own }
        ensures added { OnOk result (self.new ≡ self.old ++ open_party own Away ∷ []) }
        ensures same { OnErr result (self.new ≡ self.old) }
    {
        self.open_parties.reserve(1)?;
        match self.names.insert(own) {
            Ok(_) => {}
            Err(_) => return Err(NoMemory),
        }
        let open_party = OpenParty {
            own,
            held: PartyDisk::Away,
        };
        match self.open_parties.push(open_party) {
            Ok(()) => Ok(()),
            Err(_) => unreachable!(),
        }
    }

    /// Drops the last party.
    pub fn drop_last(&mut self)
        ensures { DropsLast self.old self.new }
    {
        self.names
            .truncate(self.open_parties.len().saturating_sub(1));
        self.open_parties.pop();
    }

    /// The place of a party.
    pub fn place_of(&self, own: &Ident) -> Option<usize>
        ensures within { IfSome result (λ place. place < length self.now) }
        ensures placed { IfSome result (λ place. IsPlace self.now own.now place) }
        ensures none { IfNone result (NoneOf self.now own.now) }
    {
        index_of(&self.names, own)
    }

    /// The state of the party at a place.
    pub fn view_at(&self, place: usize) -> &State
        requires within { place < length self.now }
        requires all_open { AreOpen self.now }
        ensures party { HoldsAt self.now place result.now }
        ensures within { IsWithinLimits result.now }
    {
        match &self.open_parties[place].held {
            PartyDisk::Open(node) => node.view(),
            PartyDisk::Closed(_) | PartyDisk::Away => unreachable!(),
        }
    }

    /// Takes the open party out of its place.
    pub fn take_out(&mut self, place: usize) -> Node<D>
        requires within { place < length self.old }
        requires all_open { AreOpen self.old }
        ensures { IsTakenOut self.old self.new place result }
    {
        match mem::replace(&mut self.open_parties[place].held, PartyDisk::Away) {
            PartyDisk::Open(node) => node,
            PartyDisk::Closed(_) | PartyDisk::Away => unreachable!(),
        }
    }

    /// Puts what is held into its empty place.
    pub fn put_in(&mut self, place: usize, held: PartyDisk<D>)
        requires { place < length self.old }
        ensures { Fills self.old self.new place held }
    {
        self.open_parties[place].held = held;
    }

    /// What is held of each, in order.
    pub fn into_parties(self) -> Vec<OpenParty<D>>
        ensures { result.items ≡ self }
    {
        self.open_parties
    }
}
