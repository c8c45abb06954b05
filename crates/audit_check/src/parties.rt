// Parties that are held in memory, by their identities and in the order in which they came.
ghost use Rattle.std.specs.Prelude.{◌≡◌, ◌<◌, [], List, length, None, IfNone, IfSome, OnOk, bytes_eq, position, slice_get};
ghost use Rattle.member.specs.Member.{Member};
ghost use Rattle.world_laws.specs.World.{member_at};
ghost use Rattle.audit_check.specs.States.{Adds, HoldsEach, IsPlaced, HoldsMembers};

use indexmap::IndexSet;
use member::{Holder, PartyInMemory};
use party_state::State;
use std::alloc::Global;
use x_base::{Ident, NoMemory};

/// Parties, each in its place. A place is empty only while its party has an event.
#[derive(Drop)]
pub(crate) struct Parties {
    pub(crate) names: IndexSet<Ident>,
    pub(crate) members_held: Vec<Option<PartyInMemory>>,
}

/// The place of an identity among others.
fn index_of(names: &IndexSet<Ident>, own: &Ident) -> Option<usize>
    ensures some { IfSome result (λ place. position (bytes_eq own.now) names.now.keys ≡ Some place) }
    ensures none { IfNone result (position (bytes_eq own.now) names.now.keys ≡ None) }
{
    names.get_index_of(own)
}

impl Parties {
    pub(crate) fn new(alloc: Global) -> Parties
        ensures { HoldsMembers result [] }
    {
        Parties {
            names: IndexSet::new(alloc),
            members_held: Vec::new(alloc),
        }
    }

    /// One more party behind the others.
    pub(crate) fn add(&mut self, held: PartyInMemory) -> Result<(), NoMemory>
        ensures { OnOk result (Adds self.old self.new held) }
    {
        let own = held.view().own();
        match self.names.insert(own) {
            Ok(_) => {}
            Err(_) => return Err(NoMemory),
        }
        match self.members_held.push(Some(held)) {
            Ok(()) => Ok(()),
            Err(_) => Err(NoMemory),
        }
    }

    pub(crate) fn len(&self) -> usize
        ensures { (members : List Member) → HoldsMembers self.now members → result ≡ length members }
    {
        self.members_held.len()
    }

    /// The place of a party.
    pub(crate) fn place_of(&self, own: &Ident) -> Option<usize>
        requires { HoldsEach self.now }
        ensures within { IfSome result (λ place. place < length self.now.members_held.items) }
        ensures placed { IfSome result (λ place. (members : List Member) → HoldsMembers self.now members → IsPlaced own.now members place) }
        ensures none { IfNone result ((members : List Member) → HoldsMembers self.now members → member_at own.now members ≡ None) }
    {
        index_of(&self.names, own)
    }

    /// The state of the party at a place.
    pub(crate) fn view_at(&self, place: usize) -> &State
        requires holds_each { HoldsEach self.now }
        requires within { place < length self.now.members_held.items }
        ensures { (members : List Member) → HoldsMembers self.now members → (x : Member) × (slice_get members place ≡ Some x) × (result.now ≡ x.party) }
    {
        match &self.members_held[place] {
            Some(held) => held.view(),
            None => unreachable!(),
        }
    }
}
