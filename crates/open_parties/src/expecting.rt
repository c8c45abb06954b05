// The members of which one stands after a stopped event, and whether the one that was opened again is it.
ghost use Rattle.std.specs.Prelude.{◌≡◌, ◌↔◌, IsTrue, cond, nat_eq, not, IfOk};
ghost use Rattle.key_store.specs.Store.{space};
ghost use Rattle.node_core.specs.Turns.{member_of};
ghost use Rattle.member.specs.Member.{after, plan_at};
ghost use Rattle.open_parties.specs.Expecting.{AreExpected};

use member::{Holder, PartyInMemory};
use node_core::Node;
use party_state::Input;
use std::alloc::Global;
use x_base::NoMemory;
use x_disk::Disk;

/// The members of which one stands after a stopped event: the one before it, and the one after it.
#[derive(Drop)]
pub struct Expected {
    pub before: PartyInMemory,
    pub after: PartyInMemory,
}

/// The member of a node, in memory.
fn copied<D: Disk>(alloc: Global, node: &Node<D>) -> Result<PartyInMemory, NoMemory>
    ensures { IfOk result (λ held. held ≡ member_of node.now) }
{
    Ok(PartyInMemory::of(node.view().copy(alloc)?, node.space()))
}

/// Whether a node stands for a member.
fn stands_for<D: Disk>(node: &Node<D>, held: &PartyInMemory) -> bool
    ensures { IsTrue result ↔ (member_of node.now ≡ held.now) }
{
    node.view().same(held.view()) && node.space() == held.space()
}

impl Expected {
    /// Of an input that the party of a node has.
    pub fn of_input<D: Disk>(
        alloc: Global,
        node: &Node<D>,
        input: &Input,
        moment: u64,
    ) -> Result<Expected, NoMemory>
        ensures { IfOk result (λ e. AreExpected e (member_of node.now) (after (member_of node.now) (plan_at (member_of node.now) input.now moment).edits)) }
    {
        let before = copied(alloc, node)?;
        let Ok(planned) = copied(alloc, node)?.plan(alloc, input, moment) else {
            return Err(NoMemory);
        };
        match PartyInMemory::carry_out(planned) {
            Ok((after, _)) => Ok(Expected { before, after }),
            Err(never) => match never {},
        }
    }

    /// Of bytes of which nothing is heard.
    pub fn of_unheard<D: Disk>(alloc: Global, node: &Node<D>) -> Result<Expected, NoMemory>
        ensures { IfOk result (λ e. AreExpected e (member_of node.now) (member_of node.now)) }
    {
        let before = copied(alloc, node)?;
        let after = copied(alloc, node)?;
        Ok(Expected { before, after })
    }

    /// Whether the member after the event was opened, by its room: a change takes some.
    pub fn is_after<D: Disk>(&self, node: &Node<D>) -> bool
        ensures { result ≡ not (nat_eq (space node.now).room self.now.before.space.room) }
    {
        node.space().room != self.before.space().room
    }

    /// Whether the node stands for the member after the event, or for the one before it.
    pub fn holds<D: Disk>(&self, node: &Node<D>, after: bool) -> bool
        ensures { IsTrue result ↔ (member_of node.now ≡ cond after self.now.after self.now.before) }
    {
        if after {
            stands_for(node, &self.after)
        } else {
            stands_for(node, &self.before)
        }
    }
}
