// A node that will do something with an input: all memory is taken, and no disk call is made yet.
ghost use Rattle.std.specs.Prelude.{◌≡◌, option_map, IfOk, IfErr};
ghost use Rattle.x_disk.specs.Fuse.{IsFusedView, fused_view};
ghost use Rattle.party_state.specs.Limits.{IsWithinLimits};
ghost use Rattle.party_state.specs.State.{apply};
ghost use Rattle.change_code.specs.Framed.{AreFramed};
ghost use Rattle.key_store.specs.Store.{IsStore};
ghost use Rattle.member.specs.Acts.{taking};
ghost use Rattle.member.specs.Answers.{answer_of};
ghost use Rattle.member.specs.Member.{plan_at};
ghost use Rattle.node_core.specs.Turns.{IsTurn, WantsNone, member_of};

use crate::node::{Node, Turn};
use key_store::Changing;
use member::{Answer, Plan};
use party_state::{Input, State};
use std::alloc::Global;
use std::marker::Model;
use x_base::{NoMemory, Text};
use x_disk::{Disk, Fused};

/// A node and what it will do with an input, with all memory taken. Nothing of it is on the disk yet.
#[derive(Drop)]
pub struct Planned<D: Disk> {
    pub(crate) changing: Changing<D>,
    pub(crate) answer: Answer,
}

impl<D: Disk> Model for Planned<D> {
    ghost use Rattle.key_store.specs.Store.{IsStore};
    ghost use Rattle.party_state.specs.Ranges.{HasNoBegin};
    ghost use Rattle.member.specs.Answers.{plan_with};
    ghost use Rattle.node_core.specs.Planned.{PlannedNode};

    ghost Value = { PlannedNode D };

    ghost view = { λ p. record { node = p.changing.store; plan = plan_with p.answer p.changing.edits } };

    ghost invariant = { λ p. IsStore (D.told p.changing.store.disk) p.changing.store.gate p.changing.store.end p.changing.store.format p.changing.store.party × HasNoBegin p.changing.edits };
}

impl<D: Disk> Node<D> {
    /// What the party will do with an input at a moment, by its role and the room that is left. Takes all memory that it
    /// wants, and makes no disk call; where there is no memory, the same node comes back.
    pub fn plan(self, alloc: Global, input: &Input, moment: u64) -> Result<Planned<D>, Node<D>>
        ensures planned { IfOk result (λ p. p ≡ record { node = self; plan = plan_at (member_of self) input.now moment }) }
        ensures same { IfErr result (λ node. node ≡ self) }
        ensures stands { IfErr result (λ node. IsStore (D.told node.disk) node.gate node.end node.format node.party) }
    {
        let Ok(plan) = Plan::of(alloc, self.store.view(), self.store.space(), input, moment) else {
            return Err(self);
        };
        let (answer, framed) = plan.into_parts();
        match self.store.prepare(framed) {
            Ok(changing) => Ok(Planned { changing, answer }),
            Err(store) => Err(Node { store }),
        }
    }
}

impl<D: Disk> Planned<D> {
    /// What will be answered.
    pub fn plan(&self) -> &Answer
        ensures { result.now ≡ answer_of self.now.plan }
    {
        &self.answer
    }

    /// The text of the frame in which the edits will be kept; none where there are none. What follows its first four
    /// bytes is the code of the change.
    pub fn frame(&self) -> Option<&Text>
        ensures { AreFramed self.now.node.format self.now.plan.edits (option_map (λ text. text.now) result) }
    {
        self.changing.frame()
    }

    /// The party after the edits, which keeps its identity, in memory of its own. Makes no disk call.
    #[tactic(auto, using(crate::proofs::Turning::own_after))]
    pub fn next(&self, alloc: Global) -> Result<State, NoMemory>
        ensures party { IfOk result (λ s. s ≡ apply self.now.plan.edits self.now.node.party) }
        ensures own { IfOk result (λ s. s.own ≡ self.now.node.party.own) }
        ensures within { IfOk result IsWithinLimits }
    {
        self.changing.next(alloc)
    }

    /// The node as it was. Makes no disk call.
    pub fn cancel(self) -> Node<D>
        ensures { result ≡ self.node }
    {
        Node {
            store: self.changing.cancel(),
        }
    }

    /// The same over a disk that fails after so many calls. Makes no disk call and takes no memory.
    pub fn fuse(self, calls: u64) -> Planned<Fused<D>>
        ensures fused { IsFusedView calls (D.told self.node.disk) (fused_view D.told result.node.disk) }
        ensures party { result.node.party ≡ self.node.party }
        ensures place { (result.node.gate ≡ self.node.gate) × (result.node.end ≡ self.node.end) }
        ensures format { result.node.format ≡ self.node.format }
        ensures stands { IsStore (fused_view D.told result.node.disk) result.node.gate result.node.end result.node.format result.node.party }
        ensures plan { result.plan ≡ self.plan }
    {
        Planned {
            changing: self.changing.fuse(calls),
            answer: self.answer,
        }
    }

    /// Keeps what changes, by disk calls alone, and then hands out the answer. Takes no memory itself: `NoMemory` never
    /// comes, and where the disk wants memory it is `Broken`, with that cause.
    pub fn carry_out(self) -> Turn<D>
        ensures turn { IsTurn D.told self.node (taking self.plan) result }
        ensures memory { WantsNone result }
    {
        let Planned { changing, answer } = self;
        let Answer {
            verdict,
            reply,
            under,
            ..
        } = answer;
        match changing.keep() {
            Ok(store) => Turn::Done {
                node: Node { store },
                verdict,
                reply,
                under,
            },
            Err(broken) => Turn::Broken(broken),
        }
    }
}
