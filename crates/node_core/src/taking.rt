// Commands and messages that arrive.
ghost use Rattle.party_state.specs.declared.command.Input.TheVariants.{Ordered, Arrived};
ghost use Rattle.member.specs.Acts.{taking};
ghost use Rattle.member.specs.Member.{plan_at};
ghost use Rattle.node_core.specs.Turns.{IsTurn, member_of};

use crate::node::{Node, Turn};
use csm_grammar::Arrival;
use party_state::{Command, Input};
use std::alloc::Global;
use x_disk::Disk;

impl<D: Disk> Node<D> {
    /// Decides of a command or a message at a moment (microseconds since 1970) by the party's role, keeps the change, and then
    /// hands out the reply.
    /// What is refused changes nothing, and a refused message may be answered.
    pub fn turn(self, alloc: Global, input: &Input, moment: u64) -> Turn<D>
        ensures { IsTurn D.told self (taking (plan_at (member_of self) input.now moment)) result }
    {
        match self.plan(alloc, input, moment) {
            Ok(planned) => planned.carry_out(),
            Err(node) => Turn::NoMemory(node),
        }
    }

    /// The turn of a message that arrived.
    pub fn take(self, alloc: Global, arrival: Arrival, moment: u64) -> Turn<D>
        ensures { IsTurn D.told self (taking (plan_at (member_of self) (Arrived arrival) moment)) result }
    {
        self.turn(alloc, &Input::Arrived(arrival), moment)
    }

    /// The turn of an operator's command.
    pub fn order(self, alloc: Global, command: Command, moment: u64) -> Turn<D>
        ensures { IsTurn D.told self (taking (plan_at (member_of self) (Ordered command) moment)) result }
    {
        self.turn(alloc, &Input::Ordered(command), moment)
    }
}
