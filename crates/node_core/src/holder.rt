// A node holds a party on a disk.
ghost use Rattle.node_core.specs.Planned.{planned_member_of};
ghost use Rattle.node_core.specs.Turns.{member_of};

use crate::node::Node;
use crate::planned::Planned;
use change_code::Space;
use key_journal::Broken;
use member::{Answer, Holder};
use party_state::{Input, State};
use std::alloc::Global;
use x_disk::Disk;

impl<D: Disk> Holder for Node<D> {
    type Planned = Planned<D>;

    type Failed = Broken<D>;

    ghost member = { member_of };

    ghost planned_member = { planned_member_of };

    fn view(&self) -> &State {
        self.store.view()
    }

    fn space(&self) -> Space {
        self.store.space()
    }

    fn plan(self, alloc: Global, input: &Input, moment: u64) -> Result<Planned<D>, Node<D>> {
        Node::plan(self, alloc, input, moment)
    }

    fn answer(planned: &Planned<D>) -> &Answer {
        planned.plan()
    }

    fn cancel(planned: Planned<D>) -> Node<D> {
        planned.cancel()
    }

    fn carry_out(planned: Planned<D>) -> Result<(Node<D>, Answer), Broken<D>> {
        let Planned { changing, answer } = planned;
        match changing.keep() {
            Ok(store) => Ok((Node { store }, answer)),
            Err(broken) => Err(broken),
        }
    }
}
