// What a party will do with an entry, before anything of it is kept.
ghost use Rattle.std.specs.Prelude.{◌≤◌, length};
ghost use Rattle.csm_feed.specs.Heard.{input_limit};
ghost use Rattle.csm_spool.specs.Courses.{IsHeard};
ghost use Rattle.csm_spool.specs.Foreseeing.{Foresees};

use crate::planning::{plan_of, plan_of_unheard};
use csm_batch::Entry;
use csm_feed::hear;
use csm_grammar::Arrival;
use member::law_ranged;
use node_core::{Node, Planned};
use party_state::Input;
use spool_store::{EntryPlan, is_short};
use std::alloc::Global;
use x_base::NoMemory;
use x_disk::Disk;

/// What a party will do with an entry.
#[derive(Drop)]
pub enum Foreseen<D: Disk> {
    /// A message is heard. All memory that the party wants for it is taken.
    Message {
        planned: Planned<D>,
        plan: EntryPlan,
    },
    /// No message is heard.
    Refused {
        node: Node<D>,
        plan: EntryPlan,
    },
    /// No memory was left, or the plan is longer than a plan may be.
    NoMemory(Node<D>),
}

/// What a party will do with a message that is heard of an entry.
fn foresee_message<D: Disk>(
    alloc: Global,
    node: Node<D>,
    entry: &Entry,
    arrival: Arrival,
) -> Foreseen<D>
    requires { IsHeard entry.now.bytes arrival }
    ensures { Foresees node entry.now result }
{
    node.view().law_party();
    law_ranged();
    let planning = node.plan(alloc, &Input::Arrived(arrival), entry.moment);
    match planning {
        Err(node) => Foreseen::NoMemory(node),
        Ok(planned) => match plan_of(alloc, &planned) {
            Err(NoMemory) => Foreseen::NoMemory(planned.cancel()),
            Ok(plan) => {
                if is_short(&plan) {
                    Foreseen::Message { planned, plan }
                } else {
                    Foreseen::NoMemory(planned.cancel())
                }
            }
        },
    }
}

/// What a party will do with an entry.
pub(crate) fn foresee<D: Disk>(alloc: Global, node: Node<D>, entry: &Entry) -> Foreseen<D>
    requires { length entry.now.bytes ≤ input_limit }
    ensures { Foresees node entry.now result }
{
    match hear(alloc, entry.bytes.bytes()) {
        Err(NoMemory) => Foreseen::NoMemory(node),
        Ok(Ok(arrival)) => foresee_message(alloc, node, entry, arrival),
        Ok(Err(unheard)) => Foreseen::Refused {
            node,
            plan: plan_of_unheard(alloc, unheard),
        },
    }
}
