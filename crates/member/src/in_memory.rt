// A member in memory.
ghost use Rattle.std.specs.Prelude.{◌≡◌};

use crate::answer::Answer;
use crate::holder::Holder;
use crate::plan::Plan;
use change_code::Space;
use party_state::{Input, Prepared, State};
use std::alloc::Global;
use std::convert::Infallible;
use std::marker::Model;

/// A party and the space that is left for it, on no disk.
#[derive(Drop)]
pub struct PartyInMemory {
    state: State,
    space: Space,
}

impl Model for PartyInMemory {
    ghost use Rattle.member.specs.Member.{Member};

    ghost Value = { Member };

    ghost view = { λ h. record { party = h.state; space = h.space } };
}

/// A member in memory and what it will do, with all memory taken.
#[derive(Drop)]
pub struct PlannedInMemory {
    prepared: Prepared,
    space: Space,
    left: Space,
    answer: Answer,
}

impl Model for PlannedInMemory {
    ghost use Rattle.std.specs.Prelude.{◌≡◌};
    ghost use Rattle.change_code.specs.Cost.{space_after};
    ghost use Rattle.member.specs.Answers.{PlannedMember, plan_with};

    ghost Value = { PlannedMember };

    ghost view = { λ p. record { member = record { party = p.prepared.party; space = p.space }; plan = plan_with p.answer p.prepared.edits } };

    ghost invariant = { λ p. p.left ≡ space_after p.space p.prepared.edits };
}

impl PartyInMemory {
    /// A party with this space.
    pub fn of(state: State, space: Space) -> PartyInMemory
        ensures { result ≡ record { party = state; space = space } }
    {
        PartyInMemory { state, space }
    }
}

impl Holder for PartyInMemory {
    type Planned = PlannedInMemory;

    type Failed = Infallible;

    ghost member = { λ h. h };

    ghost planned_member = { λ p. p };

    fn view(&self) -> &State {
        &self.state
    }

    fn space(&self) -> Space {
        self.space
    }

    fn plan(
        self,
        alloc: Global,
        input: &Input,
        moment: u64,
    ) -> Result<PlannedInMemory, PartyInMemory> {
        let PartyInMemory { state, space } = self;
        let Ok(plan) = Plan::of(alloc, &state, space, input, moment) else {
            return Err(PartyInMemory { state, space });
        };
        let (answer, framed) = plan.into_parts();
        let left = framed.space_after(space.room);
        let (change, _) = framed.into_parts();
        match state.prepare(change) {
            Ok(prepared) => Ok(PlannedInMemory {
                prepared,
                space,
                left,
                answer,
            }),
            Err(state) => Err(PartyInMemory { state, space }),
        }
    }

    fn answer(planned: &PlannedInMemory) -> &Answer {
        &planned.answer
    }

    fn cancel(planned: PlannedInMemory) -> PartyInMemory {
        PartyInMemory {
            state: planned.prepared.cancel(),
            space: planned.space,
        }
    }

    fn carry_out(planned: PlannedInMemory) -> Result<(PartyInMemory, Answer), Infallible> {
        let PlannedInMemory {
            prepared,
            left,
            answer,
            ..
        } = planned;
        let state = prepared.finish();
        Ok((PartyInMemory { state, space: left }, answer))
    }
}
