// Whoever holds a party.
ghost use Rattle.std.specs.Prelude.{◌≡◌, IfOk, IfErr};
ghost use Rattle.member.specs.Member.{Member, plan_at, after};
ghost use Rattle.member.specs.Answers.{PlannedMember, answer_of};

use crate::answer::Answer;
use change_code::Space;
use party_state::{Input, State};
use std::alloc::Global;

/// A party with the space that is left for it, in memory or on disks. What it will do is planned with all memory taken, and
/// then carried out or cancelled.
pub trait Holder: Drop {
    /// The same with what it will do.
    type Planned: Drop;

    /// What is left where it failed.
    type Failed: Drop;

    // the member for which it stands
    ghost member: { Self → Member };

    // the member for which what is planned stands, and its plan
    ghost planned_member: { Self.Planned → PlannedMember };

    /// The state.
    fn view(&self) -> &State
        ensures { result.now ≡ (member self.now).party };

    /// The room that is left, and the format of what is kept in it.
    fn space(&self) -> Space
        ensures { result ≡ (member self.now).space };

    /// What the party will do with an input at a moment, by its role and the space that is left. Takes all memory that it
    /// wants; where there is none, the same holder comes back.
    fn plan(self, alloc: Global, input: &Input, moment: u64) -> Result<Self::Planned, Self>
        ensures planned { IfOk result (λ p. planned_member p ≡ record { member = member self; plan = plan_at (member self) input.now moment }) }
        ensures same { IfErr result (λ h. h ≡ self) };

    /// What will be answered.
    fn answer(planned: &Self::Planned) -> &Answer
        ensures { result.now ≡ answer_of (planned_member planned.now).plan };

    /// The member as it was.
    fn cancel(planned: Self::Planned) -> Self
        ensures { member result ≡ (planned_member planned).member };

    /// The member after what changes, and the answer. Takes no memory itself.
    fn carry_out(planned: Self::Planned) -> Result<(Self, Answer), Self::Failed>
        ensures next { IfOk result (λ done. member done.0 ≡ after (planned_member planned).member (planned_member planned).plan.edits) }
        ensures answer { IfOk result (λ done. done.1 ≡ answer_of (planned_member planned).plan) };
}
