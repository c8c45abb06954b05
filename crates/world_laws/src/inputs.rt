// What a member does with an input is an event of the network, told by a call that does nothing.
ghost use Rattle.std.specs.Prelude.{ℕ};
ghost use Rattle.party_state.specs.declared.command.Input.{Input as TheInput};
ghost use Rattle.member.specs.Member.{Member, plan_at};
ghost use Rattle.member.specs.Acts.{taking};
ghost use Rattle.world_laws.specs.Nodes.{IsEventOf, input_event};

/// What a member plans for an input is the event of that input at it.
pub fn law_inputs()
    ensures { (x : Member) (i : TheInput) (moment : ℕ) → IsEventOf x (taking (plan_at x i moment)) (input_event x i moment) }
{}
