// What holds of every plan, by a call that does nothing.
ghost use Rattle.std.specs.Prelude.{◌≡◌, ℕ, [], false};
ghost use Rattle.party_state.specs.declared.command.Input.{Input as TheInput};
ghost use Rattle.party_state.specs.State.{Party};
ghost use Rattle.party_state.specs.Verdicts.{is_accept};
ghost use Rattle.member.specs.Deciding.{decision};

/// A decision that refuses has no edits, so that what a plan keeps is accepted.
#[tactic(auto, using(crate::proofs::Refusals::refusal_without_edits))]
pub fn law_refusal()
    ensures { (p : Party) (i : TheInput) (moment : ℕ) → is_accept (decision p i moment).verdict ≡ false → (decision p i moment).change ≡ [] }
{}
