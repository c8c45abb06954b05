// A state with its frame.
use party_state::State;
use std::marker::Model;
use x_base::Text;

/// A state, and the frame in format 2 that makes it from nothing: so no memory is wanted any more to write it.
#[derive(Drop)]
pub struct FramedState {
    pub(crate) text: Text,
    pub(crate) state: State,
}

impl Model for FramedState {
    ghost use Rattle.party_state.specs.State.{Party};
    ghost use Rattle.key_store.specs.Replacing.{IsFramedState};

    ghost Value = { Party };

    ghost view = { λ f. f.state };

    ghost invariant = { λ f. IsFramedState f.text f.state };
}
