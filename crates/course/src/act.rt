// What a line makes happen.
use party_state::Input;
use x_base::Ident;

/// What is to be done.
#[derive(Drop)]
pub enum LineAct {
    Nothing,
    /// A party has an input.
    Give { party: Ident, input: Input },
    /// Bytes arrive at a party of which nothing is heard; the number of why.
    Refuse { party: Ident, number: u32 },
}
