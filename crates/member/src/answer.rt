// What a member will answer.
use party_state::Lead;
use x_base::{FullName, Text, Verdict};

/// What a member will answer to an input: the key under which the code of the input is tested, the verdict, what it
/// writes, and the key under which it makes a code.
#[derive(Drop)]
pub struct Answer {
    pub lead: Option<Lead>,
    pub verdict: Verdict,
    pub reply: Option<Text>,
    pub under: Option<FullName>,
}
