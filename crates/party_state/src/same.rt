// Whether two states are equal.
ghost use Rattle.std.specs.Prelude.{◌≡◌, ◌↔◌, IsTrue, bytes_eq};
ghost use Rattle.party_state.specs.Same as same;

use crate::parts::Parts;
use crate::state::State;
use x_base::{Ident, Role};
use x_gen::Gen;

fn same_identity(one: Ident, other: Ident) -> bool
    ensures { result ≡ bytes_eq one other }
{
    one == other
}

fn same_role(one: Role, other: Role) -> bool
    ensures { result ≡ same.same_role one other }
{
    one == other
}

fn same_generator(one: Gen, other: Gen) -> bool
    ensures { result ≡ same.same_generator one other }
{
    one == other
}

/// Whether the rows of two parties are equal.
fn same_rows(one: &Parts, other: &Parts) -> bool
    ensures { IsTrue result ↔ ((one.now.0.links ≡ other.now.0.links) × (one.now.0.keys ≡ other.now.0.keys) × (one.now.0.exchanges ≡ other.now.0.exchanges) × (one.now.0.answers ≡ other.now.0.answers)) }
{
    one.links.same(&other.links)
        && one.keys.same(&other.keys)
        && one.exchanges.same(&other.exchanges)
        && one.answers.same(&other.answers)
}

impl State {
    /// Whether two states are equal: the same party with the same generator, and the same rows in the same order.
    #[tactic(auto, using(crate::proofs::Forms::same_party))]
    pub fn same(&self, other: &State) -> bool
        ensures { IsTrue result ↔ (self.now ≡ other.now) }
    {
        let one: &Parts = &self.parts;
        let two: &Parts = &other.parts;
        same_identity(one.own, two.own)
            && same_role(one.role, two.role)
            && same_generator(one.generator, two.generator)
            && same_rows(one, two)
    }
}
