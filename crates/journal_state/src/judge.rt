// What a body makes of a state.
ghost use Rattle.std.specs.Prelude.{◌≡◌, List, ℕ, true, false, IfOk};

use std::alloc::Global;
use x_base::NoMemory;

/// A state that is made by the bodies of a journal.
pub trait Judge: Drop {
    // the state before the first body
    ghost start: { Self };

    // the body leads from one state to the next
    ghost step: { List ℕ → Self → Self → Type 0 };

    /// The state before the first body.
    fn start(alloc: Global) -> Self
        ensures { result ≡ start };

    /// Makes of the state the next one, and answers whether the body does that. Where it doesn't, the state isn't used
    /// any more.
    fn follow(&mut self, alloc: Global, body: &[u8]) -> Result<bool, NoMemory>
        ensures yes { IfOk result (λ goes. goes ≡ true → step body.now self.old self.new) }
        ensures no { IfOk result (λ goes. goes ≡ false → (next : Self) → step body.now self.old next → ⊥) };

    // a body leads to one state
    ghost one_next: { (body : List ℕ) (old a b : Self) → step body old a → step body old b → a ≡ b };
}
