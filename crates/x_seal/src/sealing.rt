ghost use Rattle.std.specs.Prelude.{◌≡◌, ◌<◌, ◌^◌, ℕ, List};
ghost use Rattle.x_mac.specs.declared.pair.Pair.{Pair};
ghost use Rattle.x_seal.specs.Wrapped.{seal_of, unseal_of, unwrap_of, unwrap_pair_of, wrap_of, wrap_pair_of};

use crate::offsetting::{notarize, offset};
use x_base::{Count, Ident};
use x_mac::{Pair, PairSchedule, ded, ede};

/// A key of 64 bits, encrypted under a key-encrypting key that is offset with a count.
#[tactic(auto, unfolding(crate::specs::Wrapped::wrap_of, crate::specs::Wrapped::unwrap_of))]
pub fn wrap(kk: Pair, count: Count, key: u64) -> u64
    ensures wrapped { result ≡ wrap_of kk count key }
    ensures undone { unwrap_of kk count result ≡ key }
{
    ede(offset(kk, count), key)
}

/// The key that `wrap` encrypted.
#[tactic(auto, unfolding(crate::specs::Wrapped::wrap_of, crate::specs::Wrapped::unwrap_of))]
pub fn unwrap(kk: Pair, count: Count, sealed: u64) -> u64
    ensures unwrapped { result ≡ unwrap_of kk count sealed }
    ensures undone { wrap_of kk count result ≡ sealed }
{
    ded(offset(kk, count), sealed)
}

/// A pair of keys, each wrapped with the same count.
#[tactic(auto, unfolding(crate::specs::Wrapped::wrap_of, crate::specs::Wrapped::unwrap_of))]
pub fn wrap_pair(kk: Pair, count: Count, new: Pair) -> Pair
    ensures wrapped { result ≡ wrap_pair_of kk count new }
    ensures undone { unwrap_pair_of kk count result ≡ new }
{
    let schedule = PairSchedule::new(offset(kk, count));
    Pair {
        left: schedule.ede(new.left),
        right: schedule.ede(new.right),
    }
}

/// The pair that `wrap_pair` wrapped.
#[tactic(auto, unfolding(crate::specs::Wrapped::wrap_of, crate::specs::Wrapped::unwrap_of))]
pub fn unwrap_pair(kk: Pair, count: Count, sealed: Pair) -> Pair
    ensures unwrapped { result ≡ unwrap_pair_of kk count sealed }
    ensures undone { wrap_pair_of kk count result ≡ sealed }
{
    let schedule = PairSchedule::new(offset(kk, count));
    Pair {
        left: schedule.ded(sealed.left),
        right: schedule.ded(sealed.right),
    }
}

/// A key of 64 bits, encrypted under a key-encrypting key that is notarized for two identities and
/// a count.
#[tactic(auto, unfolding(crate::specs::Wrapped::seal_of, crate::specs::Wrapped::unseal_of))]
pub fn seal(kk: Pair, from: &Ident, to: &Ident, count: Count, key: u64) -> u64
    ensures sealed { result ≡ seal_of kk from.now to.now count key }
    ensures undone { unseal_of kk from.now to.now count result ≡ key }
{
    ede(notarize(kk, from, to, count), key)
}

/// The key that `seal` encrypted.
#[tactic(auto, unfolding(crate::specs::Wrapped::seal_of, crate::specs::Wrapped::unseal_of))]
pub fn unseal(kk: Pair, from: &Ident, to: &Ident, count: Count, sealed: u64) -> u64
    ensures unsealed { result ≡ unseal_of kk from.now to.now count sealed }
    ensures undone { seal_of kk from.now to.now count result ≡ sealed }
{
    ded(notarize(kk, from, to, count), sealed)
}

/// Unwrapping undoes wrapping, and wrapping unwrapping, at each count.
#[tactic(auto, using(crate::proofs::Undoing::unwraps, crate::proofs::Undoing::wraps_again))]
pub fn law_unwraps()
    ensures unwrapped { (kk : Pair) (count key : ℕ) → key < 2 ^ 64 → unwrap_of kk count (wrap_of kk count key) ≡ key }
    ensures wrapped { (kk : Pair) (count sealed : ℕ) → sealed < 2 ^ 64 → wrap_of kk count (unwrap_of kk count sealed) ≡ sealed }
{}

/// Unsealing undoes sealing, and sealing unsealing, for the same identities and count.
#[tactic(auto, using(crate::proofs::Undoing::unseals, crate::proofs::Undoing::seals_again))]
pub fn law_unseals()
    ensures unsealed { (kk : Pair) (from to : List ℕ) (count key : ℕ) → key < 2 ^ 64 → unseal_of kk from to count (seal_of kk from to count key) ≡ key }
    ensures sealed { (kk : Pair) (from to : List ℕ) (count sealed : ℕ) → sealed < 2 ^ 64 → seal_of kk from to count (unseal_of kk from to count sealed) ≡ sealed }
{}

/// What is wrapped, unwrapped, sealed or unsealed has 64 bits.
#[tactic(auto, using(crate::proofs::Undoing::wrapped_below, crate::proofs::Undoing::unwrapped_below, crate::proofs::Undoing::sealed_below, crate::proofs::Undoing::unsealed_below))]
pub fn law_keys_below()
    ensures wrapped { (kk : Pair) (count key : ℕ) → wrap_of kk count key < 2 ^ 64 }
    ensures unwrapped { (kk : Pair) (count sealed : ℕ) → unwrap_of kk count sealed < 2 ^ 64 }
    ensures sealed { (kk : Pair) (from to : List ℕ) (count key : ℕ) → seal_of kk from to count key < 2 ^ 64 }
    ensures unsealed { (kk : Pair) (from to : List ℕ) (count sealed : ℕ) → unseal_of kk from to count sealed < 2 ^ 64 }
{}
