// The verdict of a list of tests, each with the verdict where it is the first that fails.
ghost use Rattle.std.specs.Prelude.{◌≡◌, ◌++◌};
ghost use Rattle.party_state.specs.Verdicts.{verdict_of, tests_pass, is_accept};
ghost use Rattle.role_base.specs.Failing.{failed_in};

use x_base::Verdict;

fn failed_in(tests: &[(bool, Verdict)]) -> Option<Verdict>
    ensures { result ≡ failed_in tests.now }
{
    tests.iter().find(|test| !test.0).map(|test| test.1)
}

/// The verdict of the first test that fails, or Accept.
#[tactic(auto, using(crate::proofs::Failing::none_failed_alone, crate::proofs::Failing::some_failed_alone))]
pub fn verdict_of(tests: &[(bool, Verdict)]) -> Verdict
    ensures { result ≡ verdict_of tests.now }
{
    match failed_in(tests) {
        Some(verdict) => verdict,
        None => Verdict::Accept,
    }
}

/// The verdict of two lists of tests, one after the other.
#[tactic(auto, using(crate::proofs::Failing::none_failed, crate::proofs::Failing::some_failed))]
pub fn verdict_after(front: &[(bool, Verdict)], tests: &[(bool, Verdict)]) -> Verdict
    ensures { result ≡ verdict_of (front.now ++ tests.now) }
{
    match failed_in(front) {
        Some(verdict) => verdict,
        None => verdict_of(tests),
    }
}

/// Whether the verdict is Accept.
pub fn is_accept(verdict: &Verdict) -> bool
    ensures { result ≡ is_accept verdict.now }
{
    *verdict == Verdict::Accept
}

/// Whether every test holds.
pub fn tests_pass(tests: &[(bool, Verdict)]) -> bool
    ensures { result ≡ tests_pass tests.now }
{
    match failed_in(tests) {
        Some(_) => false,
        None => true,
    }
}
