// How many key records of a party have a status.
ghost use Rattle.std.specs.Prelude.{◌≡◌, ◌≤◌, length, slice_get};
ghost use Rattle.std.specs.Option.{option_map_or};
ghost use Rattle.party_state.specs.Limits.{IsWithinLimits};
ghost use Rattle.course.specs.Tallies.{one_with, count_status};

use party_state::{KeyStatus, State};

/// 1 where record `i` of a party has this status, and 0 otherwise.
fn count_at(state: &State, i: usize, status: KeyStatus) -> usize
    ensures { result ≡ option_map_or (one_with status) (slice_get state.now.keys i) 0 }
{
    match state.key_at(i) {
        Some(key) if key.status == status => 1,
        _ => 0,
    }
}

/// How many records of a party have this status.
pub fn count_records(state: &State, status: KeyStatus) -> usize
    ensures count { result ≡ count_status status state.now.keys }
    ensures few { result ≤ length state.now.keys }
{
    let mut count = 0;
    for i in 0..state.key_count() {
        count += count_at(state, i, status);
    }
    count
}

/// The same of a party that keeps its limits.
pub fn count_in(state: &State, status: KeyStatus) -> u32
    requires { IsWithinLimits state.now }
    ensures count { result ≡ count_status status state.now.keys }
    ensures few { result ≤ 1024 }
{
    count_records(state, status) as u32
}
