// What comes behind the last line: the parties are shown, and their key records counted.
ghost use Rattle.std.specs.Prelude.{◌≡◌, ◌≤◌, ◌+◌, ◌++◌, ℕ, List, IfOk, OnOk};
ghost use Rattle.member.specs.Member.{Member};
ghost use Rattle.course.specs.Tallies.{IsTallied, count_status, records_of};
ghost use Rattle.course.specs.Transcript.{show_lines};
ghost use Rattle.audit_check.specs.Compared.{compared};
ghost use Rattle.audit_check.specs.States.{HoldsEach, HoldsMembers};

use crate::comparison::Comparison;
use crate::parties::Parties;
use course::{Progress, Tally, count_records};
use party_show::show_text;
use party_state::KeyStatus;
use std::alloc::Global;
use x_base::NoMemory;

/// Makes the show lines of each party, in their order.
pub(crate) fn compare_shows(
    parties: &Parties,
    comparison: &mut Comparison,
    alloc: Global,
) -> Result<(), NoMemory>
    requires { HoldsEach parties.now }
    ensures { OnOk result ((members : List Member) (made given : List ℕ) → HoldsMembers parties.now members → comparison.old ≡ compared made given
        → comparison.new ≡ compared (made ++ show_lines members) given) }
{
    'showing: for place in 0..parties.len() {
        let text = show_text(alloc, parties.view_at(place))?;
        comparison.add(text.bytes());
    }
    Ok(())
}

/// The sum; no memory can hold so many records that it wouldn't be told.
fn sum_of(count: u32, more: usize) -> Result<u32, NoMemory>
    ensures { IfOk result (λ sum. sum ≡ count + more) }
{
    let Ok(more) = u32::try_from(more) else {
        return Err(NoMemory);
    };
    match count.checked_add(more) {
        Some(sum) => Ok(sum),
        None => Err(NoMemory),
    }
}

/// How many key records of all parties have this status.
fn count_keys(parties: &Parties, status: KeyStatus) -> Result<u32, NoMemory>
    requires { HoldsEach parties.now }
    ensures { IfOk result (λ count. (members : List Member) → HoldsMembers parties.now members → count ≡ count_status status (records_of members)) }
{
    let mut count = 0;
    'counting: for place in 0..parties.len() {
        count = sum_of(count, count_records(parties.view_at(place), status))?;
    }
    Ok(count)
}

/// The outcomes so far, and the key records of all parties as they are.
pub(crate) fn tally_of(parties: &Parties, now: &Progress) -> Result<Tally, NoMemory>
    requires holds_each { HoldsEach parties.now }
    requires numbered { 1 ≤ now.now.number }
    ensures { IfOk result (λ tally. (members : List Member) → HoldsMembers parties.now members → IsTallied now.now members tally) }
{
    let counts = now.counts;
    Ok(Tally {
        events: now.number - 1,
        done: counts.done,
        refused: counts.refused,
        stopped: counts.stopped,
        none: counts.none,
        texts: counts.texts,
        live: count_keys(parties, KeyStatus::Live)?,
        held: count_keys(parties, KeyStatus::Held)?,
        closing: count_keys(parties, KeyStatus::Closing)?,
        ended: count_keys(parties, KeyStatus::Ended)?,
    })
}
