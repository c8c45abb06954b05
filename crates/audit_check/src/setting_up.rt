// The parties of a scenario are set up in memory.
ghost use Rattle.std.specs.Prelude.{◌≡◌, ◌∷◌, [], IfOk};
ghost use Rattle.party_state.specs.Ranges.{IsFitting};
ghost use Rattle.party_tables.specs.Ranges.{IsNextCount};
ghost use Rattle.change_code.specs.Cost.{space_after};
ghost use Rattle.course.specs.Parties.{full_member};
ghost use Rattle.course.specs.Starts.{start_members, with_load};
ghost use Rattle.audit_check.specs.States.{HoldsMembers};

use crate::parties::Parties;
use change_code::{Format, Framed, Space, law_short_code};
use course::{NewParty, law_scenario_starts, load_at, new_party};
use member::PartyInMemory;
use party_state::{Change, Edit, LinkRec, State, first_state};
use scenario::{Line, Scenario};
use std::alloc::Global;
use x_base::NoMemory;

/// How many bytes the area of a file has in which changes are kept.
const AREA_SIZE: u64 = 8_388_600;

/// The space behind a change of one edit.
fn space_behind(alloc: Global, space: Space, edit: Edit) -> Result<Space, NoMemory>
    requires { IsFitting edit }
    ensures { IfOk result (λ left. left ≡ space_after space (edit ∷ [])) }
{
    let Space { format, room } = space;
    let mut change = Change::new(alloc);
    change.push(edit)?;
    law_short_code(format, &change);
    let framed = Framed::of(alloc, format, change)?;
    if framed.fits(room) {
        Ok(framed.space_after(room))
    } else {
        Ok(Space { format, room: 0 })
    }
}

/// Loads a link at a party with this space, by a change of its own. The space that is left.
fn load(state: &mut State, space: Space, alloc: Global, link: &LinkRec) -> Result<Space, NoMemory>
    requires { IsNextCount link.now.next }
    ensures { IfOk result (λ left. record { party = state.new; space = left } ≡ with_load (record { party = state.old; space = space }) link.now) }
{
    let left = space_behind(alloc, space, Edit::PutLink(*link))?;
    state.edit(Edit::PutLink(*link))?;
    Ok(left)
}

/// A party with all links that the lines load at it.
fn new_held(alloc: Global, lines: &[Line], party: &NewParty) -> Result<PartyInMemory, NoMemory>
    ensures { IfOk result (λ held. held ≡ full_member lines.now party.now) }
{
    let NewParty {
        own,
        role,
        generator,
    } = *party;
    let mut state = first_state(alloc, own, role, generator)?;
    let begin = Edit::Begin {
        own,
        role,
        generator,
    };
    let area = Space {
        format: Format::Two,
        room: AREA_SIZE,
    };
    let mut space = space_behind(alloc, area, begin)?;
    'loading: for line in lines {
        if let Some(link) = load_at(&own, line) {
            space = load(&mut state, space, alloc, &link)?;
        }
    }
    Ok(PartyInMemory::of(state, space))
}

/// The parties of a scenario, with the links that its lines load.
pub(crate) fn set_up(alloc: Global, scenario: &Scenario) -> Result<Parties, NoMemory>
    ensures { IfOk result (λ parties. HoldsMembers parties (start_members scenario.now)) }
{
    law_scenario_starts(scenario);
    let lines = scenario.lines();
    let mut parties = Parties::new(alloc);
    'setting: for line in lines {
        if let Some(party) = new_party(line) {
            parties.add(new_held(alloc, lines, &party)?)?;
        }
    }
    Ok(parties)
}
