// What is done over two disks.
ghost use Rattle.std.specs.Prelude.{◌≡◌, IfOk, option_map};
ghost use Rattle.csm_grammar.specs.declared.arrival.Arrival.{Arrival};
ghost use Rattle.party_state.specs.State.{begun};
ghost use Rattle.party_state.specs.declared.command.Input.TheVariants.{Arrived};
ghost use Rattle.member.specs.Deciding.{decision};
ghost use Rattle.mirror_store.specs.Answers.{turn_disks};
ghost use Rattle.x_party.specs.Notices.{class_word, kept_notice};
ghost use Rattle.x_pair.specs.Notices.{HasPairNotice, notice_for};
ghost use Rattle.x_pair.specs.Outcomes.{showing, turning};
ghost use Rattle.x_pair.specs.Steps.{HasActed, HasCreated, outcome_of_turn};

use crate::opening::outcome_of;
use disk_pair::Disks;
use key_store::law_one_finding;
use mirror_store::{Mirror, PairTurn, PairUnmade, law_recovers};
use party_show::show_text;
use party_state::{Input, State};
use std::alloc::Global;
use x_base::{Ident, NoMemory, Role, Text};
use x_disk::Disk;
use x_gen::Gen;
use x_party::{Outcome, notice_at};

/// The disks afterwards, and what became of the turn.
fn ended<D: Disk>(turn: PairTurn<D>) -> (Disks<D>, Outcome)
    ensures disks { result.0 ≡ turn_disks turn }
    ensures outcome { result.1 ≡ outcome_of_turn turn }
{
    match turn {
        PairTurn::Done { mirror, reply, .. } => (mirror.into_disks(), Outcome::Done { reply }),
        PairTurn::Refused {
            mirror,
            verdict,
            reply,
            ..
        } => (mirror.into_disks(), Outcome::Refused { verdict, reply }),
        PairTurn::Broken(PairUnmade { disks, cause }) => (disks, outcome_of(cause)),
        PairTurn::NoMemory(mirror) => (mirror.into_disks(), Outcome::NoMemory),
    }
}

/// The notice of what a party decides of an input at a moment, where the word of the class of its message is given.
fn notice_for(
    alloc: Global,
    state: &State,
    input: &Input,
    class: Option<&[u8]>,
    moment: u64,
) -> Result<Option<Text>, NoMemory>
    ensures { IfOk result (λ notice. notice ≡ notice_for (option_map (λ w. w.now) class.entry) (decision state.now input.now moment).change) }
{
    match class {
        Some(class) => {
            let text = notice_at(alloc, state, input, class, moment)?;
            Ok(Some(text))
        }
        None => Ok(None),
    }
}

/// Opens the pair, and gives the party its turn, where it is that of the name. Where the word of the class of the input's message
/// is given, the notice is made before the turn; it is to be handed out only where the turn is done.
pub(crate) fn turn_over<D: Disk>(
    alloc: Global,
    disks: Disks<D>,
    name: &Ident,
    input: &Input,
    class: Option<&[u8]>,
    moment: u64,
) -> (Disks<D>, Outcome, Option<Text>)
    ensures acted { HasActed (turning name.now input.now moment) D.told disks result.0 result.1 }
    ensures notice { (a : Arrival) → input.now ≡ Arrived a → option_map (λ w. w.now) class.entry ≡ Some (class_word a.parsed.message) → HasPairNotice (D.told disks.first) (D.told disks.second) a moment result.1 (kept_notice result.1 result.2) }
{
    law_one_finding();
    law_recovers();
    match Mirror::open_pair(alloc, disks) {
        Ok(mirror) => {
            let own = mirror.view().own();
            if own != *name {
                let other = Outcome::OtherParty(*name, own);
                return (mirror.into_disks(), other, None);
            }
            match notice_for(alloc, mirror.view(), input, class, moment) {
                Ok(notice) => {
                    let turned = mirror.turn(alloc, input, moment);
                    let (disks, outcome) = ended(turned);
                    (disks, outcome, notice)
                }
                Err(_) => (mirror.into_disks(), Outcome::NoMemory, None),
            }
        }
        Err(PairUnmade { disks, cause }) => (disks, outcome_of(cause), None),
    }
}

/// Opens the pair, and shows the party.
pub(crate) fn show_over<D: Disk>(alloc: Global, disks: Disks<D>) -> (Disks<D>, Outcome)
    ensures { HasActed showing D.told disks result.0 result.1 }
{
    match Mirror::open_pair(alloc, disks) {
        Ok(mirror) => match show_text(alloc, mirror.view()) {
            Ok(text) => (mirror.into_disks(), Outcome::Done { reply: Some(text) }),
            Err(_) => (mirror.into_disks(), Outcome::NoMemory),
        },
        Err(PairUnmade { disks, cause }) => (disks, outcome_of(cause)),
    }
}

/// Creates a party on both disks.
pub(crate) fn create_over<D: Disk>(
    alloc: Global,
    disks: Disks<D>,
    own: Ident,
    role: Role,
    generator: Gen,
) -> (Disks<D>, Outcome)
    ensures { HasCreated (begun own role generator) D.told disks result.0 result.1 }
{
    match Mirror::create(alloc, disks, own, role, generator) {
        Ok(mirror) => (mirror.into_disks(), Outcome::Done { reply: None }),
        Err(PairUnmade { disks, cause }) => (disks, outcome_of(cause)),
    }
}
