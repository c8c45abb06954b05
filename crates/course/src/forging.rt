// Whether a holder of its key made the code of what arrives.
ghost use Rattle.std.specs.Prelude.{◌≡◌, true, false, List, Some, map};
ghost use Rattle.party_state.specs.State.{Party};
ghost use Rattle.member.specs.Leads.{lead_in};
ghost use Rattle.world_laws.specs.World.{Fact};
ghost use Rattle.world_laws.specs.Honest.{is_honest_lead, named_text};
ghost use Rattle.course.specs.Forging.{HonestInput, is_honest_input};

use fact_book::FactBook;
use party_state::{Input, Lead};
use world_laws::law_runs;

/// Whether the code doesn't agree, or a fact has it.
fn is_honest_lead(facts: &FactBook, lead: &Option<Lead>, text: &[u8]) -> bool
    ensures { result ≡ is_honest_lead facts.now text.now lead.now }
{
    match lead {
        Some(lead) => !lead.verified || facts.has(&lead.under, text),
        None => true,
    }
}

/// The same of an input, by its lead.
fn is_honest_input(facts: &FactBook, input: &Input, lead: &Option<Lead>) -> bool
    ensures { result ≡ is_honest_input facts.now input.now lead.now }
{
    match input {
        Input::Ordered(_) => true,
        Input::Arrived(arrival) => is_honest_lead(facts, lead, arrival.auth()),
    }
}

/// Whether an input is honest, by its lead at the party.
pub fn is_honest(facts: &FactBook, input: &Input, lead: &Option<Lead>) -> bool
    ensures honest { (known : List Fact) (p : Party) → facts.now ≡ map named_text known → lead.now ≡ lead_in p input.now → result ≡ true → HonestInput known p (Some input.now) }
    ensures forged { (known : List Fact) (p : Party) → facts.now ≡ map named_text known → lead.now ≡ lead_in p input.now → result ≡ false → HonestInput known p (Some input.now) → ⊥ }
{
    law_runs();
    is_honest_input(facts, input, lead)
}
