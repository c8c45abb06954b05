// Inputs of which a message is heard.
use crate::texts::refusal_told;
use csm_feed::{INPUT_LIMIT, Unheard, hear};
use csm_grammar::Arrival;
use std::alloc::Global;
use std::str::from_utf8;
use x_base::NoMemory;

fn unheard_told(alloc: Global, unheard: Unheard) -> Result<String, NoMemory> {
    match unheard {
        Unheard::Text(refusal) => refusal_told(alloc, refusal),
        Unheard::Trailing(place) => {
            let number = unheard.number();
            Ok(format!(in alloc; "{number} at {place}")?)
        }
    }
}

fn arrival_told(alloc: Global, arrival: &Arrival) -> Result<String, NoMemory> {
    let message = from_utf8(arrival.text.bytes()).unwrap_or("no text");
    Ok(format!(in alloc; "heard {message}")?)
}

/// The message that is heard, or why none is.
pub(crate) fn heard_told(alloc: Global, bytes: &[u8]) -> Result<String, NoMemory> {
    if bytes.len() > INPUT_LIMIT {
        return Ok("too long an input".to_string(alloc)?);
    }
    match hear(alloc, bytes) {
        Ok(Ok(arrival)) => arrival_told(alloc, &arrival),
        Ok(Err(unheard)) => unheard_told(alloc, unheard),
        Err(no_memory) => Err(no_memory),
    }
}
