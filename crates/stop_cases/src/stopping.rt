// Stops of a payment.
use crate::payments::{Answer, Names, Payment, read_names};
use crate::{counts, ledgers, shelves};
use std::alloc::Global;
use x_base::NoMemory;

/// How many stops leave the ledger as it is to be, where the disks fail after more and more calls, fewer than 40, until the payment
/// is done, and the power goes each time with this choice. Nothing where there is no stop, or where something else comes: behind a
/// stop the payment has number 1, or 2 where the stopped one counts; and one more is paid out with the next number, or not taken in, for a number below 2.
fn stops(
    alloc: Global,
    names: &Names,
    is_shelf: bool,
    payment: Payment,
    choice: u64,
) -> Option<u64> {
    let mut after: u64 = 0;
    for calls in 0..40 {
        let ends = if is_shelf {
            shelves::ends(alloc, names, payment, calls, choice)?
        } else {
            ledgers::ends(alloc, names, payment, calls, choice)?
        };
        let [end, Answer::Number(first), Answer::Number(second)] = ends else {
            return None;
        };
        let next = match payment {
            Payment::Out => first.saturating_add(1),
            Payment::In => 2,
        };
        if first > 2 || second != next {
            return None;
        }
        match end {
            Answer::Stopped => after = after.saturating_add(first.saturating_sub(1)),
            Answer::Number(1) if first == 2 && calls > 0 => return Some(after),
            _ => return None,
        }
    }
    None
}

/// What is told of a payment over a shelf or over a ledger alone.
pub(crate) fn told(
    alloc: Global,
    is_shelf: bool,
    payment: &str,
    choice: u64,
) -> Result<String, NoMemory> {
    let Some(names) = read_names() else {
        return Err(NoMemory);
    };
    let payment = match payment {
        "in" => Payment::In,
        "out" => Payment::Out,
        _ => return Ok(String::from_str(alloc, "no payment")?),
    };
    let stops = stops(alloc, &names, is_shelf, payment, choice);
    counts::told(alloc, stops, choice < 2)
}
