//! What the roles share: verdicts of tests, texts, names, what an exchange is about, the edits that
//! make a difference, and decisions (ANSI X9.17; the order of the tests is this project's profile).
#![tactic(auto)]

mod centre_laws;
mod centres;
mod conditions;
mod decisions;
mod differing;
mod edits;
mod errors;
mod exchanges;
mod inputs;
mod laws;
mod leads;
mod links;
mod loading;
mod names;
mod redoing;
mod sending;
mod texts;
mod verdicts;

pub use centre_laws::{law_commands, law_unserved};
pub use centres::{centre_command, request_front, unserved};
pub use conditions::{
    answer_front, answer_verdict, body_issuer, count_behind, count_tests, has_count, has_key_room,
    has_link_room, has_room_for_two, has_two_counts, is_data_key, is_for, is_of_centre,
    is_two_keys, not_answering, other_class,
};
pub use decisions::{accept, early_refusal, refusal};
pub use edits::{dropped, ended, joined, list_of, readied};
pub use errors::{ErrorCounts, error_answer};
pub use exchanges::{
    Sent, Twins, ending_with, is_waiting, new_link, record_behind, record_of, sent_by, twins_by,
};
pub use inputs::law_input;
pub use laws::{law_differing, law_loads, law_sends, law_settling};
pub use leads::{key_lead, lead_under};
pub use links::{first_link, link_behind, link_with};
pub use loading::{load, odd_pair};
pub use names::{centre_label, direct_name, first_count, no_extras};
pub use redoing::are_done;
pub use sending::{link_after_use, next_name, pending, send};
pub use texts::{Written, is_right};
pub use verdicts::{is_accept, tests_pass, verdict_after, verdict_of};
