//! A party over two disks: what one of them loses, the other still has.
#![tactic(auto)]

mod comparing;
mod copying;
mod creating;
mod mirror;
mod opening;
mod pair;
mod recovering;
mod room;
mod seeing;
mod seen;
mod turning;
mod uncopied;

pub use comparing::{Comparison, compare};
pub use mirror::{Mirror, PairTurn};
pub use pair::{PairCause, PairUnmade};
pub use recovering::law_recovers;
pub use room::law_room;
