//! A pile: an LSM whose blocks are numbers on pieces that stay where they are.
#![tactic(auto)]

mod absorbing;
mod body;
mod copying;
mod counts;
mod fetched;
mod fetching;
mod front;
mod handing;
mod leaving;
mod levels;
mod listing;
mod making_room;
mod merging;
mod piece;
mod pile;
mod pivots;
mod printing;
mod reading;
mod refilling;
mod reserving;
mod seeking;
mod spilling;
mod uniting;

pub use fetched::Fetched;
pub use front::Front;
pub use piece::Piece;
pub use pile::Pile;
