//! What the tests of several layers share: a board with its members, scripts of calls on it, items by their names, runs
//! and LSMs of them, an allocator that refuses, inputs and outputs that fail, gates at which workers meet, and texts
//! with numbers in them.
//!
//! A crate with tests is proved twice, with them and without, so this one has none.
#![tactic(auto)]

mod apart;
mod crew;
mod grown;
mod items;
mod made;
mod meeting;
mod numbered;
mod rationed;
mod script;
mod streams;
mod wide;

pub use apart::{are_apart, is_in};
pub use crew::{Crew, refused};
pub use grown::{FixedGrown, Grown, HeapGrown, How, RationedGrown};
pub use items::{
    Name, are_keys, are_named, are_of, has_blocks, has_keys, heap_run_of, item, merged, named,
    run_of,
};
pub use made::{InOneHand, Made};
pub use meeting::{Counting, LOOKS, Meeting};
pub use numbered::add_words;
pub use rationed::Rationed;
pub use script::{Calls, MANY, Script, Step, all_go, loaded, passes};
pub use streams::{Input, Output};
pub use wide::WideCrew;
