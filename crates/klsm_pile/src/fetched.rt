//! The items of the front.
use klsm_run::Item;

/// An item that lies in the front, with the level of the block that it belongs to.
#[derive(Clone, Copy)]
pub struct Fetched {
    pub item: Item,
    pub level: usize,
}
