//! How a shared part is dropped.
//!
//! It is compiled without the tests too. Its proof cites the name of a call, which both builds need to have.

use klsm_parts::Shared;

/// Drops shared parts, as the table of a board does.
pub fn let_go(parts: Vec<Shared<21>>) {
    drop(parts);
}
