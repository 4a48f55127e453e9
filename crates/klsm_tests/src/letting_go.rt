//! How a shared part is let go.
//!
//! It is read without the tests too: the proof of it stands by the name of a call, which has to be there
//! both times.

use klsm_parts::Shared;

/// Lets shared parts go, as the table of a board does.
pub fn let_go(parts: Vec<Shared<21>>) {
    drop(parts);
}
