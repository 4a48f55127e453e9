//! Members that own a share of their board.
//!
//! A `Member` of `klsm_board` is handed the board at each call, and a picker at each deletion. Where the
//! threads of a program cannot all borrow one board, as where they belong to a program in another language,
//! each of them keeps an `OwnedMember`: a member, a share of its board, and the picker of its deletions, in
//! one value without type parameters.
//!
//! ```text
//! let members = open_board(alloc, 4, 64, Pick::First, 0, 16)?;  // one for each thread, in a box of its own
//! member.try_insert(key, load)?;                                // as the member's own calls
//! let item = member.try_delete_min()?;
//! let count = member.try_share()?;                              // it will be busy: others find its items
//! let bound = member.try_bound()?;                              // the least key of all that is open
//! member.try_rest()?;                                           // it has done with its item, and leaves
//! ```
//!
//! The calls promise of the member inside all that `klsm_board` promises of it. A member that is dropped
//! leaves its part in the board, and the board goes with the last of its members. To end a board with its
//! account, take all its members apart (`OwnedMember::into_parts`) and give them to `Board::finish`.
#![tactic(auto)]

mod calls;
mod opening;
mod owned;

pub use klsm_parts::{Choice, Pick};
pub use opening::open_board;
pub use owned::OwnedMember;
