//! The parts of a k-LSM: one for each member, and one that all share.
//!
//! A member of the queue inserts into its own part, of at most k items, which nobody else needs.
//! Only where that is full does it touch the shared part. A deletion looks at both, and may give
//! any of the k+1 least items of the shared part, its candidates, so that several members need not
//! meet at one item. The parts know nothing of members, locks and threads: who calls has both in
//! hand, and each call is one event of the queue.
//!
//! A program of one thread takes a `Queue`, which has both parts and numbers the items itself:
//!
//! ```text
//! let mut open: Queue<64, 21> = Queue::new(alloc, 16);  // 16 items lie in its own part
//! open.insert(bound_of(&root), 0)?;                     // a key, and what the item is to carry
//! while let Some(item) = open.delete_min() {            // the least of all
//!     for node in children_of(item.load) {
//!         open.insert(bound_of(&node), index_of(&node))?;
//!     }
//! }
//! ```
//!
//! A member of a larger queue has its own part and, for as long as it may, the shared one:
//!
//! ```text
//! put(&mut own, item);                                  // the own part has room
//! flush(&mut own, &mut shared, item)?;                  // it has not: its largest block moves
//! let next = take(member, &mut own, &mut shared, &mut picker);
//! let least = take_least(&mut own);                     // its key is below the front
//! let count = spy(&mut own, &mut victim);               // it is empty: items move from another's
//! let count = fetch(&own, &mut shared, most, places);   // it has room: the least shared items leave
//! own.take_in(&places[..count]);                        // and join it, which needs no shared part
//! let count = steal(&mut own, &mut victim, most);       // it has room: the least of another's items move
//! let count = share(&mut own, &mut shared)?;            // it will be busy: all its items move
//! ```
//!
//! - **Lawful at all times.** The invariants of `Local` and `Shared` hold of every value: a lawful
//!   LSM of at most k items, and one within its limit with exact pivots. `Local::len`,
//!   `Shared::len` and `Shared::pivot` tell it to their callers.
//! - **Each call is its event.** The clauses `event` of `put`, `flush`, `take`, `take_least`, `spy`, `steal` and
//!   `share` say that the event may happen, and what it leaves of the contents; the other clauses say which
//!   blocks move, and which item goes. A refill is two calls, `fetch` and `Local::take_in`.
//! - **A deletion skips at most k items** of the two parts: clause `skips` of `take`.
//!   `laws::takes_skip_few` says the same of the event, however the candidate was picked.
//! - **A member's own order is kept.** A deletion skips no item of the two parts that the member
//!   itself inserted: clause `event` of `take`. Of the candidates up to the picked one the first that
//!   the member inserted goes, if there is one, and `laws::own_order_may_take` says why that is enough.
//! - **The front tells when the shared part need not be looked at.** `Shared::front` is the key of its
//!   least item. Where that of the least own item is below it, `take_least` is the deletion, and
//!   skips no item of the two: clause `early`, and `laws::earlies_skip_none`.
//! - **A refill makes the next deletions cheap.** A member that has both parts in hand moves the least shared
//!   items to its own part, into half the room that it has, so that its next insertions do not carry them
//!   back; what it deletes next then lies below the front, but for equal keys, and needs no shared
//!   lock. It may give the shared part back before it merges them. Own parts have at most k items as before,
//!   so no bound changes.
//! - **A steal keeps own parts alike.** A member that has another's part in hand beside its own moves the least items
//!   of that part to its own, into the room that it has, and at most half of them. Neither part has then more than k.
//! - **A share lets others find a member's items.** A member that will be busy for long moves all items of its own part
//!   to the shared one. Its own part is empty then, so no bound changes. It may make one run of them before it has the
//!   shared part in hand (`copy_to_share`, `share_prepared`).
//! - **A `Queue` holds what was inserted and not yet deleted**, each item once: clauses `items` of
//!   `Queue::insert` and `Queue::delete_min`, and `ascending` of `Queue::len`. It asks nothing of
//!   its callers.
//! - **A deletion takes no memory** and is never refused. `flush` makes all growths before
//!   anything changes; refused, it has changed nothing: clauses `unchanged`.
//! - **The candidates lie side by side.** The shared part is a pile of `klsm_pile`, whose least k+1 items, or all, are
//!   copied to one place in their order, each with the level of its block. A deletion that picks index i costs one access,
//!   and an owner's item is looked for in one array. A flush merges what is below the last of them in there, and the rest
//!   of it is a piece of its own, which is not moved for as long as it becomes one with no other piece.
#![tactic(auto)]

mod appending;
mod choice;
mod flushing;
pub mod laws;
mod local;
mod part;
mod picker;
mod places;
mod queue;
mod refilling;
mod shared;
mod sharing;
mod spying;
mod stealing;
mod taking;
mod unions;

pub use choice::{Choice, Pick};
pub use flushing::{copy_to_move, flush, flush_prepared};
pub use klsm_lsm::LsmError;
pub use klsm_union::SharedRun;
pub use local::{Local, put, take_least};
pub use part::Part;
pub use picker::{First, Last, Picker, Random, random_of};
pub use queue::Queue;
pub use refilling::fetch;
pub use shared::Shared;
pub use sharing::{copy_to_share, share, share_prepared};
pub use spying::spy;
pub use stealing::steal;
pub use taking::take;
pub use unions::Unions;
