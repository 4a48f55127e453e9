//! The running board: a k-LSM with locks, for up to 64 members, each of which may be used by a
//! thread of its own.
//!
//! Each member has an own part, of at most k items, and all share one part more. An insertion acquires
//! the member's own lock alone, and the shared one only where the own part is full. A deletion acquires
//! the own lock too, and then looks at one word, the front, which has the key of the least shared
//! item. Where the least own key is below it, that item goes, and no other lock is acquired. Else the
//! deletion acquires the shared lock as well, and gives the least own item or one of the k+1 least
//! shared ones, whichever is smaller, but passes over none that the member itself inserted. Where
//! both parts are empty it spies items from another member's part. So members seldom meet, and in
//! return a deletion may skip as many as T·k smaller items.
//!
//! A board made by `Board::with_refill` lets a deletion that took a shared item move some more of the
//! least ones to its own part, as long as it has the shared lock; they are merged there when that is free
//! again. Its member's next deletions then go by the front, and need no other lock than their own. All
//! bounds are the same, as an own part has at most k items in any case.
//!
//! A member may balance (`Member::try_balance`): it moves the least items of another member's part to its own,
//! where they are below the front and smaller than its own. No deletion does so by itself; a program that wants
//! small items to be found sooner makes this call now and then. All bounds are the same here too.
//!
//! A member that will be busy for long shares its items (`Member::share`): all items of its own part move to the shared
//! one, where others find them. And a deletion that is alone (`Member::delete_min_alone`) moves no items to the own part
//! whatever the board's refill is, so that a member which shares after it has none to give back.
//!
//! ```text
//! let (board, mut members) = StandardBoard::new(alloc, 4, 16, 1 << 40)?;
//! // each member in a thread of its own, all with the one board and the number of open nodes
//! while open.load(SeqCst) > 0 {
//!     let Some(item) = member.delete_min(&wait, &board, &mut picker) else { continue };
//!     for node in children_of(item.load) {
//!         open.fetch_add(1, SeqCst);
//!         member.insert(&wait, &board, bound_of(&node), index_of(&node))?;
//!     }
//!     open.fetch_sub(1, SeqCst);
//! }
//! ```
//!
//! An answer `None` is no sign of the end, since another member may be about to insert. So the threads end
//! when no node is open.
//!
//! A member may ask for a bound (`Member::bound`): the least key of all live items, the least of those that members work
//! at, and how many live, exactly. It has all parts in hand for a moment, so a program asks seldom: now and then, and not
//! at each deletion.
//!
//! `try_insert`, `try_delete_min`, `try_share`, `try_bound`, `try_rest` and `try_balance` never block: where a lock is
//! held they release what they acquired, and say who held it. `try_hold` acquires one part in order to look at it.
//!
//! **What a member promises** is said by its list of own steps, which is for the proof alone: which
//! parts it acquired and what it found there, what it committed, what it released. The contract of each
//! call says which entries the call adds.
//!
//! - **The board is a world.** Whatever the threads do, the lock words, the front word, the parts that
//!   are free and the members' lists are a world to which some schedule of legal steps leads, as `klsm_schedules` has
//!   them. That is the invariant of the table that all members step on (`rule`), and each atomic step
//!   keeps it. A member's share of it, that its list is that of such a world, is clause `rule` of
//!   `Member::number` and `Held::number`.
//! - **The bound, call by call.** Each deletion's list, just before its commit, tells that at most T·k
//!   of all live items are smaller, those in parts that others hold included; where it went by the
//!   front, at most (T-1)·k in the worlds of that front; and where the answer is `None`, that at most
//!   (T-1)·k live: `TakesOut`, `TakesSpied`, `TakesEarly` and `FindsNothing` in `Member::try_delete_min`
//!   and `Member::delete_min`.
//! - **A member's own order is kept.** No deletion skips an item that its member inserted and that lies
//!   in its own part or in the shared one: `keeps` of the same records. A spy, a balance or a refill of another
//!   member may have moved an item elsewhere.
//! - **What a balance moves is exact**, and so is where it moves none: clause `ok` of `Member::try_balance`, by
//!   `Balances`.
//! - **A sharing moves all own items or none**, by one event: clauses `ok` and `refused` of `Member::try_share` and
//!   `Member::share`. Full or without memory it has changed nothing.
//! - **A bound is exact** at one moment of the call, when the member has all parts in hand, of what lives and of what is
//!   in work: clauses `ok` and `live` of `Member::try_bound` and `Member::bound`, by `SeesAllLive`.
//! - **All members in one hand** (`Board::gather`, `AllMembers`) are of one world: `AllMembers::threads`, clause
//!   `rule`. What is left is then what the calls made it, and no deletion skips more than T·k of that, nor more
//!   than (T-1)·k where it went by the front, nor any where T is 1: clauses `left` and `few` of
//!   `AllMembers::delete_min`. An insertion is full only where all inserted as many as the shared part has room
//!   for: clause `full` of `AllMembers::insert`. A sharing changes nothing that is left: clause `left` of
//!   `AllMembers::share`, and a bound is that of what is left: clause `bound` of `AllMembers::bound`. No call meets
//!   a lock that is held, so none waits: clauses `ok` and `refused`. `spread` gives the members back, as they were.
//! - **Nothing is lost.** Once all members are back, `finish` tells how many items were inserted and
//!   deleted, and which are left: each item inserted is one of these two, once (`each_once`).
//! - **Each answer is an event.** An item is answered where its `Take` or `Early` was committed, and a
//!   stamp where its `Put` or `Flush` was: clauses `ok` and `adds`.
//! - **A refusal changes no part**, and its cause holds: clauses `refused`, `busy` and `holder`.
//! - **A call that may wait** promises the same, less the refusal for a lock that is held. Nothing is
//!   promised of how long it waits.
//! - **Deletions take no memory**, and are refused for want of none. An insertion takes some only where items are to
//!   move to the shared part, or for a union of large shared blocks, and so does a sharing.
//!
//! How the locks are acquired, what commits and why a stale look does no harm is said in
//! docs/ARCHITECTURE.md, "How a locked call becomes steps of a schedule".
//!
//! The files, from the atomic steps up: `rule` and `plays` (what always holds, and what a step tells), `steps`
//! (acquire, release, the two commits, the looks at a lock and at the front), `slot` (what is done to the parts),
//! `lending`, `acquiring` (one try), `inserting`, `spying`, `early` (deletions by the front), `taking`, `deleting`,
//! `stealing` (balances), `sharing`, `marking` (the key in work), `resting`, `bounding`, and the public calls in
//! `making`, `member`, `held`, `together` and `finishing`. `tally` has the counts of members that are in one hand.
//! `gate` is for programs that run members in threads.
#![tactic(auto)]

mod acquiring;
mod all_members;
mod balancing;
mod board;
mod bounding;
mod boxed;
mod deleting;
mod early;
mod errors;
mod finishing;
mod gate;
mod held;
mod inserting;
mod lending;
mod making;
mod marking;
mod member;
mod pausing;
mod plays;
mod resting;
mod rule;
mod sharing;
mod sizes;
mod slot;
mod spying;
mod stealing;
mod steps;
mod taking;
mod tally;
mod together;

pub use all_members::{AllMembers, AllStandardMembers, GatherRefused};
pub use balancing::{Balancing, MOST_BALANCED};
pub use board::{
    Board, Held, HoldRefused, Member, StandardBoard, StandardMember, WideBoard, WideMember,
};
pub use bounding::Bound;
pub use errors::{
    Busy, FinishError, HoldError, InsertError, MakeError, ShareError, SizesError, TryInsertError,
    TryShareError,
};
pub use finishing::{Account, FinishRefused};
pub use gate::{Gate, Open};
pub use making::MOST_INSERTIONS;
