//! A board and its members, in one thread and in several.

mod balanced;
mod bounded;
mod dropped;
mod front;
mod greatest_k;
mod mixed;
mod most_members;
mod plain;
mod refused;
mod shared;
mod skips;
mod threads;
mod together;
mod unions;
mod worked;
mod working;
