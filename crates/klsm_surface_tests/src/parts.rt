//! An own part and the shared one: their blocks, pivots and candidates after each call, and what each picker picks.

mod either;
mod pair;
mod pickers;
mod spied;
mod taken;
