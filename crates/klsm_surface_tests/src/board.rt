//! A board and its members in one thread: each call by itself, scripts of calls with the result of each, and the
//! account at the end.

mod calls;
mod finished;
mod full;
mod held;
mod plain;
mod refused;
mod sizes;
