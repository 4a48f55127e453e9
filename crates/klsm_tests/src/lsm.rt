//! What an LSM answers, and which blocks each call leaves.

mod refused;
mod worked;
