//! What `run` and `World` answer.

mod compared;
mod refused;
mod shown;
mod steps;
mod wrong;
