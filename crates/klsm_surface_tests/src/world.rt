//! The pure world: schedules as a run and step by step, steps that are refused, and the calls that carry laws.

mod laws;
mod refused;
mod schedules;
mod steps;
