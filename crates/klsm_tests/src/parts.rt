//! A queue for one thread and its parts, beside a plain program written from the rules: the same
//! answers, blocks, pivots and candidates after each step.

mod both;
mod mixed;
mod pickers;
mod plain;
mod refused;
mod stolen;
mod taken;
mod unions;
mod worked;
