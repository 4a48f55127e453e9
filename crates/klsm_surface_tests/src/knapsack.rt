//! The search for a best selection of things: instances and how they are read, searches of one instance by several
//! numbers of workers, and workers that are held at a gate.

mod gated;
mod instance;
mod reading;
mod solved;
