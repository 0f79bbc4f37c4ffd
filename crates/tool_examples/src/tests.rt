//! The examples, in tables.

mod memory;
mod shapes;
mod streams;
mod sweeps;
