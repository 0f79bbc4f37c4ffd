//! Worked examples of what no run of the program shows: library values, failing streams, gated
//! threads, refused memory, largest sizes.
//!
//! - First call: none; each example is a test under its name.
//! - Caller: `./test`.
//!
//! The tests may use threads, so they stand beside `worked_examples`. Their readers and writers fail
//! at a place that the test chooses.
#![tactic(auto)]

#[cfg(test)]
mod tests;
