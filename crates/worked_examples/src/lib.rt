//! The worked examples, each a row of a table under its name, or a test.
//!
//! - First call: none; `rt try --test` runs them.
//! - Caller: `./test`.
//!
//! They are of the machine and its parts, traces as text, refused and largest memory, rounds,
//! reasons, and histories, judged event by event. The callers in `uses` are run. A row that fails
//! says its name.
#![tactic(auto)]

#[cfg(test)]
mod tests;
