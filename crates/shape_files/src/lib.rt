//! Files of a machine's numbers, each a TOML table of whole numbers.
//!
//! - First call: [`read_shape`] or [`read_machine`], over a file's text.
//! - Caller: `kroft_command` and `register_sweeps`.
//!
//! A shape file leaves the words of a block and the places of the stack fixed, and each number it
//! leaves out has a default ([`DEFAULT_SHAPE`]); a machine file has all numbers. A
//! [`ShapeFault`] names the first key that is wrong. [`shape_of_table`] takes a table that is read
//! already.
#![tactic(auto)]

mod machine_file;
mod shape_file;

pub use machine_file::{
    MACHINE_FIELDS, MAX_TOLD_KEY, MachineFault, bad_number, machine_of_table, read_machine,
};
pub use shape_file::{
    BLOCK_WORDS, DEFAULT_SHAPE, DEPTH, FaultText, MOST_WAYS, REGISTER_COUNTS, ShapeFault,
    ToolShape, bad_field, read_shape, shape_of_table,
};
