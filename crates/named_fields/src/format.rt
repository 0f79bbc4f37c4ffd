//! The formats.

/// How counts and grades are written.
#[derive(Clone, Copy, PartialEq, Eq, Debug)]
pub enum Format {
    /// Lines for people.
    Text,
    /// A table: a line with the names, and a line of figures for each result.
    Csv,
    /// Objects: one for each result, on one line.
    Json,
}

/// How a verdict or an explanation is written.
#[derive(Clone, Copy, PartialEq, Eq, Debug)]
pub enum VerdictFormat {
    /// Lines for people.
    Text,
    /// An object, on one line.
    Json,
}
