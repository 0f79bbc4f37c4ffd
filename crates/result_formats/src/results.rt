//! Results in a format, each without its line's end, and the line of names that goes before them in a table.

ghost use Rattle.std.specs.Prelude.{Some};
ghost use Rattle.result_formats.specs.Counts as counts;

use crate::counts::{latency_fields, pumps_fields, rounds_fields, table_fields};
use named_fields::{Format, Header, Object, Values};
use register_sweeps::{RoundsRow, Row};
use round_driver::Table;
use std::fmt;

/// A table of rounds in a format.
#[derive(Clone, Copy)]
pub struct TableIn(pub Format, pub Table);

impl fmt::Display for TableIn {
    ghost output = { λ it. Some (counts.table_in it.0 it.1) };

    #[tactic(auto, unfolding(crate::specs::Counts::table_in, named_fields::specs::Formats::in_format))]
    fn fmt<W: fmt::Write>(&self, f: &mut fmt::Formatter<W>) -> fmt::Result {
        let table = self.1;
        let fields = table_fields(&table);
        match self.0 {
            Format::Text => write!(f, "{table}"),
            Format::Csv => write!(f, "{}", Values(&fields)),
            Format::Json => write!(f, "{}", Object(&fields)),
        }
    }
}

/// The names of a table's figures as one line, if the format has one.
#[derive(Clone, Copy)]
pub struct TableHead(pub Format);

impl fmt::Display for TableHead {
    ghost output = { λ head. Some (counts.table_head head.0) };

    #[tactic(auto, unfolding(crate::specs::Counts::table_head, named_fields::specs::Formats::head_in_format))]
    fn fmt<W: fmt::Write>(&self, f: &mut fmt::Formatter<W>) -> fmt::Result {
        let fields = table_fields(&Table::default());
        match self.0 {
            Format::Csv => write!(f, "{}\n", Header(&fields)),
            Format::Text | Format::Json => Ok(()),
        }
    }
}

/// A row of a sweep in rounds in a format.
#[derive(Clone, Copy)]
pub struct RoundsIn(pub Format, pub RoundsRow);

impl fmt::Display for RoundsIn {
    ghost output = { λ it. Some (counts.rounds_in it.0 it.1) };

    #[tactic(auto, unfolding(crate::specs::Counts::rounds_in, named_fields::specs::Formats::in_format))]
    fn fmt<W: fmt::Write>(&self, f: &mut fmt::Formatter<W>) -> fmt::Result {
        let row = self.1;
        let fields = rounds_fields(&row);
        match self.0 {
            Format::Text => write!(f, "{row}"),
            Format::Csv => write!(f, "{}", Values(fields.as_slice())),
            Format::Json => write!(f, "{}", Object(fields.as_slice())),
        }
    }
}

/// The names of such a row's figures as one line, if the format has one.
#[derive(Clone, Copy)]
pub struct RoundsHead(pub Format);

impl fmt::Display for RoundsHead {
    ghost output = { λ head. Some (counts.rounds_head head.0) };

    #[tactic(auto, unfolding(crate::specs::Counts::rounds_head, named_fields::specs::Formats::head_in_format))]
    fn fmt<W: fmt::Write>(&self, f: &mut fmt::Formatter<W>) -> fmt::Result {
        let fields = rounds_fields(&RoundsRow::default());
        match self.0 {
            Format::Csv => write!(f, "{}\n", Header(fields.as_slice())),
            Format::Text | Format::Json => Ok(()),
        }
    }
}

/// A row of a sweep in rounds in a format, behind the latency that it was counted with: as a text,
/// `latency N` and the row behind a space.
#[derive(Clone, Copy)]
pub struct LatencyIn(pub Format, pub u64, pub RoundsRow);

impl fmt::Display for LatencyIn {
    ghost output = { λ it. Some (counts.latency_in it.0 it.1 it.2) };

    #[tactic(auto, unfolding(crate::specs::Counts::latency_in, named_fields::specs::Formats::in_format))]
    fn fmt<W: fmt::Write>(&self, f: &mut fmt::Formatter<W>) -> fmt::Result {
        let latency = self.1;
        let row = self.2;
        let named = latency_fields(latency, &row);
        match self.0 {
            Format::Text => write!(f, "latency {latency} {row}"),
            Format::Csv => write!(f, "{}", Values(named.as_slice())),
            Format::Json => write!(f, "{}", Object(named.as_slice())),
        }
    }
}

/// The names of such a row's figures as one line, if the format has one.
#[derive(Clone, Copy)]
pub struct LatencyHead(pub Format);

impl fmt::Display for LatencyHead {
    ghost output = { λ head. Some (counts.latency_head head.0) };

    #[tactic(auto, unfolding(crate::specs::Counts::latency_head, named_fields::specs::Formats::head_in_format))]
    fn fmt<W: fmt::Write>(&self, f: &mut fmt::Formatter<W>) -> fmt::Result {
        let named = latency_fields(0, &RoundsRow::default());
        match self.0 {
            Format::Csv => write!(f, "{}\n", Header(named.as_slice())),
            Format::Text | Format::Json => Ok(()),
        }
    }
}

/// A row of a sweep by pumps in a format.
#[derive(Clone, Copy)]
pub struct PumpsIn(pub Format, pub Row);

impl fmt::Display for PumpsIn {
    ghost output = { λ it. Some (counts.pumps_in it.0 it.1) };

    #[tactic(auto, unfolding(crate::specs::Counts::pumps_in, named_fields::specs::Formats::in_format))]
    fn fmt<W: fmt::Write>(&self, f: &mut fmt::Formatter<W>) -> fmt::Result {
        let row = self.1;
        let fields = pumps_fields(&row);
        match self.0 {
            Format::Text => write!(f, "{row}"),
            Format::Csv => write!(f, "{}", Values(&fields)),
            Format::Json => write!(f, "{}", Object(&fields)),
        }
    }
}

/// The names of such a row's figures as one line, if the format has one.
#[derive(Clone, Copy)]
pub struct PumpsHead(pub Format);

impl fmt::Display for PumpsHead {
    ghost output = { λ head. Some (counts.pumps_head head.0) };

    #[tactic(auto, unfolding(crate::specs::Counts::pumps_head, named_fields::specs::Formats::head_in_format))]
    fn fmt<W: fmt::Write>(&self, f: &mut fmt::Formatter<W>) -> fmt::Result {
        let fields = pumps_fields(&Row::default());
        match self.0 {
            Format::Csv => write!(f, "{}\n", Header(&fields)),
            Format::Text | Format::Json => Ok(()),
        }
    }
}
