//! Counts by a number, under one name, in a format.

ghost use Rattle.std.specs.Prelude.{Some, ◌≡◌, map, codes, decimal, ◌++◌};
ghost use Rattle.std.specs.List.{flat_map};
ghost use Rattle.std.specs.Fmt.{WritesOnOk};
ghost use Rattle.result_formats.specs.Series as specs;

use named_fields::Format;
use std::fmt;

/// What the counts of a series are counted by.
#[derive(Clone, Copy, PartialEq, Eq, Debug)]
pub enum By {
    /// Each number: 0, 1, 2, 3, ..
    Number,
    /// Powers of two: 0, 1, 2 and 3, 4 to 7, .., each named by its least number.
    Doubling,
}

impl By {
    // The number behind this one. (No series has as many places as the greatest number says.)
    fn next(self, number: u64) -> u64
        ensures { result ≡ specs.next self number }
    {
        match self {
            By::Number => number.saturating_add(1),
            By::Doubling if number == 0 => 1,
            By::Doubling => number.saturating_mul(2),
        }
    }
}

/// Counts by a number, under one name of letters, digits and `_`: the count of 0 comes first.
#[derive(Clone, Copy)]
pub struct Series<'a> {
    /// The name.
    pub name: &'static str,
    /// What the places of the counts stand for.
    pub by: By,
    /// The counts.
    pub counts: &'a [u64],
}

// ` NUMBER:COUNT` for each count, from this number on.
fn write_pairs<W: fmt::Write>(
    f: &mut fmt::Formatter<W>,
    by: By,
    from: u64,
    counts: &[u64],
) -> fmt::Result
    ensures { WritesOnOk W.write_str_gives f.old result (specs.pairs_text by from counts.now) f.new }
{
    match counts {
        [] => Ok(()),
        [count, rest @ ..] => {
            write!(f, " {from}:{count}")?;
            write_pairs(f, by, by.next(from), rest)
        }
    }
}

// The same of all counts.
#[derive(Clone, Copy)]
struct Pairs<'a>(Series<'a>);

impl<'a> fmt::Display for Pairs<'a> {
    ghost output = { λ pairs. Some (specs.pairs_text pairs.0.by 0 pairs.0.counts.now) };

    fn fmt<W: fmt::Write>(&self, f: &mut fmt::Formatter<W>) -> fmt::Result {
        write_pairs(f, self.0.by, 0, self.0.counts)
    }
}

// A line `NAME,NUMBER,COUNT` for each count, from this number on.
fn write_rows<W: fmt::Write>(
    f: &mut fmt::Formatter<W>,
    name: &'static str,
    by: By,
    from: u64,
    counts: &[u64],
) -> fmt::Result
    ensures { WritesOnOk W.write_str_gives f.old result (specs.rows_text name.now by from counts.now) f.new }
{
    match counts {
        [] => Ok(()),
        [count, rest @ ..] => {
            write!(f, "\n{name},{from},{count}")?;
            write_rows(f, name, by, by.next(from), rest)
        }
    }
}

// The same of all counts.
#[derive(Clone, Copy)]
struct Rows<'a>(Series<'a>);

impl<'a> fmt::Display for Rows<'a> {
    ghost output = { λ rows. Some (specs.rows_text rows.0.name.now rows.0.by 0 rows.0.counts.now) };

    fn fmt<W: fmt::Write>(&self, f: &mut fmt::Formatter<W>) -> fmt::Result {
        write_rows(f, self.0.name, self.0.by, 0, self.0.counts)
    }
}

// The counts with commas between them.
#[derive(Clone, Copy)]
struct Counts<'a>(&'a [u64]);

impl<'a> fmt::Display for Counts<'a> {
    ghost output = { λ counts. Some (specs.counts_text counts.0.now) };

    #[tactic(auto, unfolding(crate::specs::Series::counts_text))]
    fn fmt<W: fmt::Write>(&self, f: &mut fmt::Formatter<W>) -> fmt::Result {
        match self.0 {
            [] => Ok(()),
            [first, rest @ ..] => {
                write!(f, "{first}")?;
                write_counts(f, rest)
            }
        }
    }
}

// The counts behind the first.
fn write_counts<W: fmt::Write>(f: &mut fmt::Formatter<W>, counts: &[u64]) -> fmt::Result
    ensures { WritesOnOk W.write_str_gives f.old result (flat_map (λ n. codes "," ++ decimal n) counts.now) f.new }
{
    for count in counts {
        write!(f, ",{count}")?;
    }
    Ok(())
}

// A series in a format, behind something else.
#[derive(Clone, Copy)]
struct SeriesIn<'a>(Format, Series<'a>);

impl<'a> fmt::Display for SeriesIn<'a> {
    ghost output = { λ it. Some (specs.series_in it.0 (specs.told it.1)) };

    fn fmt<W: fmt::Write>(&self, f: &mut fmt::Formatter<W>) -> fmt::Result {
        let series = self.1;
        let name = series.name;
        match self.0 {
            Format::Text => write!(f, "\n{name}{}", Pairs(series)),
            Format::Csv => write!(f, "{}", Rows(series)),
            Format::Json => write!(f, ",\"{name}\":[{}]", Counts(series.counts)),
        }
    }
}

/// Series in a format, behind something else: a line for each, a line `NAME,NUMBER,COUNT` for each
/// count, or a member of an object for each, whose value is an array.
#[derive(Clone, Copy)]
pub struct AllSeries<'a>(pub Format, pub &'a [Series<'a>]);

impl<'a> fmt::Display for AllSeries<'a> {
    ghost output = { λ it. Some (specs.all_series it.0 (map specs.told it.1.now)) };

    fn fmt<W: fmt::Write>(&self, f: &mut fmt::Formatter<W>) -> fmt::Result {
        write_series(f, self.0, self.1)
    }
}

// All of them.
fn write_series<'a, W: fmt::Write>(
    f: &mut fmt::Formatter<W>,
    format: Format,
    all: &[Series<'a>],
) -> fmt::Result
    ensures { WritesOnOk W.write_str_gives f.old result (flat_map (λ s. specs.series_in format (specs.told s)) all.now) f.new }
{
    for series in all {
        let it = SeriesIn(format, *series);
        write!(f, "{it}")?;
    }
    Ok(())
}
