//! The details of a run in a format.

ghost use Rattle.std.specs.Prelude.{Some, ◌≡◌, ◌+◌, map, take};
ghost use Rattle.std.specs.List.{flat_map};
ghost use Rattle.std.specs.Fmt.{WritesOnOk};
ghost use Rattle.named_fields.specs.Formats.{said, counted};
ghost use Rattle.result_formats.specs.Details as specs;
ghost use Rattle.result_formats.specs.Series as series;

use crate::AccessCounts;
use crate::counts::table_fields;
use crate::series::{AllSeries, By, Series};
use named_fields::{Field, Figure, Format, Member, Members};
use round_driver::{Details, Waits, wait_bucket};
use std::fmt;

// A figure in a format, behind something else.
#[derive(Clone, Copy)]
struct FieldIn(Format, Field<'static>);

impl fmt::Display for FieldIn {
    ghost output = { λ it. Some (series.field_in it.0 (said it.1)) };

    fn fmt<W: fmt::Write>(&self, f: &mut fmt::Formatter<W>) -> fmt::Result {
        let field = self.1;
        let name = field.name;
        let figure = field.figure;
        match self.0 {
            Format::Text => write!(f, "\n{name} {figure}"),
            Format::Csv => write!(f, "\n{name},,{figure}"),
            Format::Json => write!(f, ",{}", Member(field)),
        }
    }
}

// Figures in a format, behind something else.
#[derive(Clone, Copy)]
struct AllFields<'a>(Format, &'a [Field<'static>]);

impl<'a> fmt::Display for AllFields<'a> {
    ghost output = { λ it. Some (series.all_fields it.0 (map said it.1.now)) };

    fn fmt<W: fmt::Write>(&self, f: &mut fmt::Formatter<W>) -> fmt::Result {
        write_fields(f, self.0, self.1)
    }
}

// All of them.
fn write_fields<W: fmt::Write>(
    f: &mut fmt::Formatter<W>,
    format: Format,
    fields: &[Field<'static>],
) -> fmt::Result
    ensures { WritesOnOk W.write_str_gives f.old result (flat_map (λ g. series.field_in format (said g)) fields.now) f.new }
{
    for field in fields {
        let it = FieldIn(format, *field);
        write!(f, "{it}")?;
    }
    Ok(())
}

/// How many fields the details of a run have beside those of its table.
pub const DETAIL_FIELDS: usize = 14;

/// The fields of a run's details beside those of its table: accepted requests by their kind and by what
/// they found, and the loads' waits from the first asking.
#[tactic(auto, unfolding(crate::specs::Details::details_named))]
pub fn detail_fields(details: &Details) -> [Field<'static>; DETAIL_FIELDS]
    ensures { map said result ≡ specs.details_named details.now }
{
    let loads = details.kinds.loads;
    let stores = details.kinds.stores;
    let prefetches = details.kinds.prefetches;
    let (whole, part) = details.waits_from_asking.mean();
    [
        Field::count("loads", loads.accepted),
        Field::count("load_hits", loads.hits),
        Field::count("load_joins", loads.joins),
        Field::count("load_misses", loads.misses),
        Field::count("stores", stores.accepted),
        Field::count("store_hits", stores.hits),
        Field::count("store_joins", stores.joins),
        Field::count("store_misses", stores.misses),
        Field::count("prefetches", prefetches.accepted),
        Field::count("prefetch_hits", prefetches.hits),
        Field::count("prefetch_joins", prefetches.joins),
        Field::count("prefetch_misses", prefetches.misses),
        Field {
            name: "mean_from_asking",
            figure: Figure::Hundredths { whole, part },
        },
        Field::count("longest_from_asking", details.waits_from_asking.longest),
    ]
}

/// How many fields accesses have.
pub const ACCESS_FIELDS: usize = 15;

// A sum with its name.
fn sum(name: &'static str, a: u64, b: u64) -> Field<'static>
    ensures { said result ≡ counted name.now (a + b) }
{
    Field {
        name,
        figure: Figure::Count(u128::from(a) + u128::from(b)),
    }
}

/// The fields of accesses: all of them by what became of them, and then the reads, and the writes.
#[tactic(auto, unfolding(crate::specs::Details::accesses_named))]
pub fn access_fields(accesses: AccessCounts) -> [Field<'static>; ACCESS_FIELDS]
    ensures { map said result ≡ specs.accesses_named accesses }
{
    let reads = accesses.reads;
    let writes = accesses.writes;
    [
        sum("accesses", reads.accesses, writes.accesses),
        sum("access_hits", reads.hits, writes.hits),
        sum("access_joins", reads.joins, writes.joins),
        sum("access_misses", reads.misses, writes.misses),
        sum("access_denied", reads.denied, writes.denied),
        Field::count("reads", reads.accesses),
        Field::count("read_hits", reads.hits),
        Field::count("read_joins", reads.joins),
        Field::count("read_misses", reads.misses),
        Field::count("read_denied", reads.denied),
        Field::count("writes", writes.accesses),
        Field::count("write_hits", writes.hits),
        Field::count("write_joins", writes.joins),
        Field::count("write_misses", writes.misses),
        Field::count("write_denied", writes.denied),
    ]
}

// The figures of accesses in a format, behind something else, if there are any.
#[derive(Clone, Copy)]
struct AccessesIn(Format, Option<AccessCounts>);

impl fmt::Display for AccessesIn {
    ghost output = { λ it. Some (specs.accesses_in it.0 it.1) };

    #[tactic(auto, unfolding(crate::specs::Details::accesses_in))]
    fn fmt<W: fmt::Write>(&self, f: &mut fmt::Formatter<W>) -> fmt::Result {
        match self.1 {
            Some(accesses) => {
                let fields = access_fields(accesses);
                write!(f, "{}", AllFields(self.0, &fields))
            }
            None => Ok(()),
        }
    }
}

// As many of the first counts, or all of them.
fn front(counts: &[u64], number: usize) -> &[u64]
    ensures { result.now ≡ take number counts.now }
{
    if number < counts.len() {
        &counts[..number]
    } else {
        counts
    }
}

// The loads by the bucket of their wait, up to that of the longest one.
fn buckets(waits: &Waits) -> &[u64]
    ensures { result.now ≡ specs.buckets_of waits.now }
{
    front(waits.buckets.as_slice(), wait_bucket(waits.longest) + 1)
}

/// How many series the details of a run have.
pub const DETAIL_SERIES: usize = 7;

/// The series of a run's details: by set, by registers in use, by loads owed a value, and by the bucket
/// of a load's wait.
#[tactic(auto, unfolding(crate::specs::Details::series_named))]
pub fn detail_series(details: &Details) -> [Series<'_>; DETAIL_SERIES]
    ensures { map series.told result ≡ specs.series_named details.now }
{
    [
        Series {
            name: "set_hits",
            by: By::Number,
            counts: details.sets.hits.as_slice(),
        },
        Series {
            name: "set_joins",
            by: By::Number,
            counts: details.sets.joins.as_slice(),
        },
        Series {
            name: "set_misses",
            by: By::Number,
            counts: details.sets.misses.as_slice(),
        },
        Series {
            name: "rounds_by_registers",
            by: By::Number,
            counts: details.registers.as_slice(),
        },
        Series {
            name: "rounds_by_owed",
            by: By::Number,
            counts: details.owed.as_slice(),
        },
        Series {
            name: "waits",
            by: By::Doubling,
            counts: buckets(&details.waits),
        },
        Series {
            name: "waits_from_asking",
            by: By::Doubling,
            counts: buckets(&details.waits_from_asking),
        },
    ]
}

/// The details of a run in a format, with the figures of its table, and with those of its accesses, if
/// they were counted: a line of text for each figure or series; a table with a line `NAME,NUMBER,VALUE`
/// for each number; or an object with arrays.
#[derive(Clone, Copy)]
pub struct DetailsIn<'a>(pub Format, pub &'a Details, pub Option<AccessCounts>);

impl<'a> fmt::Display for DetailsIn<'a> {
    ghost output = { λ it. Some (specs.details_in it.0 it.1.now it.2) };

    #[tactic(auto, using(named_fields::proofs::Joined::joined_said), unfolding(crate::specs::Details::details_in))]
    fn fmt<W: fmt::Write>(&self, f: &mut fmt::Formatter<W>) -> fmt::Result {
        let table = table_fields(&self.1.table);
        let fields = detail_fields(self.1);
        let series = detail_series(self.1);
        let more = AllFields(self.0, &fields);
        let accesses = AccessesIn(self.0, self.2);
        let last = AllSeries(self.0, &series);
        match self.0 {
            Format::Text => write!(f, "{}{more}{accesses}{last}", self.1.table),
            Format::Csv => write!(
                f,
                "name,index,value{}{more}{accesses}{last}",
                AllFields(Format::Csv, &table)
            ),
            Format::Json => write!(f, "{{{}{more}{accesses}{last}}}", Members(&table)),
        }
    }
}
