//! The figures of what the program counts, by their names.

ghost use Rattle.std.specs.Prelude.{◌≡◌, map};
ghost use Rattle.named_fields.specs.Formats.{said};
ghost use Rattle.result_formats.specs.Counts as counts;

use arrayvec::ArrayVec;
use named_fields::{Field, Figure};
use register_sweeps::{RoundsRow, Row};
use round_driver::Table;

/// How many fields a table of rounds has.
pub const TABLE_FIELDS: usize = 19;

/// The fields of a table of rounds.
#[tactic(auto, unfolding(crate::specs::Counts::table_named, crate::specs::Counts::requests_named, crate::specs::Counts::lost_named, crate::specs::Counts::waits_named))]
pub fn table_fields(table: &Table) -> [Field<'static>; TABLE_FIELDS]
    ensures { map said result ≡ counts.table_named table.now }
{
    let (whole, part) = table.mean_wait();
    let lost = table.lost;
    [
        Field::count("rounds", table.rounds),
        Field::count("accepted", table.accepted),
        Field::count("denied", table.denied),
        Field::count("hits", table.hits),
        Field::count("joins", table.joins),
        Field::count("misses", table.misses),
        Field::count("stalled", table.stalled),
        Field::count("lost_3_tag_in_use", lost.tag_in_use),
        Field::count("lost_4_replies_full", lost.replies_full),
        Field::count("lost_5_targets_full", lost.targets_full),
        Field::count("lost_7_no_register", lost.no_register),
        Field::count("lost_8_set_pending", lost.set_pending),
        Field::count("lost_9_queue_full", lost.queue_full),
        Field::count("lost_10_bank_full", lost.bank_full),
        Field::count("values", table.values),
        Field {
            name: "mean",
            figure: Figure::Hundredths { whole, part },
        },
        Field::count("longest", table.longest),
        Field::count("registers", u64::from(table.registers)),
        Field::count("written", table.written),
    ]
}

/// How many fields a row of a sweep in rounds has.
pub const ROUNDS_FIELDS: usize = TABLE_FIELDS + 1;

/// The fields of a row of a sweep in rounds: its number of registers, and those of its table.
#[tactic(auto, unfolding(crate::specs::Counts::rounds_named))]
pub fn rounds_fields(row: &RoundsRow) -> ArrayVec<Field<'static>, ROUNDS_FIELDS>
    ensures { map said result.items ≡ counts.rounds_named row.now }
{
    let mut fields = ArrayVec::new();
    fields.push(Field::count("regs", u64::from(row.regs)));
    let _fits = fields
        .try_extend_from_slice(&table_fields(&row.table))
        .is_ok();
    fields
}

/// How many fields such a row has behind its latency.
pub const LATENCY_FIELDS: usize = ROUNDS_FIELDS + 1;

/// The fields of a row of a sweep in rounds, behind the latency that it was counted with.
#[tactic(auto, unfolding(crate::specs::Counts::latency_named))]
pub fn latency_fields(latency: u64, row: &RoundsRow) -> ArrayVec<Field<'static>, LATENCY_FIELDS>
    ensures { map said result.items ≡ counts.latency_named latency row.now }
{
    let mut fields = ArrayVec::new();
    fields.push(Field::count("latency", latency));
    let _fits = fields
        .try_extend_from_slice(rounds_fields(row).as_slice())
        .is_ok();
    fields
}

/// How many fields a row of a sweep by pumps has.
pub const PUMPS_FIELDS: usize = 7;

/// The fields of a row of a sweep by pumps.
#[tactic(auto, unfolding(crate::specs::Counts::pumps_named))]
pub fn pumps_fields(row: &Row) -> [Field<'static>; PUMPS_FIELDS]
    ensures { map said result ≡ counts.pumps_named row.now }
{
    [
        Field::count("regs", u64::from(row.regs)),
        Field::count("accepted", row.accepted),
        Field::count("denied", row.denied),
        Field::count("stalled", row.stalled),
        Field::count("waited", row.waited),
        Field::count("pumps", row.pumps),
        Field::count("values", row.values),
    ]
}
