//! A row for each machine, each by a thread.

ghost use Rattle.std.specs.Prelude.{◌≡◌, ◌≢◌, ℕ, ◌<◌, length, map, Option, Result, None, Ok, Err, IfOk, IfErr, OnOk, slice_index_or, true};
ghost use Rattle.std.specs.List.{All, list_any};
ghost use Rattle.register_sweeps.specs.declared.sweeps.SweepFault.TheVariants.{TurnLimit, OutOfMemory};
ghost use Rattle.register_sweeps.specs.declared.threads.Stop.{Stop};
ghost use Rattle.register_sweeps.specs.declared.threads.Stop.TheVariants as stops;
ghost use Rattle.shape_files.specs.MachineFile.{bad_machine};
ghost use Rattle.machine_core.specs.Words.{Sizes as SizesValue};
ghost use Rattle.flat_model.specs.declared.ShapeField.{ShapeField as Field};
ghost use Rattle.shape_files.specs.ShapeFile.{bad_field as bad_shape};
ghost use Rattle.register_sweeps.specs.Sweep.{AreGood, FaultSays, IsStop, bad_from};
ghost use Rattle.register_sweeps.specs.Threads.{lacks_memory};

use crate::sweeps::{SweepFault, SweepGate};
use flat_model::ShapeField;
use machine_core::Sizes;
use shape_files::{ToolShape, bad_field, bad_number};
use std::alloc::{AllocError, Global};
use std::thread;
use std::thread::Threads;

// What makes a row of a machine.
pub(crate) trait RowMaker: Sync {
    // A row.
    type Row: Copy + Send;

    // Whether it can be made.
    ghost can: { Self → Type 0 };

    // The row of a machine.
    ghost gives: { Self → SizesValue → Self.Row };

    ghost shows: { Self → SizesValue → Type 0 };

    fn make_row(&self, alloc: Global, sizes: &Sizes) -> Result<Self::Row, AllocError>
        requires can { can self.now }
        requires sizes { bad_machine sizes.now ≡ None }
        ensures { IfOk result (λ row. (row ≡ gives self.now sizes.now) × shows self.now sizes.now) };
}

// Why a thread gave no row.
#[derive(Clone, Copy)]
pub(crate) enum Stop {
    TurnLimit,
    OutOfMemory,
}

impl From<AllocError> for Stop {
    ghost from_gives = { λ e s. s ≡ stops.OutOfMemory };

    fn from(_fault: AllocError) -> Stop {
        Stop::OutOfMemory
    }
}

// What may have a number out of its range.
pub(crate) trait Ranged {
    // The first such number.
    ghost bad: { Self → Option Field };

    // The first such number.
    fn bad(&self) -> Option<ShapeField>
        ensures { result ≡ bad self.now };
}

impl Ranged for ToolShape {
    ghost bad = { λ shape. bad_shape shape };

    fn bad(&self) -> Option<ShapeField> {
        bad_field(self)
    }
}

impl Ranged for Sizes {
    ghost bad = { λ sizes. bad_machine sizes };

    fn bad(&self) -> Option<ShapeField> {
        bad_number(self)
    }
}

// The first with a number out of its range, with its place.
pub(crate) fn all_good<S: Ranged>(all: &[S]) -> Result<(), SweepFault>
    ensures good { OnOk result (bad_from S.bad 0 all.now ≡ None) }
    ensures fault { IfErr result (FaultSays S.bad all.now) }
    ensures no_turns { result ≢ Err TurnLimit }
{
    for (place, one) in all.iter().enumerate() {
        if let Some(field) = one.bad() {
            return Err(SweepFault::BadShape { place, field });
        }
    }
    Ok(())
}

fn row_in_turn<K: RowMaker, G: SweepGate>(
    alloc: Global,
    maker: &K,
    place: usize,
    sizes: &Sizes,
    turns: u64,
    gate: &G,
) -> Result<K::Row, Stop>
    requires can { K.can maker.now }
    requires sizes { bad_machine sizes.now ≡ None }
    ensures row { IfOk result
        (λ row. (row ≡ K.gives maker.now sizes.now) × K.shows maker.now sizes.now) }
    ensures begins { G.is_open gate.now ≡ true → 0 < turns → result ≢ Err stops.TurnLimit }
{
    for _turn in 0..turns {
        if gate.may(place) {
            let row = maker.make_row(alloc, sizes);
            gate.ended(place);
            return Ok(row?);
        }
    }
    Err(Stop::TurnLimit)
}

fn all_answers<R: Threads + Sync, K: RowMaker, G: SweepGate>(
    rt: &R,
    alloc: Global,
    maker: &K,
    machines: &[Sizes],
    turns: u64,
    gate: &G,
) -> Result<Vec<Result<K::Row, Stop>>, AllocError>
    requires can { K.can maker.now }
    requires good { AreGood machines.now }
    ensures len { IfOk result (λ v. length v.items ≡ length machines.now) }
    ensures each { IfOk result
        (λ v. (i : ℕ) (d : Result K.Row Stop) (z : SizesValue) → i < length machines.now
        → IfOk (slice_index_or v.items i d)
        (λ row. (row ≡ K.gives maker.now (slice_index_or machines.now i z))
        × K.shows maker.now (slice_index_or machines.now i z))) }
    ensures begins { IfOk result
        (λ v. G.is_open gate.now ≡ true → 0 < turns → (i : ℕ) (d : Result K.Row Stop) → i < length machines.now
        → slice_index_or v.items i d ≢ Err stops.TurnLimit) }
{
    thread::map_indices(
        rt,
        alloc,
        machines.len(),
        &|place: usize| -> Result<K::Row, Stop>
            requires { (place < length machines.now) × K.can maker.now × AreGood machines.now }
            ensures row { (z : SizesValue)
                → IfOk result (λ row.
                (row ≡ K.gives maker.entry.now (slice_index_or machines.entry.now place z))
                × K.shows maker.entry.now (slice_index_or machines.entry.now place z)) }
            ensures begins { G.is_open gate.entry.now ≡ true → 0 < turns → result ≢ Err stops.TurnLimit }
        { row_in_turn(alloc, maker, place, &machines[place], turns, gate) },
    )
}

fn one_lacks_memory<A>(answers: &[Result<A, Stop>]) -> bool
    ensures { result ≡ list_any lacks_memory answers.now }
{
    answers
        .iter()
        .any(|answer| matches!(answer, Err(Stop::OutOfMemory)))
}

// The threads' rows. Want of memory goes before a turn limit.
fn all_rows<A: Copy>(alloc: Global, answers: &[Result<A, Stop>]) -> Result<Vec<A>, SweepFault>
    ensures rows { IfOk result (λ rows. map Ok rows.items ≡ answers.now) }
    ensures fault { IfErr result IsStop }
    ensures memory { list_any lacks_memory answers.now ≡ true → result ≡ Err OutOfMemory }
    ensures limit { All (λ a. a ≢ Err stops.TurnLimit) answers.now → result ≢ Err TurnLimit }
{
    if one_lacks_memory(answers) {
        return Err(SweepFault::OutOfMemory);
    }
    let mut rows = Vec::new(alloc);
    for answer in answers {
        let Ok(row) = answer else {
            return Err(SweepFault::TurnLimit);
        };
        if rows.push(*row).is_err() {
            return Err(SweepFault::OutOfMemory);
        }
    }
    Ok(rows)
}

pub(crate) fn rows_on_threads<R: Threads + Sync, K: RowMaker, G: SweepGate>(
    rt: &R,
    alloc: Global,
    maker: &K,
    machines: &[Sizes],
    turns: u64,
    gate: &G,
) -> Result<Vec<K::Row>, SweepFault>
    requires can { K.can maker.now }
    requires good { AreGood machines.now }
    ensures rows { IfOk result (λ rows. rows.items ≡ map (K.gives maker.now) machines.now) }
    ensures shown { OnOk result (All (K.shows maker.now) machines.now) }
    ensures fault { IfErr result IsStop }
    ensures begins { G.is_open gate.now ≡ true → 0 < turns → result ≢ Err TurnLimit }
{
    let answers = all_answers(rt, alloc, maker, machines, turns, gate)?;
    all_rows(alloc, answers.as_slice())
}
