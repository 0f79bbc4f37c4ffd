//! Whole runs that are counted with all details.
ghost use Rattle.std.specs.Prelude.{◌≡◌, ◌≤◌, ◌<◌, ◌^◌, length, IfOk, OnOk, OnErr};
ghost use Rattle.flat_model.specs.declared.limits.TheConstants.{MAX_BANKS};
ghost use Rattle.round_driver.specs.declared.driving.TheConstants.{MOST_LATENCY};
ghost use Rattle.round_driver.specs.Details.{details_of, details_from, ends_total};
ghost use Rattle.round_driver.specs.Rounds.{whole_run, most_requests, EndsInTime};
ghost use Rattle.round_driver.specs.Walks.{RequestsEnd};
ghost use Rattle.round_driver.specs.Machines as machines;

use crate::details::{Details, RoundEnds, Told};
use crate::driving::{is_over, most_rounds, round};
use crate::machine::{keeps_whole, numbers_of, used_registers};
use crate::outcomes::{Outcomes, Recording};
use crate::round::Notes;
use crate::schedule::Schedule;
use crate::table::{Counter, Table};
use crate::timing::Timing;
use flat_model::Event;
use machine_core::ShapedMachine;
use std::alloc::{AllocError, Global};

fn details_from(
    table: Table,
    told: Told,
    mut ends: RoundEnds,
    registers: u32,
    outcomes: Outcomes,
) -> Details
    requires { ends_total ends < 2 ^ 61 }
    ensures { result ≡ details_from table told ends registers outcomes }
{
    ends.count(registers, &told);
    Details {
        table,
        kinds: told.kinds,
        sets: told.sets,
        registers: ends.registers,
        owed: ends.owed,
        waits: told.waits,
        waits_from_asking: told.waits_from_asking,
        outcomes,
    }
}

/// Drives these requests as [`drive_with`](crate::drive_with) does, and counts all details.
///
/// `AllocError`: too little memory; nothing has been asked. The counts take a place a set, two
/// rounds a tag and an outcome a request.
pub fn detail_with(
    alloc: Global,
    machine: &mut ShapedMachine,
    timing: Timing,
    requests: &[Event],
) -> Result<Details, AllocError>
    requires banks { machine.old.sizes.banks ≤ MAX_BANKS }
    requires latency { timing.latency ≤ MOST_LATENCY }
    requires requests { length requests.now ≤ most_requests }
    ensures details { IfOk result
        (λ details. details ≡ details_of timing machine.old requests.now) }
    ensures machine { OnOk result
        (machine.new ≡ (whole_run timing machine.old requests.now).state) }
    ensures over { OnOk result (RequestsEnd timing machine.old requests.now) }
    ensures early { OnOk result (EndsInTime timing machine.old requests.now) }
    ensures unchanged { OnErr result (machine.new ≡ machine.old) }
{
    keeps_whole(machine);
    let numbers = numbers_of(machine);
    let mut counter = Counter::new(alloc)?;
    let mut told = Told::new(alloc, numbers)?;
    let mut ends = RoundEnds::new(alloc, numbers)?;
    let mut outcomes = Recording::new(alloc, requests.len())?;
    let mut schedule = Schedule::new(timing);
    let mut notes = Notes::new();
    let mut left = requests;
    for _turn in 0..most_rounds(machine, timing.latency, requests.len()) {
        if is_over(machine, left) {
            let table = counter.table_after(schedule.round + 1);
            return Ok(details_from(
                table,
                told,
                ends,
                used_registers(machine),
                outcomes.finish(),
            ));
        }
        left = round(machine, &mut schedule, &mut notes, left);
        counter.count_all(notes.as_slice());
        told.count_all(numbers, notes.as_slice());
        outcomes.record_all(notes.as_slice());
        ends.count(used_registers(machine), &told);
    }
    let table = counter.table_after(schedule.round + 1);
    Ok(details_from(
        table,
        told,
        ends,
        used_registers(machine),
        outcomes.finish(),
    ))
}
