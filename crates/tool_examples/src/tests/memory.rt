//! Each call that allocates, where an allocation is refused: nothing changes, and a second call
//! gives the example's answer. With memory the first call does.

use super::sweeps::{REQUESTS, row_of_three_loads, with_registers};
use flat_model::ShapeField;
use kroft_command::{Timing, tool};
use register_sweeps::{OpenGate, SweepFault, sweep, sweep_rounds, sweep_row};
use shape_files::{ShapeFault, read_shape};
use std::io::Cursor;
use std::test::Fail;

#[test]
fn a_shape_text_may_find_no_memory(rt: HostRuntime) -> Result<(), Fail> {
    let alloc = rt.alloc();
    let mut said = read_shape(alloc, "regs = 2");
    if said == Err(ShapeFault::OutOfMemory) {
        said = read_shape(alloc, "regs = 2");
    }
    assert_eq!(rt; said, Ok(with_registers(2)));
    Ok(())
}

#[test]
fn a_row_may_find_no_memory(rt: HostRuntime) -> Result<(), Fail> {
    let alloc = rt.alloc();
    let mut row = sweep_row(alloc, &with_registers(1), &REQUESTS);
    if row == Err(SweepFault::OutOfMemory) {
        row = sweep_row(alloc, &with_registers(1), &REQUESTS);
    }
    assert_eq!(rt; row, Ok(row_of_three_loads(1)));
    Ok(())
}

#[test]
fn a_sweep_may_find_no_memory(rt: HostRuntime) -> Result<(), Fail> {
    let shapes = [with_registers(1), with_registers(2)];
    match sweep(&rt, rt.alloc(), &REQUESTS, &shapes, 1_000_000, &OpenGate) {
        Ok(rows) => {
            let wanted = [row_of_three_loads(1), row_of_three_loads(2)];
            assert_eq!(rt; rows.as_slice(), &wanted[..]);
        }
        Err(fault) => assert_eq!(rt; fault, SweepFault::OutOfMemory),
    }
    Ok(())
}

#[test]
fn a_bad_shape_comes_before_memory(rt: HostRuntime) -> Result<(), Fail> {
    let mut three_ways = with_registers(2);
    three_ways.ways = 3;
    let shapes = [with_registers(1), three_ways];
    let refused = sweep(&rt, rt.alloc(), &REQUESTS, &shapes, 1_000, &OpenGate);
    let fault = SweepFault::BadShape {
        place: 1,
        field: ShapeField::Ways,
    };
    assert!(rt; matches!(refused, Err(found) if found == fault));
    Ok(())
}

#[test]
fn a_sweep_in_rounds_may_find_no_memory(rt: HostRuntime) -> Result<(), Fail> {
    let machines = [with_registers(1).sizes(), with_registers(2).sizes()];
    let timing = Timing::unpipelined(10);
    match sweep_rounds(
        &rt,
        rt.alloc(),
        timing,
        &REQUESTS,
        &machines,
        1_000,
        &OpenGate,
    ) {
        Ok(rows) => assert_eq!(rt; rows.len(), 2),
        Err(fault) => assert_eq!(rt; fault, SweepFault::OutOfMemory),
    }
    Ok(())
}

const STORED_INPUT: &str = "load 1 5
store 5 1000 ff000000
serve 1
arrive 1 0
process 0
take 0
load 2 5
take 0
reg 0
settled
";

/// What the program's machine writes for it.
const STORED_OUTPUT: &str = "load 1 5 -> accepted
store 5 1000 ff000000 -> accepted
serve 1 -> moved
arrive 1 0 -> moved
process 0 -> moved
take 0 -> value 1 00000000
load 2 5 -> accepted
take 0 -> value 2 ff000000
reg 0 -> V- 0000001 0002 01 [--- 0000 00000 0000 00000000] [--P 0000 00000 0000 00000000] [--- 0000 00000 0000 00000000] [--- 0000 00000 0000 00000000]
settled -> no
";

/// The bytes that were written.
fn written(stream: &Cursor<[u8; 1024]>) -> Option<&[u8]> {
    let end = usize::try_from(stream.position()).ok()?;
    stream.get_ref().get(..end)
}

#[test]
fn the_program_may_find_no_memory(rt: HostRuntime) -> Result<(), Fail> {
    // Written without an allocation.
    let mut output = Cursor::new([0u8; 1024]);
    let mut errors = Cursor::new([0u8; 1024]);
    let mut input = STORED_INPUT.as_bytes();
    let status = tool(&rt, &["run"], &mut input, &mut output, &mut errors);
    if status == 5 {
        assert_eq!(rt; output.position(), 0);
        assert_eq!(rt; written(&errors), Some(b"out of memory\n".as_slice()));
    } else {
        assert_eq!(rt; status, 0);
        assert_eq!(rt; written(&output), Some(STORED_OUTPUT.as_bytes()));
        assert_eq!(rt; errors.position(), 0);
    }
    Ok(())
}
