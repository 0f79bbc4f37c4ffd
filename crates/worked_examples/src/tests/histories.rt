//! Histories of a few events by the regular and the flat law; the order of faults; memory before
//! the first store.

use memory_histories::{
    ALL_ENABLED, FlatHistory, HistoryEvent, HistoryFault, Owed, RegularMemory, Rest, StepFault,
    StoreName,
};
use std::process::Abort;
use std::test::Fail;

/// Where the operations of the examples lie.
const PLACE: u64 = 0x1000;

fn load(number: u64, length: usize) -> HistoryEvent<'static> {
    HistoryEvent::LoadRequest {
        number,
        address: PLACE,
        length,
        enables: ALL_ENABLED,
    }
}

fn loaded(number: u64, bytes: &[u8]) -> HistoryEvent<'_> {
    HistoryEvent::LoadResponse { number, bytes }
}

fn store(number: u64, bytes: &[u8], enables: u64) -> HistoryEvent<'_> {
    HistoryEvent::StoreRequest {
        number,
        address: PLACE,
        bytes,
        enables,
    }
}

fn stored(number: u64) -> HistoryEvent<'static> {
    HistoryEvent::StoreResponse { number }
}

/// Why a memory refuses an event, if so. Without memory it is asked again.
fn refusal<R: Abort>(
    rt: &R,
    memory: &mut RegularMemory,
    event: HistoryEvent,
) -> Option<HistoryFault> {
    let mut answer = memory.step(event);
    if answer == Err(StepFault::OutOfMemory) {
        answer = memory.step(event);
    }
    match answer {
        Ok(()) => None,
        Err(StepFault::Refused(fault)) => Some(fault),
        Err(_) => {
            assert!(rt; false, "neither taken nor refused");
            None
        }
    }
}

/// Asserts that a memory takes these events.
fn takes<R: Abort>(rt: &R, memory: &mut RegularMemory, events: &[HistoryEvent]) {
    for (place, event) in events.iter().enumerate() {
        assert_eq!(rt; refusal(rt, memory, *event), None, "event {place}");
    }
}

/// Asserts that an open load of a byte may return these bytes alone.
fn may_return<R: Abort>(rt: &R, memory: &RegularMemory, number: u64, wanted: &[u8]) {
    let set = memory.may_return(number, PLACE);
    assert!(rt; set.is_some());
    if let Some(set) = set {
        for byte in 0..=u8::MAX {
            assert_eq!(rt; set.contains(byte), wanted.contains(&byte), "byte {byte}");
        }
    }
}

/// A load that overlaps a store sees it; a later overlapping one doesn't. Once the store is
/// answered, no load may see what was there before.
#[test]
fn new_then_old(rt: HostRuntime) -> Result<(), Fail> {
    let mut memory = RegularMemory::new(rt.alloc(), &[], Rest::Zeros)?;
    takes(&rt, &mut memory, &[store(1, &[0x5a], 1), load(1, 1)]);
    may_return(&rt, &memory, 1, &[0, 0x5a]);
    let overlapping = [loaded(1, &[0x5a]), load(2, 1), loaded(2, &[0])];
    takes(&rt, &mut memory, &overlapping);
    takes(&rt, &mut memory, &[load(3, 1), stored(1), load(4, 1)]);
    may_return(&rt, &memory, 3, &[0, 0x5a]);
    may_return(&rt, &memory, 4, &[0x5a]);
    let old = refusal(&rt, &mut memory, loaded(4, &[0]));
    assert_eq!(rt; old, Some(HistoryFault::WrongByte { place: 0 }));
    takes(&rt, &mut memory, &[loaded(4, &[0x5a]), loaded(3, &[0])]);
    Ok(())
}

/// Two stores of a word overlap. A load behind both sees either of them in each byte; a third store
/// settles the first byte alone; a word torn between the two is let through.
#[test]
fn overlapping_stores(rt: HostRuntime) -> Result<(), Fail> {
    let mut memory = RegularMemory::new(rt.alloc(), &[], Rest::Zeros)?;
    let both = [
        store(1, &[0x11, 0x11], 3),
        store(2, &[0x22, 0x22], 3),
        stored(1),
        stored(2),
    ];
    takes(&rt, &mut memory, &both);
    takes(&rt, &mut memory, &[load(1, 2), loaded(1, &[0x11, 0x11])]);
    takes(&rt, &mut memory, &[load(1, 2), loaded(1, &[0x22, 0x22])]);
    takes(
        &rt,
        &mut memory,
        &[load(1, 2), loaded(1, &[0x11, 0x22]), load(1, 2)],
    );
    let image = refusal(&rt, &mut memory, loaded(1, &[0x22, 0]));
    assert_eq!(rt; image, Some(HistoryFault::WrongByte { place: 1 }));
    takes(&rt, &mut memory, &[loaded(1, &[0x22, 0x22])]);
    takes(&rt, &mut memory, &[store(3, &[0x33, 0x33], 1), stored(3)]);
    takes(&rt, &mut memory, &[load(1, 2), loaded(1, &[0x33, 0x11])]);
    takes(
        &rt,
        &mut memory,
        &[load(1, 2), loaded(1, &[0x33, 0x22]), load(1, 2)],
    );
    let settled = refusal(&rt, &mut memory, loaded(1, &[0x11, 0x11]));
    assert_eq!(rt; settled, Some(HistoryFault::WrongByte { place: 0 }));
    Ok(())
}

/// Each event is refused for the first of its faults, and changes nothing.
#[test]
fn faults_in_order(rt: HostRuntime) -> Result<(), Fail> {
    let mut memory = RegularMemory::new(rt.alloc(), &[7], Rest::Unknown)?;
    takes(&rt, &mut memory, &[store(1, &[1, 2], 2), load(1, 1)]);
    let beyond = HistoryEvent::StoreRequest {
        number: 1,
        address: u64::MAX,
        bytes: &[1, 2],
        enables: 0,
    };
    let refused = [
        (beyond, HistoryFault::OutOfRange),
        (store(1, &[], 1), HistoryFault::OutOfRange),
        (store(1, &[0; 65], 1), HistoryFault::OutOfRange),
        (load(1, 0), HistoryFault::OutOfRange),
        (load(1, 65), HistoryFault::OutOfRange),
        (store(1, &[1, 2], 4), HistoryFault::NoByteEnabled),
        (store(1, &[1, 2], 1), HistoryFault::NumberInUse),
        (load(1, 1), HistoryFault::NumberInUse),
        (stored(2), HistoryFault::NotOpen),
        (loaded(2, &[1, 2]), HistoryFault::NotOpen),
        (loaded(1, &[1, 2]), HistoryFault::WrongLength),
    ];
    for (event, fault) in refused {
        assert_eq!(rt; memory.fault(event), Some(fault));
        assert_eq!(rt; refusal(&rt, &mut memory, event), Some(fault));
    }
    let last = HistoryEvent::LoadRequest {
        number: 2,
        address: u64::MAX,
        length: 1,
        enables: ALL_ENABLED,
    };
    takes(
        &rt,
        &mut memory,
        &[last, loaded(2, &[0xff]), stored(1), loaded(1, &[9])],
    );
    Ok(())
}

#[test]
fn before_the_first_store(rt: HostRuntime) -> Result<(), Fail> {
    let first = HistoryEvent::LoadRequest {
        number: 1,
        address: 0,
        length: 2,
        enables: ALL_ENABLED,
    };
    for (rest, second) in [
        (Rest::Zeros, Some(HistoryFault::WrongByte { place: 1 })),
        (Rest::Unknown, None),
    ] {
        let mut memory = RegularMemory::new(rt.alloc(), &[7], rest)?;
        takes(&rt, &mut memory, &[first]);
        let wrong = refusal(&rt, &mut memory, loaded(1, &[0, 0]));
        assert_eq!(rt; wrong, Some(HistoryFault::WrongByte { place: 0 }));
        assert_eq!(rt; refusal(&rt, &mut memory, loaded(1, &[7, 9])), second);
    }
    Ok(())
}

/// As `refusal`, of a flat memory.
fn flat_refusal<R: Abort>(
    rt: &R,
    memory: &mut FlatHistory,
    event: HistoryEvent,
) -> Option<HistoryFault> {
    let mut answer = memory.step(event);
    if answer == Err(StepFault::OutOfMemory) {
        answer = memory.step(event);
    }
    match answer {
        Ok(()) => None,
        Err(StepFault::Refused(fault)) => Some(fault),
        Err(_) => {
            assert!(rt; false, "neither taken nor refused");
            None
        }
    }
}

fn flat_takes<R: Abort>(rt: &R, memory: &mut FlatHistory, events: &[HistoryEvent]) {
    for (place, event) in events.iter().enumerate() {
        assert_eq!(rt; flat_refusal(rt, memory, *event), None, "event {place}");
    }
}

/// Asserts that an open load may return this byte and no other.
fn flat_returns<R: Abort>(rt: &R, memory: &FlatHistory, number: u64, address: u64, wanted: u8) {
    let set = memory.may_return(number, address);
    assert!(rt; set.is_some());
    if let Some(set) = set {
        for byte in 0..=u8::MAX {
            assert_eq!(rt; set.contains(byte), byte == wanted, "byte {byte}");
        }
    }
}

/// Asserts these faults, one after the other.
fn flat_faults<R: Abort>(
    rt: &R,
    memory: &mut FlatHistory,
    rows: &[(HistoryEvent, Option<HistoryFault>)],
) {
    for (event, fault) in rows {
        assert_eq!(rt; memory.fault(*event), *fault);
        assert_eq!(rt; flat_refusal(rt, memory, *event), *fault);
    }
}

/// A load is owed what stood there at its request: an earlier requested store, answered or not.
#[test]
fn effect_at_the_request(rt: HostRuntime) -> Result<(), Fail> {
    let mut memory = FlatHistory::new(rt.alloc(), &[], Rest::Zeros)?;
    flat_takes(
        &rt,
        &mut memory,
        &[load(1, 2), store(7, &[0x11, 0x22], 2), load(2, 2)],
    );
    let put = StoreName {
        number: 7,
        requested: 1,
    };
    let second = Owed::Stored {
        byte: 0x22,
        store: put,
    };
    assert_eq!(rt; memory.owed(1, PLACE + 1), Some(Owed::Initial { byte: 0 }));
    assert_eq!(rt; memory.owed(2, PLACE), Some(Owed::Initial { byte: 0 }));
    assert_eq!(rt; memory.owed(2, PLACE + 1), Some(second));
    assert_eq!(rt; memory.owed(2, PLACE + 2), None);
    assert_eq!(rt; memory.owed(3, PLACE), None);
    flat_takes(&rt, &mut memory, &[store(8, &[0x33, 0x33], 3), stored(8)]);
    flat_returns(&rt, &memory, 2, PLACE + 1, 0x22);
    let rows: [(HistoryEvent, Option<HistoryFault>); 6] = [
        (
            loaded(2, &[0x33, 0x33]),
            Some(HistoryFault::WrongByte { place: 0 }),
        ),
        (
            loaded(2, &[0, 0]),
            Some(HistoryFault::WrongByte { place: 1 }),
        ),
        (loaded(2, &[0, 0x22]), None),
        (
            loaded(1, &[0, 0x22]),
            Some(HistoryFault::WrongByte { place: 1 }),
        ),
        (loaded(1, &[0, 0]), None),
        (stored(7), None),
    ];
    flat_faults(&rt, &mut memory, &rows);
    Ok(())
}

/// An unknown byte may be anything at each load, until a store covers it; an image and zeros are
/// known.
#[test]
fn flat_memory_before_the_first_store(rt: HostRuntime) -> Result<(), Fail> {
    let first = HistoryEvent::LoadRequest {
        number: 1,
        address: 0,
        length: 2,
        enables: ALL_ENABLED,
    };
    let rows = [
        (Rest::Zeros, Some(HistoryFault::WrongByte { place: 1 })),
        (Rest::Unknown, None),
    ];
    for (rest, second) in rows {
        let mut memory = FlatHistory::new(rt.alloc(), &[7], rest)?;
        flat_takes(&rt, &mut memory, &[first]);
        let wrong = flat_refusal(&rt, &mut memory, loaded(1, &[0, 0]));
        assert_eq!(rt; wrong, Some(HistoryFault::WrongByte { place: 0 }));
        assert_eq!(rt; flat_refusal(&rt, &mut memory, loaded(1, &[7, 9])), second);
    }
    let mut memory = FlatHistory::new(rt.alloc(), &[], Rest::Unknown)?;
    flat_takes(
        &rt,
        &mut memory,
        &[load(1, 1), loaded(1, &[1]), load(1, 1), loaded(1, &[2])],
    );
    flat_takes(&rt, &mut memory, &[store(1, &[3], 1), load(1, 1)]);
    let wrong = flat_refusal(&rt, &mut memory, loaded(1, &[2]));
    assert_eq!(rt; wrong, Some(HistoryFault::WrongByte { place: 0 }));
    flat_takes(&rt, &mut memory, &[loaded(1, &[3])]);
    Ok(())
}

/// The flat law's faults have the same order, and change nothing.
#[test]
fn flat_faults_in_order(rt: HostRuntime) -> Result<(), Fail> {
    let mut memory = FlatHistory::new(rt.alloc(), &[], Rest::Zeros)?;
    flat_takes(&rt, &mut memory, &[store(1, &[1, 2], 2), load(1, 1)]);
    let beyond = HistoryEvent::StoreRequest {
        number: 1,
        address: u64::MAX,
        bytes: &[1, 2],
        enables: 0,
    };
    let refused = [
        (beyond, HistoryFault::OutOfRange),
        (load(1, 65), HistoryFault::OutOfRange),
        (store(1, &[1, 2], 4), HistoryFault::NoByteEnabled),
        (store(1, &[1, 2], 1), HistoryFault::NumberInUse),
        (load(1, 1), HistoryFault::NumberInUse),
        (stored(2), HistoryFault::NotOpen),
        (loaded(2, &[1, 2]), HistoryFault::NotOpen),
        (loaded(1, &[1, 2]), HistoryFault::WrongLength),
        (loaded(1, &[1]), HistoryFault::WrongByte { place: 0 }),
    ];
    for (event, fault) in refused {
        assert_eq!(rt; memory.fault(event), Some(fault));
        assert_eq!(rt; flat_refusal(&rt, &mut memory, event), Some(fault));
    }
    flat_takes(
        &rt,
        &mut memory,
        &[stored(1), store(1, &[5], 1), loaded(1, &[0])],
    );
    Ok(())
}
