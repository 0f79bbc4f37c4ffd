//! A chain that is followed on a caller's own threads.
use crate::chain::{Follower, Waits, follow_chain};
use ring_station::{Audit, MAX_ENTRIES, Shape, station};
use std::test::Fail;

// Eight blocks of four words, behind two frames.
const ONE_BANK: Shape = Shape {
    words: 32,
    sets: 2,
    banks: 1,
    bank_queue: 4,
    write_queue: 4,
    replies: 4,
};

// Three blocks, two of which share a frame.
const LINKS: [(u32, u32); 3] = [(5, 9), (9, 17), (17, 2)];

// The follower never waits: while the other thread isn't run it may take any number of turns.
const TURNS: u64 = u64::MAX;

#[test]
fn chain_on_threads(rt: HostRuntime) -> Result<(), Fail> {
    // Each repeated offer takes a place of the journal.
    let mut all = station::<1, 4, 2, 2>(rt.alloc(), ONE_BANK, 1, MAX_ENTRIES)?;
    let mut follower = Follower::new(5, 3);
    let (Some(mut port), Some(mut bank)) = (all.ports.pop(), all.banks.pop()) else {
        unreachable!()
    };
    let found = follow_chain(
        &rt,
        &mut follower,
        &LINKS,
        TURNS,
        &mut all.cache,
        &mut port,
        &mut bank,
    );
    assert_eq!(rt; found, Audit::Clean);
    let told_all = Follower {
        at: 2,
        left: 0,
        stored: 3,
        waits: Waits::Nothing,
    };
    assert_eq!(rt; follower, told_all);
    Ok(())
}
