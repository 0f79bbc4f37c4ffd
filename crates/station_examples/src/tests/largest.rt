//! The largest stations that can be made.
ghost use Rattle.std.specs.Prelude.{◌≡◌, vec_len};

use super::ZEROS;
use flat_model::{Answer, Event, MakeFault, Shape, ShapeField};
use ring_station::{Ask, Entry, Sizes, Source, Station, Stepped, Told, shaped_station, station};
use std::process::Abort;
use std::test::Fail;

const LARGEST: Shape = Shape {
    words: 1_048_576,
    sets: 1_024,
    banks: 16,
    bank_queue: 64,
    write_queue: 256,
    replies: 64,
};

// With numbers at run time there may be more ways, registers and places of the stack.
const LARGEST_SIZES: Sizes = Sizes {
    ways: 16,
    block_words: 16,
    regs: 64,
    depth: 64,
    words: 1_048_576,
    sets: 1_024,
    banks: 16,
    bank_queue: 64,
    write_queue: 256,
    replies: 64,
};

const LAST: u32 = 1_048_575;

// Tag 255 of port 15 is 15 * 256 + 255.
const ASKED: Entry = Entry::Step {
    source: Source::Ask(15),
    event: Event::Load {
        tag: 4_095,
        at: LAST,
    },
    answer: Answer::Accepted,
};

const TOLD: [Told; 2] = [
    Told::Accepted,
    Told::Value {
        tag: 255,
        word: ZEROS,
    },
];

fn ask_for_the_last(rt: &impl Abort, all: &mut Station)
    requires ports { vec_len all.old.ports ≡ 16 }
    requires banks { vec_len all.old.banks ≡ 16 }
{
    let Station {
        cache,
        ports,
        banks,
    } = all;
    assert_eq!(rt; ports[15].offer(Ask::Load { tag: 255, at: LAST }), Ok(()));
    assert_eq!(rt; cache.step(Source::Ask(15)), Stepped::Did);
    assert_eq!(rt; banks[15].step(), Stepped::Did);
    for source in [Source::Word(15), Source::Stack(0), Source::Reply(0)] {
        assert_eq!(rt; cache.step(source), Stepped::Did);
    }
    assert_eq!(rt; cache.entry(0), Some(ASKED));
    for told in TOLD {
        assert_eq!(rt; ports[15].take(), Some(told));
    }
}

#[test]
fn the_largest_station(rt: HostRuntime) -> Result<(), Fail> {
    let mut all = station::<8, 16, 16, 16>(rt.alloc(), LARGEST, 16, 1_048_576)?;
    ask_for_the_last(&rt, &mut all);
    Ok(())
}

#[test]
fn the_largest_station_of_run_time_numbers(rt: HostRuntime) -> Result<(), Fail> {
    let mut all = shaped_station(rt.alloc(), &LARGEST_SIZES, 16, 1_048_576)?;
    ask_for_the_last(&rt, &mut all);
    Ok(())
}

// Those of the unit are named before the ports, and the ports before the journal.
#[test]
fn a_station_of_too_large_numbers(rt: HostRuntime) {
    let too_many_ways = Sizes {
        ways: 17,
        ..LARGEST_SIZES
    };
    let too_many_registers = Sizes {
        regs: 65,
        ..LARGEST_SIZES
    };
    for (sizes, ports, field) in [
        (too_many_ways, 17, ShapeField::Ways),
        (too_many_registers, 17, ShapeField::Regs),
        (LARGEST_SIZES, 17, ShapeField::Ports),
        (LARGEST_SIZES, 16, ShapeField::Journal),
    ] {
        let fault = shaped_station(rt.alloc(), &sizes, ports, 0).err();
        assert_eq!(rt; fault, Some(MakeFault::BadShape(field)));
    }
}
