//! Stations by hand and on threads: each case is a row of a table, which one loop walks.
use flat_model::{Shape, Word};
use ring_station::{Ask, Told};
use std::alloc::{AllocError, Global};

mod audited;
mod by_hand;
mod chain;
mod checks;
mod ends;
mod gates;
mod largest;
mod limited;
mod on_threads;
mod refused;
mod renewed;

// Blocks of four words in two banks, behind two frames.
const SHAPE: Shape = Shape {
    words: 32,
    sets: 2,
    banks: 2,
    bank_queue: 4,
    write_queue: 4,
    replies: 4,
};

// A run comes to no limit unless it hangs.
const TURNS: u64 = 5_000_000;

const ZEROS: Word = Word {
    b0: 0,
    b1: 0,
    b2: 0,
    b3: 0,
};

const LOAD_5: Ask = Ask::Load { tag: 1, at: 5 };

// What a load under tag 1 reads at first.
const VALUE: Told = Told::Value {
    tag: 1,
    word: ZEROS,
};

fn scripts_of(alloc: Global, rows: &[&[Ask]]) -> Result<Vec<Vec<Ask>>, AllocError> {
    let mut scripts = Vec::new(alloc);
    for row in rows {
        scripts.push(row.to_vec(alloc)?)?;
    }
    Ok(scripts)
}
