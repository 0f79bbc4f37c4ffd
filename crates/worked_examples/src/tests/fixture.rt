//! What the examples share.

use flat_model::{MakeFault, Shape, Word};
use machine_core::{Machine, ShapedMachine};
use std::alloc::{AllocError, Global};
use std::fmt::Debug;
use std::io;
use std::io::Read;
use std::process::Abort;
use std::test::Fail;
use trace_text::Counts;

/// The shape of most examples.
pub const SMALL_SHAPE: Shape = Shape {
    words: 32,
    sets: 2,
    banks: 2,
    bank_queue: 4,
    write_queue: 4,
    replies: 4,
};

/// The program's own shape.
pub const PROGRAM_SHAPE: Shape = Shape {
    words: 64,
    sets: 4,
    banks: 4,
    bank_queue: 8,
    write_queue: 8,
    replies: 8,
};

/// The stored run's trace: a store comes between a load and its word.
pub const STORED_INPUT: &str = "load 1 5
store 5 1000 ff000000
serve 1
arrive 1 0
process 0
take 0
load 2 5
take 0
reg 0
settled
";

/// What the program's machine writes for [`STORED_INPUT`].
pub const STORED_OUTPUT: &str = "load 1 5 -> accepted
store 5 1000 ff000000 -> accepted
serve 1 -> moved
arrive 1 0 -> moved
process 0 -> moved
take 0 -> value 1 00000000
load 2 5 -> accepted
take 0 -> value 2 ff000000
reg 0 -> V- 0000001 0002 01 [--- 0000 00000 0000 00000000] [--P 0000 00000 0000 00000000] [--- 0000 00000 0000 00000000] [--- 0000 00000 0000 00000000]
settled -> no
";

/// What serving the stored run counts.
pub const STORED_COUNTS: Counts = Counts {
    lines: 10,
    accepted: 3,
    moved: 3,
    values: 2,
    nothing: 0,
    refused: 0,
};

/// Asserts that a row's case gave what the row says, and names a row that fails.
///
/// It stands once, since each `assert_eq!` with a text takes the checker some seconds.
pub fn same<R: Abort, T: PartialEq + Debug + Drop>(rt: &R, name: &str, found: T, wanted: T) {
    assert_eq!(rt; found, wanted, "{name}");
}

/// A word of zeros.
pub const ZERO: Word = Word {
    b0: 0,
    b1: 0,
    b2: 0,
    b3: 0,
};

/// A word of these bytes.
pub fn word(b0: u8, b1: u8, b2: u8, b3: u8) -> Word {
    Word { b0, b1, b2, b3 }
}

/// A word whose first byte is its number.
pub fn numbered(b0: u8) -> Word {
    word(b0, 0, 0, 0)
}

/// Words whose first byte is their number.
pub fn image(alloc: Global, words: u8) -> Result<Vec<Word>, AllocError> {
    let mut image = Vec::with_capacity(alloc, words as usize)?;
    for b0 in 0..words {
        image.push(numbered(b0))?;
    }
    Ok(image)
}

/// One way, 4 words a block, a stack of 2.
pub fn small_machine(alloc: Global) -> Result<Machine<1, 4, 2, 2>, MakeFault> {
    let image = image(alloc, 32)?;
    Machine::new(alloc, SMALL_SHAPE, &image)
}

/// A machine of the program's default shape.
pub fn default_machine(alloc: Global) -> Result<ShapedMachine, Fail> {
    let image = vec![in alloc; Word::default(); 64]?;
    Ok(Machine::<2, 4, 4, 4>::new(alloc, PROGRAM_SHAPE, &image)?.into_shaped())
}

/// What a reader does behind its text.
#[derive(Clone, Copy)]
pub enum Behind {
    End,
    Failure,
    Text(&'static str),
}

/// Gives its text in pieces of at most so many bytes, and then does what is behind it, one a read;
/// the last one repeats.
#[derive(Drop)]
pub struct Script<'a> {
    text: &'a [u8],
    most: usize,
    behind: [Behind; 2],
    done: usize,
    /// How often it was read.
    pub reads: usize,
}

impl<'a> Script<'a> {
    /// A reader that hasn't been read.
    pub fn new(text: &'a str, most: usize, behind: [Behind; 2]) -> Script<'a> {
        Script {
            text: text.as_bytes(),
            most,
            behind,
            done: 0,
            reads: 0,
        }
    }

    fn next_behind(&mut self) -> Behind {
        let behind = self.behind[self.done.min(1)];
        self.done = self.done.saturating_add(1);
        behind
    }
}

impl Read for Script<'_> {
    fn read(&mut self, buf: &mut [u8]) -> io::Result<usize> {
        self.reads = self.reads.saturating_add(1);
        if self.text.is_empty() {
            match self.next_behind() {
                Behind::End => {}
                Behind::Failure => return Err(io::Error::from(io::ErrorKind::Other)),
                Behind::Text(text) => self.text = text.as_bytes(),
            }
        }
        let n = buf.len().min(self.most).min(self.text.len());
        let (given, rest) = self.text.split_at(n);
        buf[..n].copy_from_slice(given);
        self.text = rest;
        Ok(n)
    }
}
