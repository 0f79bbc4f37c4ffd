//! One frame, and the order of allocation of a set.
#![tactic(auto, unfolding(crate::specs::Frames::filled, crate::specs::Frames::written, crate::specs::Frames::settled, crate::specs::Frames::fresh_frame))]

ghost use Rattle.std.specs.Prelude.{ℕ, ◌≡◌, ◌<◌, ◌≤◌, is_none, ◌++◌, [], ◌∷◌, length, slice_set, slice_index_or, replicate};
ghost use Rattle.flat_model.specs.declared.limits.TheConstants.{MAX_BLOCK_WORDS, MAX_WAYS};
ghost use Rattle.flat_model.specs.Places.{is_number};
ghost use Rattle.cache_directory.specs.Frames.{empty_frame, cell_at, filled, written, settled, fresh_frame, zero_cell, without};

use crate::Cell;
use arrayvec::ArrayVec;
use flat_model::{Lanes, MAX_BLOCK_WORDS, MAX_WAYS, Word, merge};
use std::marker::Model;

/// A frame: empty, or a block and its words.
#[derive(Drop)]
pub struct Way {
    block: Option<u32>,
    pending: bool,
    cells: ArrayVec<Cell, MAX_BLOCK_WORDS>,
}

impl Model for Way {
    ghost use Rattle.cache_directory.specs.Frames.{Frame};

    ghost Value = { Frame };

    ghost use Rattle.cache_directory.specs.View.{frame_in};

    ghost view = { frame_in };
}

impl Way {
    /// An empty frame.
    pub fn new() -> Self
        ensures { result ≡ empty_frame }
    {
        Way {
            block: None,
            pending: false,
            cells: ArrayVec::new(),
        }
    }

    /// The block that the frame holds.
    pub fn block(&self) -> Option<u32>
        ensures { result ≡ self.now.block }
    {
        self.block
    }

    /// Whether the frame holds no block.
    pub fn is_free(&self) -> bool
        ensures { result ≡ is_none self.now.block }
    {
        self.block.is_none()
    }

    /// Whether the frame holds this block.
    pub fn holds(&self, block: u32) -> bool
        ensures { result ≡ is_number self.now.block block }
    {
        match self.block {
            Some(b) => b == block,
            None => false,
        }
    }

    /// Whether it waits for words.
    pub fn pending(&self) -> bool
        ensures { result ≡ self.now.pending }
    {
        self.pending
    }

    /// The cell of word `i`.
    pub fn cell(&self, i: u32) -> Cell
        requires { i < length self.now.cells }
        ensures { result ≡ cell_at self.now i }
    {
        cell_in(self.cells.as_slice(), i)
    }

    /// Takes a block: zero words, none dirty, all awaited.
    pub fn install(&mut self, words: u32, block: u32)
        requires { words ≤ MAX_BLOCK_WORDS }
        ensures { self.new ≡ fresh_frame words block }
    {
        self.block = Some(block);
        self.pending = true;
        self.cells = zero_cells(words);
    }

    /// The frame is empty.
    pub fn release(&mut self)
        ensures { self.new ≡ empty_frame }
    {
        self.block = None;
        self.pending = false;
        self.cells.clear();
    }

    /// Word `i` takes the bytes outside `keep`.
    pub fn fill(&mut self, i: u32, word: Word, keep: Lanes)
        requires { i < length self.old.cells }
        ensures { self.new ≡ filled self.old i word keep }
    {
        let cell = cell_in(self.cells.as_slice(), i);
        put_cell(
            &mut self.cells,
            i,
            Cell {
                word: merge(word, cell.word, keep),
                dirty: cell.dirty,
            },
        );
    }

    /// Word `i` takes the lanes' bytes, which become dirty.
    pub fn write(&mut self, i: u32, word: Word, lanes: Lanes)
        requires { i < length self.old.cells }
        ensures { self.new ≡ written self.old i word lanes }
    {
        let cell = cell_in(self.cells.as_slice(), i);
        put_cell(
            &mut self.cells,
            i,
            Cell {
                word: merge(cell.word, word, lanes),
                dirty: cell.dirty.joined(lanes),
            },
        );
    }

    /// The frame waits no longer.
    pub fn settle(&mut self)
        ensures { self.new ≡ settled self.old }
    {
        self.pending = false;
    }
}

fn cell_in(cells: &[Cell], i: u32) -> Cell
    requires { i < length cells.now }
    ensures { result ≡ slice_index_or cells.now i zero_cell }
{
    cells[i as usize]
}

fn put_cell(cells: &mut ArrayVec<Cell, MAX_BLOCK_WORDS>, i: u32, cell: Cell)
    requires { i < length cells.old.items }
    ensures { cells.new.items ≡ slice_set cells.old.items i cell }
{
    cells.as_mut_slice()[i as usize] = cell;
}

fn zero_cells(words: u32) -> ArrayVec<Cell, MAX_BLOCK_WORDS>
    requires { words ≤ MAX_BLOCK_WORDS }
    ensures { result.items ≡ replicate words zero_cell }
{
    let mut cells = ArrayVec::new();
    for _ in 0..words {
        cells.push(Cell::default());
    }
    cells
}

/// A set's frames with a block, the oldest first.
#[derive(Drop)]
pub struct Order {
    frames: ArrayVec<u32, MAX_WAYS>,
}

impl Model for Order {
    ghost use Rattle.std.specs.Prelude.{List, ℕ};

    ghost Value = { List ℕ };

    ghost view = { λ a. a.frames.items };
}

impl Order {
    /// An order with no frame in it.
    pub fn new() -> Self
        ensures { result ≡ [] }
    {
        Order {
            frames: ArrayVec::new(),
        }
    }

    /// The frame goes last.
    pub fn push(&mut self, frame: u32)
        requires { length self.old < MAX_WAYS }
        ensures { self.new ≡ self.old ++ frame ∷ [] }
    {
        self.frames.push(frame);
    }

    /// Takes a frame out.
    pub fn remove(&mut self, frame: u32)
        ensures { self.new ≡ without self.old frame }
    {
        remove_frame(&mut self.frames, frame);
    }

    /// Oldest first.
    pub fn as_slice(&self) -> &[u32]
        ensures { result.now ≡ self.now }
    {
        self.frames.as_slice()
    }
}

fn remove_frame(frames: &mut ArrayVec<u32, MAX_WAYS>, frame: u32)
    ensures { frames.new.items ≡ without frames.old.items frame }
{
    frames.retain(|f| *f != frame);
}
