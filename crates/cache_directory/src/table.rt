//! The frames, with their numbers given at run time.
#![tactic(auto, unfolding(crate::specs::Frames::installed, crate::specs::Frames::released, crate::specs::Frames::chosen, crate::specs::Frames::free_way, crate::specs::Frames::oldest))]

ghost use Rattle.std.specs.Prelude.{ℕ, ◌≡◌, ◌<◌, ◌≤◌, ◌+◌, ◌/◌, [], length, IsTrue, replicate, IfOk, not, is_none};
ghost use Rattle.std.specs.List.{find, range_with_len, All};
ghost use Rattle.flat_model.specs.declared.limits.TheConstants.{MAX_BLOCK_WORDS, MAX_SETS, MAX_WAYS};
ghost use Rattle.flat_model.specs.Places.{is_number};
ghost use Rattle.cache_directory.specs.Frames as spec;
ghost use Rattle.cache_directory.specs.declared.table.TheConstants.{MAX_FRAMES};

use crate::directory::Choice;
use crate::frame::{Order, Way};
use flat_model::{Lanes, MAX_SETS, MAX_WAYS, Word};
use std::alloc::{AllocError, Global};
use std::marker::Model;

// The most frames that a table has.
const MAX_FRAMES: usize = MAX_SETS as usize * MAX_WAYS;

/// Frames: `ways` (1 to 16) a set, `words` (1 to 16) a frame. The table keeps neither number: calls
/// are given the same ones.
///
/// Frames are numbered set by set, from 0; block `b` may lie only in set `b % sets`. A frame that
/// is given exists, and so does a word of it.
#[derive(Drop)]
pub struct FrameTable {
    ways: Vec<Way>,
    orders: Vec<Order>,
}

impl Model for FrameTable {
    ghost use Rattle.cache_directory.specs.Frames.{Frames};

    ghost Value = { Frames };

    ghost view = { λ a. record { frames = a.ways.items; orders = a.orders.items } };
}

impl FrameTable {
    /// `sets` (1 to 1024) empty sets of `ways` frames (1 to 16). An error: too little memory.
    pub fn new(alloc: Global, ways: u32, sets: u32) -> Result<Self, AllocError>
        requires some_way { 0 < ways }
        requires few_ways { ways ≤ MAX_WAYS }
        requires some_set { 0 < sets }
        requires few_sets { sets ≤ MAX_SETS }
        ensures made { IfOk result (λ table. table ≡ spec.all_empty ways sets) }
        ensures whole { (words : ℕ) → 0 < words → words ≤ MAX_BLOCK_WORDS
            → IfOk result (spec.IsWhole ways words) }
    {
        let frames = empty_ways(alloc, sets * ways)?;
        let orders = empty_orders(alloc, sets)?;
        Ok(FrameTable {
            ways: frames,
            orders,
        })
    }

    /// The frame that holds the block, if any.
    pub fn look(&self, ways: u32, block: u32) -> Option<u32>
        requires whole { spec.IsWholeFor ways self.now }
        ensures found { result ≡ spec.frame_of self.now.frames block }
    {
        let set = block % self.orders.len() as u32;
        holding_way(&self.ways, set * ways, ways, block)
    }

    /// The frame that the block may take: the lowest free one of its set, else the oldest that
    /// isn't pending.
    pub fn choose(&self, ways: u32, block: u32) -> Choice
        requires whole { spec.IsWholeFor ways self.now }
        ensures chosen { result ≡ spec.chosen ways self.now (spec.set_of self.now block) }
        ensures all_pending { spec.is_all_pending result
            ≡ spec.are_pending ways self.now (spec.set_of self.now block) }
    {
        let set = block % self.orders.len() as u32;
        if let Some(frame) = free_way(&self.ways, set * ways, ways) {
            return Choice::Free(frame);
        }
        let order = &self.orders[set as usize];
        match oldest(&self.ways, order.as_slice()) {
            Some(frame) => Choice::Victim(frame),
            None => Choice::AllPending,
        }
    }

    /// A free frame of the block's set takes the absent block: pending, zero words, no dirty lane,
    /// last in the set's order.
    pub fn install(&mut self, ways: u32, words: u32, frame: u32, block: u32)
        requires whole { spec.IsWhole ways words self.old }
        requires frame { frame < length self.old.frames }
        requires free { (spec.frame_at self.old.frames frame).block ≡ None }
        requires of_set { frame / ways ≡ spec.set_of self.old block }
        requires absent { spec.frame_of self.old.frames block ≡ None }
        ensures installed { self.new ≡ spec.installed ways words self.old frame block }
        ensures whole { spec.IsWhole ways words self.new }
    {
        let way = &mut self.ways[frame as usize];
        way.install(words, block);
        let order = &mut self.orders[(frame / ways) as usize];
        order.push(frame);
    }

    /// The frame gives its block up, and leaves the set's order.
    pub fn release(&mut self, ways: u32, frame: u32)
        requires whole { spec.IsWholeFor ways self.old }
        requires held { IsTrue (spec.is_held self.old frame) }
        ensures released { self.new ≡ spec.released ways self.old frame }
        ensures whole { (words : ℕ) → spec.IsWhole ways words self.old
            → spec.IsWhole ways words self.new }
    {
        let way = &mut self.ways[frame as usize];
        way.release();
        let order = &mut self.orders[(frame / ways) as usize];
        order.remove(frame);
    }

    /// Word `i` of the frame's block.
    pub fn word(&self, frame: u32, i: u32) -> Word
        requires { i < length (spec.frame_at self.now.frames frame).cells }
        ensures word { result ≡ (spec.cell_at (spec.frame_at self.now.frames frame) i).word }
    {
        let way = &self.ways[frame as usize];
        way.cell(i).word
    }

    /// Word `i`'s lanes written and not yet queued for memory.
    pub fn dirty(&self, frame: u32, i: u32) -> Lanes
        requires { i < length (spec.frame_at self.now.frames frame).cells }
        ensures dirty { result ≡ (spec.cell_at (spec.frame_at self.now.frames frame) i).dirty }
    {
        let way = &self.ways[frame as usize];
        way.cell(i).dirty
    }

    /// Word `i` takes the lanes' bytes, which become dirty.
    pub fn write(&mut self, frame: u32, i: u32, word: Word, lanes: Lanes)
        requires { i < length (spec.frame_at self.old.frames frame).cells }
        ensures written { self.new ≡ spec.with_frame self.old frame
            (spec.written (spec.frame_at self.old.frames frame) i word lanes) }
        ensures whole { (ways words : ℕ) → spec.IsWhole ways words self.old
            → spec.IsWhole ways words self.new }
    {
        let way = &mut self.ways[frame as usize];
        way.write(i, word, lanes);
    }

    /// Word `i` takes the bytes outside `keep`. No dirty lane changes.
    pub fn fill(&mut self, frame: u32, i: u32, word: Word, keep: Lanes)
        requires { i < length (spec.frame_at self.old.frames frame).cells }
        ensures filled { self.new ≡ spec.with_frame self.old frame
            (spec.filled (spec.frame_at self.old.frames frame) i word keep) }
        ensures whole { (ways words : ℕ) → spec.IsWhole ways words self.old
            → spec.IsWhole ways words self.new }
    {
        let way = &mut self.ways[frame as usize];
        way.fill(i, word, keep);
    }

    /// The frame has all words: not pending any more.
    pub fn settle_frame(&mut self, frame: u32)
        requires { IsTrue (spec.is_held self.old frame) }
        ensures settled { self.new ≡ spec.with_frame self.old frame
            (spec.settled (spec.frame_at self.old.frames frame)) }
        ensures whole { (ways words : ℕ) → spec.IsWhole ways words self.old
            → spec.IsWhole ways words self.new }
    {
        let way = &mut self.ways[frame as usize];
        way.settle();
    }

    /// The frame's block, if any.
    pub fn block_of(&self, frame: u32) -> Option<u32>
        requires { frame < length self.now.frames }
        ensures block { result ≡ (spec.frame_at self.now.frames frame).block }
    {
        let way = &self.ways[frame as usize];
        way.block()
    }

    /// Whether it waits for words.
    pub fn pending(&self, frame: u32) -> bool
        requires { frame < length self.now.frames }
        ensures pending { result ≡ (spec.frame_at self.now.frames frame).pending }
    {
        let way = &self.ways[frame as usize];
        way.pending()
    }
}

fn empty_ways(alloc: Global, count: u32) -> Result<Vec<Way>, AllocError>
    ensures { IfOk result (λ ways. ways.items ≡ replicate count spec.empty_frame) }
{
    let mut ways = Vec::with_capacity(alloc, count as usize)?;
    for _ in 0..count {
        ways.push(Way::new())?;
    }
    Ok(ways)
}

fn empty_orders(alloc: Global, count: u32) -> Result<Vec<Order>, AllocError>
    ensures { IfOk result (λ orders. orders.items ≡ replicate count []) }
{
    let mut orders = Vec::with_capacity(alloc, count as usize)?;
    for _ in 0..count {
        orders.push(Order::new())?;
    }
    Ok(orders)
}

fn holding_way(ways: &[Way], first: u32, count: u32, block: u32) -> Option<u32>
    requires there { first + count ≤ length ways.now }
    requires small { length ways.now ≤ MAX_FRAMES }
    ensures { result ≡ find (λ f. is_number (spec.frame_at ways.now f).block block)
        (range_with_len first count) }
{
    (first..first + count).find(
        |frame: &u32| -> bool
            requires { frame.now < length ways.now }
            ensures { result ≡ is_number (spec.frame_at ways.entry.now frame.now).block block }
        { ways[*frame as usize].holds(block) },
    )
}

fn free_way(ways: &[Way], first: u32, count: u32) -> Option<u32>
    requires there { first + count ≤ length ways.now }
    requires small { length ways.now ≤ MAX_FRAMES }
    ensures { result ≡ find (λ f. is_none (spec.frame_at ways.now f).block)
        (range_with_len first count) }
{
    (first..first + count).find(
        |frame: &u32| -> bool
            requires { frame.now < length ways.now }
            ensures { result ≡ is_none (spec.frame_at ways.entry.now frame.now).block }
        { ways[*frame as usize].is_free() },
    )
}

fn oldest(ways: &[Way], order: &[u32]) -> Option<u32>
    requires { All (λ f. f < length ways.now) order.now }
    ensures { result ≡ find (λ f. not (spec.frame_at ways.now f).pending) order.now }
{
    order.iter().copied().find(
        |frame: &u32| -> bool
            requires { frame.now < length ways.now }
            ensures { result ≡ not (spec.frame_at ways.entry.now frame.now).pending }
        { !ways[*frame as usize].pending() },
    )
}
