//! Loads and stores of a block that a frame holds.
ghost use Rattle.std.specs.Prelude.{◌≡◌, ◌+◌, ◌<◌, ◌≤◌, ◌==◌, length, false, Some};
ghost use Rattle.std.specs.List.{list_any};
ghost use Rattle.miss_registers.specs.Registers as regs;
ghost use Rattle.miss_registers.specs.Whole.{IsWhole};
ghost use Rattle.cache_law.specs.Sound.{IsSound};
ghost use Rattle.cache_law.specs.State.{frame_of, tags};
ghost use Rattle.cache_law.specs.Causes.{found, is_in_use, targets_full};
ghost use Rattle.cache_law.specs.Requests.{load_answer, load_present};
ghost use Rattle.cache_unit.specs.Findings.{finding_of};
ghost use Rattle.cache_law.specs.Steps.{noted_for, written};

use crate::{Reply, ShapedUnit, Sizes};
use flat_model::{Answer, Cause, Lanes, Word, merge};
use miss_registers::{MAX_WAITING, RegisterTable};

/// Where a load finds its word.
#[derive(Clone, Copy)]
pub(crate) enum Finding {
    /// The word is at hand.
    Here(Word),
    /// It is on its way; `held` are the bytes of `code`'s lanes.
    Coming {
        slot: u32,
        held: Word,
        code: Lanes,
        waiting: u32,
    },
}

impl ShapedUnit {
    /// How many loads are awaited or ready. Of each unit: no tag is owed twice, a block has one
    /// frame and one live register at most, and each word in the stack is awaited.
    pub fn owed(&self) -> u32
        ensures value { result ≡ length (tags self.now.cache) }
        ensures few { result ≤ self.now.sizes.replies }
        ensures sound { IsSound self.now.sizes self.now.cache }
    {
        self.registers.awaited() + self.ready.len() as u32
    }

    pub(super) fn is_in_use(&self, tag: u16) -> bool
        ensures { result ≡ is_in_use self.now.cache tag }
    {
        has_tag(self.ready.as_slice(), tag) || self.registers.tag_waits(tag)
    }

    // Where a load finds its word. Inlined: a load that hits doesn't pay for a call.
    #[inline(always)]
    pub(super) fn find_word(&self, block: u32, i: u32, frame: u32) -> Finding
        requires word { i < self.now.sizes.block_words }
        requires held { frame_of self.now.cache block ≡ Some frame }
        ensures { result ≡ finding_of self.now.cache block i (found self.now.cache block i) }
    {
        let buffer = self.directory.word(frame, i);
        let Some(slot) = self.registers.live_for(block) else {
            return Finding::Here(buffer);
        };
        let Some(code) = self.registers.missing_code(slot, i) else {
            return Finding::Here(buffer);
        };
        if code.has_all() {
            return Finding::Here(buffer);
        }
        match self.stack.find(slot, i) {
            Some(word) => Finding::Here(merge(word, buffer, code)),
            None => Finding::Coming {
                slot,
                held: merge(Word::default(), buffer, code),
                code,
                waiting: self.registers.waiting(slot, i),
            },
        }
    }

    // A load of a present block: ready, or waiting unless four loads wait.
    pub(super) fn load_present(&mut self, tag: u16, block: u32, i: u32, frame: u32) -> Answer
        requires word { i < self.old.sizes.block_words }
        requires held { frame_of self.old.cache block ≡ Some frame }
        requires new_tag { is_in_use self.old.cache tag ≡ false }
        requires replies { length (tags self.old.cache) < self.old.sizes.replies }
        ensures answer { result ≡ load_answer
            (targets_full self.old.cache i (found self.old.cache block i)) }
        ensures unit { self.new ≡ record self.old {
          cache = load_present self.old.cache tag block i
              (targets_full self.old.cache i (found self.old.cache block i));
        } }
    {
        match self.find_word(block, i, frame) {
            Finding::Here(word) => {
                self.ready.push(Reply { tag, word });
                Answer::Accepted
            }
            Finding::Coming {
                slot,
                held,
                code,
                waiting,
            } => {
                if waiting >= MAX_WAITING as u32 {
                    return Answer::Refused(Cause::TargetsFull);
                }
                self.registers.await_word(slot, i, tag, held, code);
                Answer::Accepted
            }
        }
    }

    pub(super) fn store_present(&mut self, block: u32, i: u32, frame: u32, word: Word, lanes: Lanes)
        requires word { i < self.old.sizes.block_words }
        requires held { frame_of self.old.cache block ≡ Some frame }
        ensures { self.new ≡ record self.old { cache = written self.old.cache block i word lanes } }
    {
        self.directory.write(frame, i, word, lanes);
        note_code(&mut self.registers, &self.sizes, block, i, lanes);
    }
}

fn has_tag(ready: &[Reply], tag: u16) -> bool
    ensures { result ≡ list_any (λ r. r.tag == tag) ready.now }
{
    ready.iter().any(|r| r.tag == tag)
}

// The lanes join the word's code, while it is on its way.
fn note_code(registers: &mut RegisterTable, sizes: &Sizes, block: u32, i: u32, lanes: Lanes)
    requires whole { IsWhole sizes.now.block_words sizes.now.regs registers.old }
    requires there { i < sizes.now.block_words }
    ensures noted { registers.new
        ≡ noted_for registers.old (regs.live_for registers.old block) i lanes }
    ensures whole { IsWhole sizes.now.block_words sizes.now.regs registers.new }
{
    let Some(slot) = registers.live_for(block) else {
        return;
    };
    let Some(_code) = registers.missing_code(slot, i) else {
        return;
    };
    registers.note_store(slot, i, lanes);
}
