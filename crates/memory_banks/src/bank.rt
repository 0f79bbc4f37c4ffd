//! One bank of memory.
ghost use Rattle.std.specs.Prelude.{◌≡◌, ◌<◌, ◌≤◌, ◌↔◌, [], length, slice_get, IfOk, IsTrue};
ghost use Rattle.std.specs.List.{count_by};
ghost use Rattle.flat_model.specs.declared.limits.TheConstants.{MAX_BANKS, MAX_MEMORY, MAX_BANK_QUEUE};
ghost use Rattle.flat_model.specs.Flat.{word_at, stored};
ghost use Rattle.memory_banks.specs.declared.bank.TheConstants.{MAX_ANSWERS};
ghost use Rattle.memory_banks.specs.Banks.{with_command, share_of};
ghost use Rattle.memory_banks.specs.Memory.{serve_bank, without_answer, is_read, is_idle};

use crate::{BankAnswer, Command};
use circular_buffer::HeapCircularBuffer;
use flat_model::{Lanes, MAX_BANK_QUEUE, MAX_BLOCK_WORDS, MAX_REGS, Word, merge};
use std::alloc::{AllocError, Global};
use std::marker::Model;

/// The most answers before a serve: one for each word that registers may wait for.
pub const MAX_ANSWERS: usize = MAX_REGS * MAX_BLOCK_WORDS;

// Room for one more.
const ANSWER_PLACES: usize = MAX_ANSWERS + 1;

/// A bank: words, waiting commands, and untaken answers.
#[derive(Drop)]
pub struct MemoryBank {
    words: Vec<Word>,
    queue: HeapCircularBuffer<Command>,
    // Reads in the queue: counted, since it is often asked.
    reads: u32,
    answers: Vec<BankAnswer>,
}

impl Model for MemoryBank {
    ghost use Rattle.std.specs.Prelude.{◌≡◌, ◌≤◌, length, vec_capacity};
    ghost use Rattle.std.specs.List.{count_by};
    ghost use Rattle.flat_model.specs.declared.limits.TheConstants.{MAX_BANK_QUEUE};
    ghost use Rattle.memory_banks.specs.declared.bank.TheConstants.{ANSWER_PLACES};
    ghost use Rattle.memory_banks.specs.Banks.{Bank};
    ghost use Rattle.memory_banks.specs.Memory.{is_read};

    ghost Value = { Bank };

    ghost view = { λ a.
        record { words = a.words.items; queue = a.queue.items; answers = a.answers.items } };

    ghost invariant = { λ a. (a.queue.capacity ≡ MAX_BANK_QUEUE)
        × (length a.queue.items ≤ MAX_BANK_QUEUE)
        × (a.reads ≡ count_by is_read a.queue.items)
        × (vec_capacity a.answers ≡ ANSWER_PLACES)
        × (length a.answers.items ≤ ANSWER_PLACES) };
}

#[tactic(auto, unfolding(crate::specs::Banks::served, crate::specs::Banks::with_command))]
impl MemoryBank {
    /// Bank `bank` of `banks`, with its share of the image.
    pub(crate) fn new(
        alloc: Global,
        image: &[Word],
        banks: usize,
        bank: usize,
    ) -> Result<Self, AllocError>
        requires here { bank < banks }
        requires few { banks ≤ MAX_BANKS }
        requires fits { length image.now ≤ MAX_MEMORY }
        ensures { IfOk result (λ b. b
            ≡ record { words = share_of image.now banks bank; queue = []; answers = [] }) }
    {
        let words = share(alloc, image, banks, bank)?;
        let queue = HeapCircularBuffer::with_capacity(alloc, MAX_BANK_QUEUE as usize)?;
        let answers = Vec::with_capacity(alloc, ANSWER_PLACES)?;
        Ok(MemoryBank {
            words,
            queue,
            reads: 0,
            answers,
        })
    }

    /// How many commands wait.
    pub(crate) fn queued(&self) -> u32
        ensures value { result ≡ length self.now.queue }
        ensures within { result ≤ MAX_BANK_QUEUE }
    {
        self.queue.len() as u32
    }

    /// How many reads wait.
    pub(crate) fn reads(&self) -> u32
        ensures { result ≡ count_by is_read self.now.queue }
    {
        self.reads
    }

    /// How many answers stand.
    pub(crate) fn answers(&self) -> u32
        ensures { result ≡ length self.now.answers }
    {
        self.answers.len() as u32
    }

    pub(crate) fn is_idle(&self) -> bool
        ensures { result ≡ is_idle self.now }
    {
        self.queue.is_empty() && self.answers.is_empty()
    }

    /// Zero without such a word.
    pub(crate) fn word(&self, place: u32) -> Word
        ensures { result ≡ word_at self.now.words place }
    {
        word_at(&self.words, place)
    }

    /// One more command, last.
    pub(crate) fn send(&mut self, command: Command)
        requires { length self.old.queue < MAX_BANK_QUEUE }
        ensures { self.new ≡ with_command self.old command }
    {
        self.reads += u32::from(is_read(&command));
        let _ = self.queue.try_push_back(command);
    }

    pub(crate) fn serve(&mut self) -> bool
        requires { length self.old.answers ≤ MAX_ANSWERS }
        ensures moved { IsTrue result ↔ (0 < length self.old.queue) }
        ensures bank { self.new ≡ serve_bank self.old self.old.queue }
    {
        match self.queue.pop_front() {
            None => false,
            Some(Command::Read { slot, i, place }) => {
                self.reads -= 1;
                let word = word_at(&self.words, place);
                self.answers.push_reserved(BankAnswer { slot, i, word });
                true
            }
            Some(Command::Write { place, word, lanes }) => {
                store(&mut self.words, place, word, lanes);
                true
            }
        }
    }

    /// The command at `place`, which stays.
    pub(crate) fn command_at(&self, place: u32) -> Option<Command>
        ensures { result ≡ slice_get self.now.queue place }
    {
        self.queue.get(place as usize).copied()
    }

    /// The answer at `place`, which stays.
    pub(crate) fn answer_at(&self, place: u32) -> Option<BankAnswer>
        ensures { result ≡ slice_get self.now.answers place }
    {
        self.answers.get(place as usize).copied()
    }

    /// Takes out the answer at `place`.
    pub(crate) fn take_answer(&mut self, place: u32) -> Option<BankAnswer>
        ensures value { result ≡ slice_get self.old.answers place }
        ensures bank { self.new ≡ without_answer self.old place }
    {
        if (place as usize) < self.answers.len() {
            Some(self.answers.remove(place as usize))
        } else {
            None
        }
    }
}

fn is_read(command: &Command) -> bool
    ensures { result ≡ is_read command.now }
{
    match command {
        Command::Read { .. } => true,
        Command::Write { .. } => false,
    }
}

fn word_at(words: &[Word], place: u32) -> Word
    ensures { result ≡ word_at words.now place }
{
    words.get(place as usize).copied().unwrap_or_default()
}

// Writes the lanes of a word, where there is such a word.
fn store(words: &mut Vec<Word>, place: u32, word: Word, lanes: Lanes)
    ensures { words.new.items ≡ stored words.old.items place word lanes }
{
    let place = place as usize;
    if place < words.len() {
        words[place] = merge(words[place], word, lanes);
    }
}

// Every `banks`-th word, from `bank` on.
fn share(alloc: Global, image: &[Word], banks: usize, bank: usize) -> Result<Vec<Word>, AllocError>
    requires here { bank < banks }
    requires few { banks ≤ MAX_BANKS }
    requires fits { length image.now ≤ MAX_MEMORY }
    ensures { IfOk result (λ v. v.items ≡ share_of image.now banks bank) }
{
    let count = (image.len() + banks - 1 - bank) / banks;
    let mut words = Vec::with_capacity(alloc, count)?;
    for k in 0..count {
        words.push(image[k * banks + bank])?;
    }
    Ok(words)
}
