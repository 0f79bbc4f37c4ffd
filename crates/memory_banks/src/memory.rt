//! The banks of a machine.
ghost use Rattle.std.specs.Prelude.{◌≡◌, ℕ, ◌<◌, ◌≤◌, ◌↔◌, length, slice_get, slice_set, IfOk, IfErr, OnOk, IsTrue, None};
ghost use Rattle.std.specs.List.{count_by, list_all};
ghost use Rattle.flat_model.specs.declared.limits.TheConstants.{MAX_BANKS, MAX_BANK_QUEUE, MAX_MEMORY};
ghost use Rattle.memory_banks.specs.declared.bank.TheConstants.{MAX_ANSWERS};
ghost use Rattle.memory_banks.specs.Banks.{bank_at, words_after, pending, opening_banks, room_in};
ghost use Rattle.memory_banks.specs.Memory.{with_banks, IsMemory, word_in, is_read, is_idle, serve_in, without_answer, SameButQueues};
ghost use Rattle.memory_banks.specs.Memory.{bad_field, fault_of};

use crate::{BankAnswer, Command, Lines, MemoryBank};
use flat_model::{MAX_BANK_QUEUE, MAX_BANKS, MAX_WORDS, MakeFault, Shape, ShapeField, Word};
use std::alloc::{AllocError, Global};
use std::marker::Model;

/// A machine's banks.
#[derive(Drop)]
pub struct Banks {
    words: u32,
    limit: u32,
    banks: Vec<MemoryBank>,
}

impl Model for Banks {
    ghost use Rattle.memory_banks.specs.Memory.{Memory, IsMemory};

    ghost Value = { Memory };

    ghost view = { λ a. record { words = a.words; limit = a.limit; banks = a.banks.items } };

    ghost invariant = { λ a.
        let m : Memory = record { words = a.words; limit = a.limit; banks = a.banks.items } in
        IsMemory m };
}

impl Banks {
    /// Banks that hold the image, with nothing queued. `BadShape` names the first bad number:
    /// `Words` (1 to 1,048,576), `Banks` (1 to 16), `BankQueue` (1 to 64) or `Image`, whose length
    /// is the words. `OutOfMemory`: too little memory, and none is kept.
    pub fn new(alloc: Global, image: &[Word], shape: &Shape) -> Result<Self, MakeFault>
        ensures ok { IfOk result (λ m. m ≡ record {
          words = shape.now.words;
          limit = shape.now.bank_queue;
          banks = opening_banks image.now shape.now.banks;
        }) }
        ensures in_range { OnOk result (bad_field (length image.now) shape.now ≡ None) }
        ensures fault { IfErr result (λ e. e ≡ fault_of (bad_field (length image.now) shape.now)) }
    {
        if let Some(field) = bad_field(image.len(), shape) {
            return Err(MakeFault::BadShape(field));
        }
        Ok(Banks::over(alloc, image, shape)?)
    }

    /// The same for numbers in their ranges; words may be as many as 32 bits count. An error: too
    /// little memory.
    pub fn over(alloc: Global, image: &[Word], shape: &Shape) -> Result<Self, AllocError>
        requires some_words { 1 ≤ shape.now.words }
        requires few_words { shape.now.words ≤ MAX_MEMORY }
        requires image { length image.now ≡ shape.now.words }
        requires some_banks { 1 ≤ shape.now.banks }
        requires few_banks { shape.now.banks ≤ MAX_BANKS }
        requires some_commands { 1 ≤ shape.now.bank_queue }
        requires few_commands { shape.now.bank_queue ≤ MAX_BANK_QUEUE }
        ensures { IfOk result (λ m. m ≡ record {
          words = shape.now.words;
          limit = shape.now.bank_queue;
          banks = opening_banks image.now shape.now.banks;
        }) }
    {
        let banks = opening_banks(alloc, image, shape.banks as usize)?;
        Ok(Banks {
            words: shape.words,
            limit: shape.bank_queue,
            banks,
        })
    }

    /// Serves a bank's first command, behind at most 1,024 answers. A read adds an answer last; a
    /// write changes its word. At a place that isn't there a read answers zeros and a write does
    /// nothing. `false`: no command or no bank.
    pub fn serve(&mut self, bank: u32) -> bool
        requires { length (bank_at self.old.banks bank).answers ≤ MAX_ANSWERS }
        ensures moved { IsTrue result ↔ (0 < length (bank_at self.old.banks bank).queue) }
        ensures banks { self.new ≡ with_banks self.old
            (serve_in self.old.banks bank (bank_at self.old.banks bank).queue) }
        ensures words_stay { (b : ℕ) →
            words_after (bank_at self.new.banks b) ≡ words_after (bank_at self.old.banks b) }
        ensures pending_stay { (b : ℕ) →
            pending (bank_at self.new.banks b) ≡ pending (bank_at self.old.banks b) }
    {
        if (bank as usize) < self.banks.len() {
            let bank = &mut self.banks[bank as usize];
            bank.serve()
        } else {
            false
        }
    }

    /// Takes the answer at `place` out; later ones move up. `None` changes nothing.
    pub fn take_answer(&mut self, bank: u32, place: u32) -> Option<BankAnswer>
        ensures value { result ≡ slice_get (bank_at self.old.banks bank).answers place }
        ensures banks { self.new ≡ with_banks self.old
            (slice_set self.old.banks bank (without_answer (bank_at self.old.banks bank) place)) }
    {
        if (bank as usize) < self.banks.len() {
            let bank = &mut self.banks[bank as usize];
            bank.take_answer(place)
        } else {
            None
        }
    }

    /// Waiting commands; 0 without the bank.
    pub fn queued(&self, bank: u32) -> u32
        ensures value { result ≡ length (bank_at self.now.banks bank).queue }
        ensures within { IsMemory self.now }
    {
        match self.banks.get(bank as usize) {
            Some(bank) => bank.queued(),
            None => 0,
        }
    }

    /// Waiting reads; 0 without the bank.
    pub fn reads(&self, bank: u32) -> u32
        ensures { result ≡ count_by is_read (bank_at self.now.banks bank).queue }
    {
        match self.banks.get(bank as usize) {
            Some(bank) => bank.reads(),
            None => 0,
        }
    }

    /// The command at `place` of a bank's queue, the next one at 0.
    pub fn command_at(&self, bank: u32, place: u32) -> Option<Command>
        ensures { result ≡ slice_get (bank_at self.now.banks bank).queue place }
    {
        self.banks.get(bank as usize)?.command_at(place)
    }

    /// Answers in the bank; 0 without it.
    pub fn answers(&self, bank: u32) -> u32
        ensures { result ≡ length (bank_at self.now.banks bank).answers }
    {
        match self.banks.get(bank as usize) {
            Some(bank) => bank.answers(),
            None => 0,
        }
    }

    /// The answer at `place`; it stays.
    pub fn answer_at(&self, bank: u32, place: u32) -> Option<BankAnswer>
        ensures { result ≡ slice_get (bank_at self.now.banks bank).answers place }
    {
        self.banks.get(bank as usize)?.answer_at(place)
    }

    /// The word of memory as it stands in its bank.
    pub fn word(&self, at: u32) -> Option<Word>
        ensures { result ≡ word_in self.now at }
    {
        let banks = self.banks.len() as u32;
        if at >= self.words {
            return None;
        }
        let bank = &self.banks[(at % banks) as usize];
        Some(bank.word(at / banks))
    }

    /// Whether no bank has a command or an answer.
    pub fn idle(&self) -> bool
        ensures { result ≡ list_all is_idle self.now.banks }
    {
        self.banks.iter().all(|bank| bank.is_idle())
    }
}

impl Lines for Banks {
    ghost sent_to = { λ m b. (bank_at m.banks b).queue };

    ghost room_of = { λ m b. room_in m.limit m.banks b };

    ghost same = { SameButQueues };

    fn room(&self, bank: u32) -> u32 {
        match self.banks.get(bank as usize) {
            Some(bank) => self.limit - bank.queued(),
            None => 0,
        }
    }

    fn send(&mut self, bank: u32, command: Command) {
        let bank = &mut self.banks[bank as usize];
        bank.send(command);
    }

    ghost use Rattle.memory_banks.specs.Memory.{same_self, same_steps};

    ghost same_self = { same_self };

    ghost same_steps = { same_steps };
}

fn bad_field(image: usize, shape: &Shape) -> Option<ShapeField>
    ensures { result ≡ bad_field image shape.now }
{
    if shape.words < 1 || shape.words > MAX_WORDS {
        Some(ShapeField::Words)
    } else if shape.banks < 1 || shape.banks > MAX_BANKS {
        Some(ShapeField::Banks)
    } else if shape.bank_queue < 1 || shape.bank_queue > MAX_BANK_QUEUE {
        Some(ShapeField::BankQueue)
    } else if image != shape.words as usize {
        Some(ShapeField::Image)
    } else {
        None
    }
}

fn opening_banks(alloc: Global, image: &[Word], banks: usize) -> Result<Vec<MemoryBank>, AllocError>
    requires few { banks ≤ MAX_BANKS }
    requires fits { length image.now ≤ MAX_MEMORY }
    ensures { IfOk result (λ v. v.items ≡ opening_banks image.now banks) }
{
    let mut made = Vec::with_capacity(alloc, banks)?;
    for bank in 0..banks {
        made.push(MemoryBank::new(alloc, image, banks, bank)?)?;
    }
    Ok(made)
}
