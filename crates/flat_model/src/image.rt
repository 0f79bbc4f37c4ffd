//! What memory begins with.

ghost use Rattle.std.specs.Prelude.{◌≡◌, ◌*◌, length, replicate, IfOk};
ghost use Rattle.flat_model.specs.Flat.{opening};
ghost use Rattle.flat_model.specs.Memory.{shown};
ghost use Rattle.flat_model.specs.Words.{zero_word};
ghost use Rattle.flat_model.specs.Images.{byte_in, bytes_word, number_word, word_in, words_below, memory_from, bytes_of};

use crate::{FlatMemory, Word};
use std::alloc::{AllocError, Global};

/// What memory begins with, whatever its size.
#[derive(Drop)]
pub enum Image {
    /// Zeros.
    Zeros,
    /// Each word is its address, little-endian: word 4 is `04000000`.
    Address,
    /// These bytes in order, then zeros. What has no room is left out.
    Bytes(Vec<u8>),
}

fn zero_words(alloc: Global, words: u32) -> Result<Vec<Word>, AllocError>
    ensures memory { IfOk result (λ memory. memory.items ≡ replicate words zero_word) }
    ensures words { IfOk result (λ memory. length memory.items ≡ words) }
{
    vec![in alloc; Word::default(); words as usize]
}

fn number_word(number: u32) -> Word
    ensures { result ≡ number_word number }
{
    Word {
        b0: (number % 256) as u8,
        b1: (number / 256 % 256) as u8,
        b2: (number / 65_536 % 256) as u8,
        b3: (number / 16_777_216) as u8,
    }
}

fn byte_in(bytes: &[u8], place: usize) -> u8
    ensures { result ≡ byte_in bytes.now place }
{
    match bytes.get(place) {
        Some(byte) => *byte,
        None => 0,
    }
}

fn bytes_word(bytes: &[u8], at: u32) -> Word
    ensures { result ≡ bytes_word bytes.now at }
{
    let first = 4 * at as usize;
    Word {
        b0: byte_in(bytes, first),
        b1: byte_in(bytes, first + 1),
        b2: byte_in(bytes, first + 2),
        b3: byte_in(bytes, first + 3),
    }
}

impl Image {
    fn word(&self, at: u32) -> Word
        ensures { result ≡ word_in self.now at }
    {
        match self {
            Image::Zeros => Word::default(),
            Image::Address => number_word(at),
            Image::Bytes(bytes) => bytes_word(bytes.as_slice(), at),
        }
    }

    #[tactic(auto, using(crate::proofs::Images::words_first, crate::proofs::Images::words_more, crate::proofs::Images::words_length))]
    fn words_below(&self, alloc: Global, words: u32) -> Result<Vec<Word>, AllocError>
        ensures memory { IfOk result (λ memory. memory.items ≡ words_below self.now words) }
        ensures words { IfOk result (λ memory. length memory.items ≡ words) }
    {
        let mut memory = Vec::with_capacity(alloc, words as usize)?;
        for at in 0..words {
            memory.push(self.word(at))?;
        }
        Ok(memory)
    }

    /// The bytes it was made of; none for the others.
    pub fn bytes(&self) -> &[u8]
        ensures { result.now ≡ bytes_of self.now }
    {
        match self {
            Image::Zeros | Image::Address => &[],
            Image::Bytes(bytes) => bytes.as_slice(),
        }
    }

    /// The first words of a memory of this size. `AllocError`: too little memory.
    pub fn memory(&self, alloc: Global, words: u32) -> Result<Vec<Word>, AllocError>
        ensures memory { IfOk result (λ memory. memory.items ≡ memory_from self.now words) }
        ensures words { IfOk result (λ memory. length memory.items ≡ words) }
    {
        match self {
            Image::Zeros => zero_words(alloc, words),
            Image::Address | Image::Bytes(_) => self.words_below(alloc, words),
        }
    }

    /// The same as flat memory; no tag is owed a word.
    pub fn flat_memory(&self, alloc: Global, words: u32) -> Result<FlatMemory, AllocError>
        ensures shown { IfOk result (λ flat. shown flat ≡ opening (memory_from self.now words)) }
        ensures words { IfOk result (λ flat. length (shown flat).mem ≡ words) }
    {
        let memory = self.memory(alloc, words)?;
        FlatMemory::new(alloc, memory.as_slice())
    }
}
