//! Accesses, and the words that they touch.
ghost use Rattle.std.specs.Prelude.{◌≡◌, ◌<◌, ◌≤◌, ◌*◌, ◌^◌, ℕ, List, length};
ghost use Rattle.access_logs.specs.declared.access.TheConstants.{MAX_TOUCHED};
ghost use Rattle.access_logs.specs.Accesses.{IsWithin, first_word_of, last_word_of, word_count_of, is_touched, lanes_at, word_at, byte_at};
ghost use Rattle.access_logs.specs.Accesses.{bit_at};
ghost use Rattle.access_logs.specs.Requests.{count_by, request_count_of, requests_of};

use flat_model::{Lanes, Word};

/// The most bytes of an access.
pub const MAX_SIZE: u32 = 512;

/// How many bytes a word has.
pub const WORD_BYTES: u64 = 4;

/// The most words of an access: it may begin within one.
pub const MAX_TOUCHED: u64 = MAX_SIZE as u64 / WORD_BYTES + 1;

/// What an access does.
#[derive(Clone, Copy, Debug, PartialEq, Eq)]
pub enum AccessKind {
    /// It reads.
    Load,
    /// It writes.
    Store,
    /// It reads, and then writes.
    Modify,
}

impl AccessKind {
    fn request_count(self, words: u64) -> u64
        requires { words ≤ MAX_TOUCHED }
        ensures count { result ≡ count_by self words }
        ensures few { result ≤ 2 * MAX_TOUCHED }
    {
        match self {
            AccessKind::Load | AccessKind::Store => words,
            AccessKind::Modify => 2 * words,
        }
    }
}

/// A program's access.
#[derive(Clone, Copy, Debug, PartialEq, Eq)]
pub struct Access {
    /// What it does.
    pub kind: AccessKind,
    /// Its first byte.
    pub address: u64,
    /// Bytes, 1 to 512.
    pub size: u32,
}

impl Access {
    // The first word's number.
    pub(crate) fn first_word(self) -> u64
        ensures { result ≡ first_word_of self }
    {
        self.address / WORD_BYTES
    }

    // The last word's number.
    pub(crate) fn last_word(self) -> u64
        requires { IsWithin self }
        ensures { result ≡ last_word_of self }
    {
        (self.address + u64::from(self.size - 1)) / WORD_BYTES
    }

    // How many words it touches.
    pub(crate) fn word_count(self) -> u64
        requires { IsWithin self }
        ensures count { result ≡ word_count_of self }
        ensures few { result ≤ MAX_TOUCHED }
    {
        self.last_word() - self.first_word() + 1
    }

    /// One for each word touched; of a modification twice as many.
    pub fn request_count(self) -> u64
        requires { IsWithin self }
        ensures count { result ≡ request_count_of self }
        ensures requests { (pages : List ℕ) (tag number : ℕ) → length (requests_of pages tag number self) ≡ result }
        ensures few { result ≤ 2 * MAX_TOUCHED }
    {
        self.kind.request_count(self.word_count())
    }

    fn has(self, byte: u64) -> bool
        ensures { result ≡ is_touched self byte }
    {
        self.address <= byte && byte - self.address < u64::from(self.size)
    }

    // A lane's bit, 1 if this byte is touched.
    fn bit(self, byte: u64) -> u8
        ensures value { result ≡ bit_at self byte }
        ensures bound { result ≤ 1 }
    {
        if self.has(byte) { 1 } else { 0 }
    }

    pub(crate) fn lanes(self, word: u64) -> Lanes
        requires { word < 2 ^ 62 }
        ensures { result ≡ lanes_at self word }
    {
        let byte = word * WORD_BYTES;
        Lanes(
            self.bit(byte)
                + 2 * self.bit(byte + 1)
                + 4 * self.bit(byte + 2)
                + 8 * self.bit(byte + 3),
        )
    }

    // The byte that it stores here in the line of this number, else 0.
    fn byte(self, number: u64, byte: u64) -> u8
        ensures { result ≡ byte_at self number byte }
    {
        if self.has(byte) {
            ((byte % 256 + number % 256) % 256) as u8
        } else {
            0
        }
    }

    pub(crate) fn word(self, number: u64, word: u64) -> Word
        requires { word < 2 ^ 62 }
        ensures { result ≡ word_at self number word }
    {
        let byte = word * WORD_BYTES;
        Word {
            b0: self.byte(number, byte),
            b1: self.byte(number, byte + 1),
            b2: self.byte(number, byte + 2),
            b3: self.byte(number, byte + 3),
        }
    }
}
