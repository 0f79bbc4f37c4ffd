//! What stood in a byte before it was overwritten.

ghost use Rattle.std.specs.Prelude.{◌≡◌, ◌<◌, ◌≤◌, ◌+◌, None, OnOk};
ghost use Rattle.std.specs.HashMap.{spare};
ghost use Rattle.flat_model.specs.Words.{byte, has};
ghost use Rattle.run_reasons.specs.Pasts.{lane_of, line_of, place_of, value_key, with_past, overwritten_at, overwritten_in, pasts_of, kept};

use crate::origins::Stores;
use bitflags::Flags;
use flat_model::{Lanes, Word};
use std::alloc::{AllocError, Global};
use std::collections::HashMap;

/// A byte's value that a store overwrote.
#[derive(Clone, Copy, PartialEq, Eq, Debug)]
pub struct Overwritten {
    /// The line that put it there; 0 for memory's first.
    pub put: u64,
    /// The line of the next store.
    pub by: u64,
}

/// When each byte of a word that came was last overwritten there, if ever.
#[derive(Clone, Copy, PartialEq, Eq, Debug)]
pub struct Pasts {
    /// Of byte 0.
    pub b0: Option<Overwritten>,
    /// Of byte 1.
    pub b1: Option<Overwritten>,
    /// Of byte 2.
    pub b2: Option<Overwritten>,
    /// Of byte 3.
    pub b3: Option<Overwritten>,
}

#[derive(Clone, Copy)]
enum Byte {
    First,
    Second,
    Third,
    Fourth,
}

impl Byte {
    fn place(self) -> u64
        ensures value { result ≡ place_of (lane_of self) }
        ensures few { result < 4 }
    {
        match self {
            Byte::First => 0,
            Byte::Second => 1,
            Byte::Third => 2,
            Byte::Fourth => 3,
        }
    }

    #[tactic(auto, unfolding(flat_model::specs::Words::has))]
    fn is_in(self, lanes: Lanes) -> bool
        ensures { result ≡ has lanes (lane_of self) }
    {
        match self {
            Byte::First => lanes.contains(Lanes::LANE_0),
            Byte::Second => lanes.contains(Lanes::LANE_1),
            Byte::Third => lanes.contains(Lanes::LANE_2),
            Byte::Fourth => lanes.contains(Lanes::LANE_3),
        }
    }

    fn of(self, word: Word) -> u8
        ensures { result ≡ byte word (lane_of self) }
    {
        match self {
            Byte::First => word.b0,
            Byte::Second => word.b1,
            Byte::Third => word.b2,
            Byte::Fourth => word.b3,
        }
    }

    fn line(self, stores: Stores) -> u64
        ensures { result ≡ line_of stores (lane_of self) }
    {
        match self {
            Byte::First => stores.b0,
            Byte::Second => stores.b1,
            Byte::Third => stores.b2,
            Byte::Fourth => stores.b3,
        }
    }

    fn value_key(self, at: u32, value: u8) -> u64
        ensures { result ≡ value_key at (lane_of self) value }
    {
        (u64::from(at) * 4 + self.place()) * 256 + u64::from(value)
    }
}

#[derive(Drop)]
pub(crate) struct Past {
    pub(crate) values: HashMap<u64, Overwritten>,
}

#[tactic(auto, unfolding(crate::specs::Pasts::kept))]
impl Past {
    pub(crate) fn new(alloc: Global) -> Past
        ensures { kept result ≡ (λ key. None) }
    {
        Past {
            values: HashMap::new(alloc),
        }
    }

    pub(crate) fn make_room(&mut self) -> Result<(), AllocError>
        ensures same { kept self.new ≡ kept self.old }
        ensures room { OnOk result (4 ≤ spare self.new.values) }
    {
        self.values.reserve(4)
    }

    fn note(&mut self, key: u64, overwritten: Overwritten)
        requires { 0 < spare self.old.values }
        ensures past { kept self.new ≡ with_past (kept self.old) key overwritten }
        ensures room { spare self.old.values ≤ spare self.new.values + 1 }
    {
        let _before = self.values.insert(key, overwritten);
    }

    #[tactic(auto, unfolding(crate::specs::Pasts::overwritten_at))]
    fn overwrite_byte(
        &mut self,
        line: u64,
        lanes: Lanes,
        at: u32,
        word: Word,
        stores: Stores,
        byte: Byte,
    )
        requires { 0 < spare self.old.values }
        ensures past { kept self.new
            ≡ overwritten_at line lanes at word stores (lane_of byte) (kept self.old) }
        ensures room { spare self.old.values ≤ spare self.new.values + 1 }
    {
        if byte.is_in(lanes) {
            let key = byte.value_key(at, byte.of(word));
            let put = byte.line(stores);
            self.note(key, Overwritten { put, by: line });
        }
    }

    // `word` stood there, put by the lines of `stores`.
    #[tactic(auto, unfolding(crate::specs::Pasts::overwritten_in))]
    pub(crate) fn overwrite(&mut self, line: u64, lanes: Lanes, at: u32, word: Word, stores: Stores)
        requires { 4 ≤ spare self.old.values }
        ensures { kept self.new ≡ overwritten_in line lanes at word stores (kept self.old) }
    {
        self.overwrite_byte(line, lanes, at, word, stores, Byte::First);
        self.overwrite_byte(line, lanes, at, word, stores, Byte::Second);
        self.overwrite_byte(line, lanes, at, word, stores, Byte::Third);
        self.overwrite_byte(line, lanes, at, word, stores, Byte::Fourth);
    }

    fn of_value(&self, at: u32, byte: Byte, value: u8) -> Option<Overwritten>
        ensures { result ≡ kept self.now (value_key at (lane_of byte) value) }
    {
        self.values.get(&byte.value_key(at, value)).copied()
    }

    #[tactic(auto, unfolding(crate::specs::Pasts::pasts_of))]
    pub(crate) fn of_word(&self, at: u32, got: Word) -> Pasts
        ensures { result ≡ pasts_of (kept self.now) at got }
    {
        Pasts {
            b0: self.of_value(at, Byte::First, got.b0),
            b1: self.of_value(at, Byte::Second, got.b1),
            b2: self.of_value(at, Byte::Third, got.b2),
            b3: self.of_value(at, Byte::Fourth, got.b3),
        }
    }
}
