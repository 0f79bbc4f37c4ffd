//! Sets of bytes.

ghost use Rattle.std.specs.Prelude.{◌≡◌};
ghost use Rattle.memory_histories.specs.Sets.{has, with_byte, union, no_bytes, all_bytes};

/// A set of bytes, as what a load may return.
#[derive(Clone, Copy, PartialEq, Eq, Debug)]
pub struct ByteSet {
    words: [u64; 4],
}

#[tactic(auto, unfolding(crate::specs::Sets::has, crate::specs::Sets::with_byte, crate::specs::Sets::union))]
impl ByteSet {
    /// No byte.
    pub fn none() -> ByteSet
        ensures { result ≡ no_bytes }
    {
        ByteSet {
            words: [0, 0, 0, 0],
        }
    }

    /// All 256 bytes.
    pub fn all() -> ByteSet
        ensures { result ≡ all_bytes }
    {
        ByteSet {
            words: [u64::MAX, u64::MAX, u64::MAX, u64::MAX],
        }
    }

    /// Whether this byte is in the set.
    pub fn contains(self, byte: u8) -> bool
        ensures { result ≡ has self byte }
    {
        self.holds(byte)
    }

    // The same of a set that isn't copied.
    pub(crate) fn holds(&self, byte: u8) -> bool
        ensures { result ≡ has self.now byte }
    {
        (self.words[usize::from(byte / 64)] >> (byte % 64)) % 2 == 1
    }

    /// The set with this byte.
    pub fn with(self, byte: u8) -> ByteSet
        ensures { result ≡ with_byte self byte }
    {
        let mut set = self;
        set.insert(byte);
        set
    }

    /// The bytes in one of two.
    pub fn union(self, other: ByteSet) -> ByteSet
        ensures { result ≡ union self other }
    {
        let one = self.words;
        let two = other.words;
        ByteSet {
            words: [
                one[0] | two[0],
                one[1] | two[1],
                one[2] | two[2],
                one[3] | two[3],
            ],
        }
    }

    pub(crate) fn insert(&mut self, byte: u8)
        ensures { self.new ≡ with_byte self.old byte }
    {
        let word = usize::from(byte / 64);
        self.words[word] |= 1 << (byte % 64);
    }
}
