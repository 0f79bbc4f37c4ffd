//! By hand, since what `bitflag_items!` writes says nothing of its results.
#![tactic(auto, unfolding(crate::specs::Words::joined))]

ghost use Rattle.std.specs.Prelude.{◌≡◌, ◌-◌, bit_and};
ghost use Rattle.std.specs.Int.RustNames.{bit_xor};
ghost use Rattle.flat_model.specs.Words.{joined};

use crate::Lanes;
use std::ops::{
    BitAnd, BitAndAssign, BitOr, BitOrAssign, BitXor, BitXorAssign, Not, Sub, SubAssign,
};

/// Either set.
impl BitOr for Lanes {
    type Output = Lanes;

    ghost bitor_gives = { λ x y r. r ≡ joined x y };

    fn bitor(self, other: Lanes) -> Lanes {
        Lanes(self.0 | other.0)
    }
}

impl BitOrAssign for Lanes {
    ghost bitor_assign_gives = { λ x y r. r ≡ joined x y };

    fn bitor_assign(&mut self, other: Lanes) {
        self.0 |= other.0;
    }
}

/// Both sets.
impl BitAnd for Lanes {
    type Output = Lanes;

    ghost bitand_gives = { λ x y r. r.0 ≡ bit_and x.0 y.0 };

    fn bitand(self, other: Lanes) -> Lanes {
        Lanes(self.0 & other.0)
    }
}

impl BitAndAssign for Lanes {
    ghost bitand_assign_gives = { λ x y r. r.0 ≡ bit_and x.0 y.0 };

    fn bitand_assign(&mut self, other: Lanes) {
        self.0 &= other.0;
    }
}

/// One set alone.
impl BitXor for Lanes {
    type Output = Lanes;

    ghost bitxor_gives = { λ x y r. r.0 ≡ bit_xor x.0 y.0 };

    fn bitxor(self, other: Lanes) -> Lanes {
        Lanes(self.0 ^ other.0)
    }
}

impl BitXorAssign for Lanes {
    ghost bitxor_assign_gives = { λ x y r. r.0 ≡ bit_xor x.0 y.0 };

    fn bitxor_assign(&mut self, other: Lanes) {
        self.0 ^= other.0;
    }
}

/// Without the second's lanes.
impl Sub for Lanes {
    type Output = Lanes;

    ghost sub_gives = { λ x y r. r.0 ≡ bit_and x.0 (255 - y.0) };

    fn sub(self, other: Lanes) -> Lanes {
        Lanes(self.0 & !other.0)
    }
}

impl SubAssign for Lanes {
    ghost sub_assign_gives = { λ x y r. r.0 ≡ bit_and x.0 (255 - y.0) };

    fn sub_assign(&mut self, other: Lanes) {
        self.0 &= !other.0;
    }
}

/// The other lanes of the four.
impl Not for Lanes {
    type Output = Lanes;

    ghost not_gives = { λ x r. r.0 ≡ bit_and (255 - x.0) 15 };

    fn not(self) -> Lanes {
        Lanes(!self.0 & 15)
    }
}
