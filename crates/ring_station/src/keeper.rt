//! Where segments go.
ghost use Rattle.std.specs.Prelude.{◌≡◌, ◌++◌, ◌∷◌, [], List, OnOk, OnErr};
ghost use Rattle.ring_station.specs.declared.segment.Segment.{Segment};

use crate::segment::Segment;
use std::alloc::AllocError;

/// Takes the segments of [`run_in_segments`](crate::run_in_segments), each as its station is renewed. It may
/// look at them and let them go.
pub trait Keeper {
    /// Just these were given between the two, oldest first.
    ghost kept: { Self → List Segment → Self → Type 0 };

    /// Keeps a segment behind those before. `AllocError`: too little memory, and it isn't kept.
    fn keep(&mut self, segment: Segment) -> Result<(), AllocError>
        ensures kept { OnOk result (kept self.old (segment ∷ []) self.new) }
        ensures refused { OnErr result (kept self.old [] self.new) };

    /// Given none, it may stay as it is.
    ghost kept_none: { (a : Self) → kept a [] a };

    /// Lists one behind the other are one.
    ghost kept_more: { (a b c : Self) (xs ys : List Segment) → kept a xs b → kept b ys c
        → kept a (xs ++ ys) c };
}

/// All of them, oldest first.
impl Keeper for Vec<Segment> {
    ghost use Rattle.std.proofs.Common.{sym, ap, ◌∙◌, append_assoc};
    ghost use Rattle.std.proofs.lemmas.List.{append-nil};

    ghost kept = { λ old segments new. new.items ≡ old.items ++ segments };

    ghost kept_none = { λ a. sym (append-nil a.items) };

    ghost kept_more = { λ a b c xs ys p q. q ∙ ap (λ l. l ++ ys) p ∙ append_assoc a.items xs ys };

    fn keep(&mut self, segment: Segment) -> Result<(), AllocError> {
        Ok(self.push(segment)?)
    }
}
