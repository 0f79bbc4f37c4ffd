//! What a caller in C holds of a machine: the handle says where it and its rounds lie. `keep` and
//! `taken`, which make a pointer of a box and back, and `mark` are proved by hand. What is said of
//! them names no pointer.
ghost use Rattle.std.specs.Prelude.{◌≡◌, ◌≢◌, IfSome, IsNone, None, Some, is_some};
ghost use Rattle.machine_handles.specs.declared.kept.Kept.{Kept};

use crate::kept::Kept;
use std::alloc::Global;
use std::marker::Model;

/// Where a machine is.
#[repr(C)]
#[derive(Drop)]
pub struct Opaque {
    hidden: u8,
}

/// A machine that C holds; closed if all zeros.
#[repr(C)]
#[derive(Drop)]
pub struct Handle {
    /// 0 if no machine is behind it.
    pub open: u32,
    at: *mut Opaque,
    /// The machine and rounds of an open handle.
    pub ghost kept: { Kept },
}

impl Model for Handle {
    ghost use Rattle.machine_handles.specs.Blocks.{block_token};
    ghost use Rattle.std.specs.Box.Ownership.{box_owns};
    ghost use Rattle.std.specs.Vec.Ownership.{owns_if};
    ghost use Rattle.machine_handles.specs.contracts.kept.Kept.{the_row};
    ghost use Rattle.machine_handles.specs.Open.{nonzero};

    ghost also_owns = { λ h. owns_if (nonzero h.open) (box_owns block_token the_row h.at h.kept) };
}

impl Handle {
    ghost use Rattle.machine_handles.specs.Behind.{standing, standing_of};

    /// Takes the machine out, and closes the handle.
    pub(crate) fn take(&mut self, alloc: Global) -> Option<Box<Kept, Global>>
        ensures kept { IfSome result (λ b. standing self.old ≡ Some (standing_of b.value)) }
        ensures closed { IsNone result → standing self.old ≡ None }
        ensures after { standing self.new ≡ None }
    {
        if self.mark() == 0 {
            None
        } else {
            Some(self.taken(alloc))
        }
    }

    /// Whether a machine is behind it.
    pub(crate) fn is_open(&mut self) -> bool
        ensures open { result ≡ is_some (standing self.old) }
        ensures same { standing self.new ≡ standing self.old }
    {
        self.mark() != 0
    }

    fn mark(&mut self) -> u32
        ensures { (result ≡ self.old.open) × (self.new ≡ self.old) }
    {
        self.open
    }

    fn taken(&mut self, alloc: Global) -> Box<Kept, Global>
        requires { self.old.open ≢ 0 }
        ensures { (result.value ≡ self.old.kept) × (self.new.open ≡ 0) }
    {
        self.open = 0;
        unsafe { Box::from_raw(alloc, self.at as *mut Kept) }
    }

    pub(crate) fn keep(&mut self, kept: Box<Kept, Global>)
        requires closed { standing self.old ≡ None }
        ensures { standing self.new ≡ Some (standing_of kept.value) }
    {
        self.at = Box::into_raw(kept) as *mut Opaque;
        self.open = 1;
    }
}
