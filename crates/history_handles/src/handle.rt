//! What a caller in C holds of a history.
//!
//! `taken` and `keep` touch the pointer, and `mark` reads the mark: each is proved by hand.
//! Contracts name no pointer, but boxes taken out and kept.
ghost use Rattle.std.specs.Prelude.{◌≡◌, ◌≢◌, IfSome, IsNone, None, Some, is_some};
ghost use Rattle.history_handles.specs.declared.history.OpenHistory.{OpenHistory};
ghost use Rattle.history_handles.specs.contracts.history.OpenHistory.{the_row};

use crate::history::OpenHistory;
use std::alloc::Global;
use std::marker::Model;

/// Where a history is: all that C may know.
#[repr(C)]
#[derive(Drop)]
pub struct Opaque {
    hidden: u8,
}

/// A history that C holds. All zeros are a closed handle.
#[repr(C)]
#[derive(Drop)]
pub struct HistoryHandle {
    /// 0 if closed.
    pub open: u32,
    at: *mut Opaque,
    /// The history, while open.
    pub ghost history: { OpenHistory } by { the_row.coded },
}

impl Model for HistoryHandle {
    ghost use Rattle.history_handles.specs.Blocks.{block_token};
    ghost use Rattle.std.specs.Box.Ownership.{box_owns};
    ghost use Rattle.std.specs.Vec.Ownership.{owns_if};
    ghost use Rattle.history_handles.specs.contracts.history.OpenHistory.{the_row};
    ghost use Rattle.history_handles.specs.Mark.{nonzero};

    ghost also_owns = { λ h. owns_if (nonzero h.open) (box_owns block_token the_row h.at h.history) };
}

impl HistoryHandle {
    ghost use Rattle.history_handles.specs.Behind.{behind};

    pub(crate) fn take(&mut self, alloc: Global) -> Option<Box<OpenHistory, Global>>
        ensures history { IfSome result (λ b. behind self.old ≡ Some b.value) }
        ensures closed { IsNone result → behind self.old ≡ None }
        ensures after { behind self.new ≡ None }
    {
        if self.mark() == 0 {
            None
        } else {
            Some(self.taken(alloc))
        }
    }

    pub(crate) fn is_open(&mut self) -> bool
        ensures open { result ≡ is_some (behind self.old) }
        ensures same { behind self.new ≡ behind self.old }
    {
        self.mark() != 0
    }

    fn mark(&mut self) -> u32
        ensures { (result ≡ self.old.open) × (self.new ≡ self.old) }
    {
        self.open
    }

    fn taken(&mut self, alloc: Global) -> Box<OpenHistory, Global>
        requires { self.old.open ≢ 0 }
        ensures { (result.value ≡ self.old.history) × (self.new.open ≡ 0) }
    {
        self.open = 0;
        unsafe { Box::from_raw(alloc, self.at as *mut OpenHistory) }
    }

    pub(crate) fn keep(&mut self, history: Box<OpenHistory, Global>)
        requires closed { behind self.old ≡ None }
        ensures { behind self.new ≡ Some history.value }
    {
        self.at = Box::into_raw(history) as *mut Opaque;
        self.open = 1;
    }
}
