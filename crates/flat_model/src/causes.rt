//! The causes of refusal as one table.

ghost use Rattle.std.specs.Prelude.{◌≡◌};
ghost use Rattle.flat_model.specs.Causes as table;

use crate::{Cause, Event};

impl Cause {
    /// As `tag in use`.
    pub fn name(self) -> &'static str
        ensures { result.now ≡ table.cause_name self }
    {
        match self {
            Cause::OutOfRange => "out of range",
            Cause::NoLanes => "no lanes",
            Cause::TagInUse => "tag in use",
            Cause::RepliesFull => "replies full",
            Cause::TargetsFull => "targets full",
            Cause::BlockQueued => "block queued",
            Cause::NoRegister => "no register",
            Cause::SetPending => "set pending",
            Cause::QueueFull => "queue full",
            Cause::BankFull => "bank full",
            Cause::NotPresent => "not present",
            Cause::StackFull => "stack full",
            Cause::StrayWord => "stray word",
        }
    }

    /// As `all registers are in use`.
    pub fn words(self) -> &'static str
        ensures { result.now ≡ table.cause_words self }
    {
        match self {
            Cause::OutOfRange => "it is outside memory",
            Cause::NoLanes => "the store names no byte",
            Cause::TagInUse => "the tag is owed a value that wasn't taken yet",
            Cause::RepliesFull => "the limit of outstanding loads is reached",
            Cause::TargetsFull => "four loads wait for the word already",
            Cause::BlockQueued => "the block waits to be written",
            Cause::NoRegister => "all registers are in use",
            Cause::SetPending => "every way of the set waits for words",
            Cause::QueueFull => "the write queue has too few places for the dirty words",
            Cause::BankFull => "a bank has too little room for the commands",
            Cause::NotPresent => "no frame holds the block",
            Cause::StackFull => "the input stack is full",
            Cause::StrayWord => "no register waits for the word",
        }
    }

    /// Whether the request has ended: no move makes room for it.
    pub fn ends_request(self) -> bool
        ensures { result ≡ table.ends_request self }
    {
        matches!(self, Cause::OutOfRange | Cause::NoLanes | Cause::NotPresent)
    }

    /// Whether to ask again: moves make room. The last two causes, which refuse no request, neither
    /// pass nor end one.
    pub fn passes(self) -> bool
        ensures { result ≡ table.passes self }
    {
        matches!(self, Cause::TagInUse) || self.is_of_a_load()
    }

    /// Whether it may ever refuse events of this kind.
    pub fn may_refuse(self, event: Event) -> bool
        ensures { result ≡ table.may_refuse event self }
    {
        match event {
            Event::Load { .. } => {
                matches!(self, Cause::OutOfRange | Cause::TagInUse) || self.is_of_a_load()
            }
            Event::Store { .. } => {
                matches!(self, Cause::OutOfRange | Cause::NoLanes) || self.is_of_a_miss()
            }
            Event::Prefetch { .. } => matches!(self, Cause::OutOfRange) || self.is_of_a_miss(),
            Event::Evict { .. } => matches!(
                self,
                Cause::OutOfRange | Cause::QueueFull | Cause::NotPresent
            ),
            Event::Drain => matches!(self, Cause::BankFull),
            Event::Arrive { .. } => matches!(self, Cause::StackFull),
            Event::Serve { .. } | Event::Process { .. } | Event::Take { .. } => false,
        }
    }

    pub(crate) fn is_of_a_miss(self) -> bool
        ensures { result ≡ table.is_of_a_miss self }
    {
        matches!(
            self,
            Cause::BlockQueued
                | Cause::NoRegister
                | Cause::SetPending
                | Cause::QueueFull
                | Cause::BankFull
        )
    }

    pub(crate) fn is_of_a_load(self) -> bool
        ensures { result ≡ table.is_of_a_load self }
    {
        matches!(self, Cause::RepliesFull | Cause::TargetsFull) || self.is_of_a_miss()
    }
}
