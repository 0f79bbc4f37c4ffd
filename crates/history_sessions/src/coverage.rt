//! Counts of what a history has had.
ghost use Rattle.std.specs.Prelude.{◌≡◌, ◌<◌, vec_len, map, false, Some, IfSome, OnOk};
ghost use Rattle.std.specs.List.{list_any, find, position};
ghost use Rattle.history_sessions.specs.Coverage.{mask_of, do_meet, has_common, are_beside, noted_if, noted_beside, requested, more_if};
ghost use Rattle.history_sessions.specs.Coverage.{counted, is_under, answered_from, answered_at, answered, shown, nothing_covered};
ghost use Rattle.history_sessions.specs.Coverage.{watched, covered_after, HasRoom};

use memory_histories::HistoryEvent;
use std::alloc::{AllocError, Global};

/// How often a history had what a memory is apt to get wrong. A count stays at 2^64 - 1.
#[derive(Clone, Copy, PartialEq, Eq, Debug)]
pub struct Counts {
    /// Answered loads.
    pub loads: u64,
    /// Those of them of which some byte might have been another.
    pub choices: u64,
    /// Those of them that were open at once with a store to one of their bytes.
    pub beside_store: u64,
    /// Loads and stores answered before an older operation with a byte in common.
    pub overtaking: u64,
}

/// An open operation. Bit `k` of `bytes` is the byte at `address + k`.
#[derive(Clone, Copy)]
pub struct WatchedOperation {
    pub(crate) is_store: bool,
    pub(crate) number: u64,
    pub(crate) address: u64,
    pub(crate) bytes: u64,
    /// Whether a store was open at once with a load, at a byte of both.
    pub(crate) is_beside: bool,
}

/// Counts so far, and what is open.
#[derive(Drop)]
pub struct Coverage {
    pub(crate) counts: Counts,
    pub(crate) open_operations: Vec<WatchedOperation>,
}

// So many bytes of these enables as a mask.
fn mask_of(length: usize, enables: u64) -> u64
    ensures { result ≡ mask_of length enables }
{
    if length < 64 {
        enables % (1 << length)
    } else {
        enables
    }
}

fn watched(is_store: bool, number: u64, address: u64, bytes: u64) -> WatchedOperation
    ensures { result ≡ watched is_store number address bytes }
{
    WatchedOperation {
        is_store,
        number,
        address,
        bytes,
        is_beside: false,
    }
}

// Whether two masks have a bit in common, the second one so many bytes behind the first.
fn do_meet(apart: u64, first: u64, second: u64) -> bool
    ensures { result ≡ do_meet apart first second }
{
    apart < 64 && (first >> apart) & second != 0
}

fn has_common(operation: &WatchedOperation, other: &WatchedOperation) -> bool
    ensures { result ≡ has_common operation.now other.now }
{
    if operation.address <= other.address {
        do_meet(
            other.address - operation.address,
            operation.bytes,
            other.bytes,
        )
    } else {
        do_meet(
            operation.address - other.address,
            other.bytes,
            operation.bytes,
        )
    }
}

fn are_beside(operation: &WatchedOperation, other: &WatchedOperation) -> bool
    ensures { result ≡ are_beside operation.now other.now }
{
    operation.is_store != other.is_store && has_common(operation, other)
}

fn is_under(operation: &WatchedOperation, is_store: bool, number: u64) -> bool
    ensures { result ≡ is_under is_store number operation.now }
{
    operation.is_store == is_store && operation.number == number
}

fn noted_if(is_beside: bool, operation: WatchedOperation) -> WatchedOperation
    ensures { result ≡ noted_if is_beside operation }
{
    WatchedOperation {
        is_beside: operation.is_beside || is_beside,
        ..operation
    }
}

// A request is noted with those that are open.
fn note_beside(open: &mut [WatchedOperation], asked: &WatchedOperation)
    ensures { open.new ≡ map (noted_beside asked.now) open.old }
{
    for operation in open.iter_mut() {
        *operation = noted_if(are_beside(asked, operation), *operation);
    }
}

fn is_any_beside(open: &[WatchedOperation], asked: &WatchedOperation) -> bool
    ensures { result ≡ list_any (are_beside asked.now) open.now }
{
    open.iter().any(|operation| are_beside(asked, operation))
}

fn is_any_common(open: &[WatchedOperation], operation: &WatchedOperation) -> bool
    ensures { result ≡ list_any (has_common operation.now) open.now }
{
    open.iter().any(|other| has_common(operation, other))
}

fn more_if(is_one: bool, count: u64) -> u64
    ensures { result ≡ more_if is_one count }
{
    if is_one {
        count.saturating_add(1)
    } else {
        count
    }
}

fn counted(had_choice: bool, overtook: bool, operation: &WatchedOperation, counts: Counts) -> Counts
    ensures { result ≡ counted had_choice overtook operation.now counts }
{
    let is_load = !operation.is_store;
    Counts {
        loads: more_if(is_load, counts.loads),
        choices: more_if(is_load && had_choice, counts.choices),
        beside_store: more_if(is_load && operation.is_beside, counts.beside_store),
        overtaking: more_if(overtook, counts.overtaking),
    }
}

impl Coverage {
    pub(crate) fn new(alloc: Global) -> Coverage
        ensures { shown result ≡ nothing_covered }
    {
        Coverage {
            counts: Counts {
                loads: 0,
                choices: 0,
                beside_store: 0,
                overtaking: 0,
            },
            open_operations: Vec::new(alloc),
        }
    }

    // Room for one request.
    pub(crate) fn make_room(&mut self) -> Result<(), AllocError>
        ensures same { shown self.new ≡ shown self.old }
        ensures room { OnOk result (HasRoom self.new) }
    {
        self.open_operations.reserve(1)
    }

    // An event was taken.
    #[inline(never)]
    pub(crate) fn note(&mut self, event: HistoryEvent, had_choice: bool)
        requires room { HasRoom self.old }
        ensures { shown self.new ≡ covered_after had_choice (shown self.old) event.entry }
    {
        match event {
            HistoryEvent::LoadRequest {
                number,
                address,
                length,
                enables,
            } => self.request(watched(false, number, address, mask_of(length, enables))),
            HistoryEvent::LoadResponse { number, bytes: _ } => {
                self.answer(false, number, had_choice)
            }
            HistoryEvent::StoreRequest {
                number,
                address,
                bytes,
                enables,
            } => self.request(watched(true, number, address, mask_of(bytes.len(), enables))),
            HistoryEvent::StoreResponse { number } => self.answer(true, number, had_choice),
        }
    }

    fn request(&mut self, asked: WatchedOperation)
        requires room { HasRoom self.old }
        ensures { shown self.new ≡ requested asked (shown self.old) }
    {
        let is_beside = is_any_beside(self.open_operations.as_slice(), &asked);
        note_beside(self.open_operations.as_mut_slice(), &asked);
        self.open_operations
            .push_reserved(noted_if(is_beside, asked));
    }

    // The load, or the store, under a number is answered, if it is one that is counted.
    fn answer(&mut self, is_store: bool, number: u64, had_choice: bool)
        ensures { shown self.new ≡ answered is_store number had_choice (shown self.old) }
    {
        if let Some(place) = self.place_of(is_store, number) {
            self.answer_at(place, had_choice);
        }
    }

    fn place_of(&self, is_store: bool, number: u64) -> Option<usize>
        ensures place { result ≡ position (is_under is_store number) self.now.open_operations.items }
        ensures there { IfSome result (λ k. k < vec_len self.now.open_operations) }
    {
        self.open_operations
            .iter()
            .position(|operation| is_under(operation, is_store, number))
    }

    fn answer_at(&mut self, place: usize, had_choice: bool)
        requires { place < vec_len self.old.open_operations }
        ensures { shown self.new ≡ answered_at had_choice (Some place) (shown self.old) }
    {
        let operation = self.open_operations[place];
        let overtook = is_any_common(&self.open_operations[..place], &operation);
        self.counts = counted(had_choice, overtook, &operation, self.counts);
        self.open_operations.remove(place);
    }

    /// The load that is open under a number.
    pub(crate) fn load_under(&self, number: u64) -> Option<WatchedOperation>
        ensures { result ≡ find (is_under false number) (shown self.now).open_ }
    {
        self.open_operations
            .iter()
            .copied()
            .find(|operation| is_under(operation, false, number))
    }

    pub(crate) fn counts(&self) -> Counts
        ensures { result ≡ (shown self.now).counts }
    {
        self.counts
    }
}
