//! A history, its open operations and its stores.
ghost use Rattle.std.specs.Prelude.{◌≡◌, ◌<◌, true, None, Some, IfOk, IfErr, OnOk, OnErr, length, slice_get};
ghost use Rattle.std.specs.Option.{option_map};
ghost use Rattle.memory_histories.specs.Windows.{Windows};
ghost use Rattle.history_reasons.specs.Log.{HasRoom};
ghost use Rattle.history_reasons.specs.Open.{operation_under};
ghost use Rattle.history_sessions.specs.Events.{plain};
ghost use Rattle.history_sessions.specs.History.{Passes, has_units};
ghost use Rattle.history_sessions.specs.Session.{Session, session_opening, session_after, session_passing, session_refusing};
ghost use Rattle.history_sessions.specs.Session.{session_forgetting};
ghost use Rattle.history_sessions.specs.Kept.{JudgeFaultIs, IsFound, IsSetFound, IsAllowed, ForgetFaultIs, IsKept};
ghost use Rattle.history_sessions.specs.Choices.{coverage_of, IsChoiceIfCounted, IsCounted, counted_if, HasRoomToCount};
ghost use Rattle.history_sessions.specs.Coverage.{nothing_covered, shown};
ghost use Rattle.history_sessions.specs.Reasons.{unit_bytes, is_atomic, is_flat, reason_for, sources_for, is_together};

use crate::coverage::{Counts, Coverage};
use crate::faults::{ForgetFault, JudgeFault};
use crate::judge::{HistoryLaw, Judge};
use history_reasons::{FoundReason, OpenOperation, Source, StoreLog};
use memory_histories::{ByteSet, HistoryEvent, Rest};
use std::alloc::{AllocError, Global};

/// A history that is judged as it goes. Moments are its events, and what [`pass`](Self::pass) counts.
#[derive(Drop)]
pub struct HistorySession {
    pub(crate) law: HistoryLaw,
    pub(crate) judge: Judge,
    pub(crate) undecided: Option<u64>,
    /// Stores as they were seen, and open operations.
    pub(crate) log: StoreLog,
    pub(crate) coverage: Option<Coverage>,
}

impl HistorySession {
    /// No event yet. Memory begins with the image from address 0 on, and beyond it as `rest` says.
    /// `AllocError`: too little memory.
    pub fn new(
        alloc: Global,
        law: HistoryLaw,
        image: &[u8],
        rest: Rest,
    ) -> Result<HistorySession, AllocError>
        ensures kept { IfOk result (λ m. IsKept m (session_opening law image.now rest)) }
        ensures uncovered { IfOk result (λ m. coverage_of m ≡ None) }
    {
        let judge = Judge::new(alloc, law, image, rest)?;
        let log = StoreLog::new(alloc, image, rest)?;
        Ok(HistorySession {
            law,
            judge,
            undecided: None,
            log,
            coverage: None,
        })
    }

    /// Takes the next event. A fault changes nothing but what [`undecided`](Self::undecided) says.
    #[inline(always)]
    pub fn step(&mut self, event: HistoryEvent) -> Result<(), JudgeFault>
        ensures ok { (s : Session)
            → IsKept self.old s
            → OnOk result (Passes s.history (plain event.entry) × IsKept self.new (session_after s (plain event.entry))) }
        ensures fault { (s : Session)
            → IsKept self.old s
            → IfErr result (JudgeFaultIs self.old.judge s.history (plain event.entry)) }
        ensures left { (s : Session)
            → IsKept self.old s
            → IfErr result (λ fault. IsKept self.new (session_refusing s fault)) }
        ensures counted { (s : Session)
            → IsKept self.old s
            → OnOk result (IsCounted self.old.judge s.history event.entry (coverage_of self.old) (coverage_of self.new)) }
        ensures uncounted { OnErr result (coverage_of self.new ≡ coverage_of self.old) }
    {
        match self.taken(event) {
            Ok(()) => Ok(()),
            Err(fault) => {
                self.note(fault);
                Err(fault)
            }
        }
    }

    #[inline(always)]
    fn taken(&mut self, event: HistoryEvent) -> Result<(), JudgeFault>
        ensures ok { (s : Session)
            → IsKept self.old s
            → OnOk result (Passes s.history (plain event.entry) × IsKept self.new (session_after s (plain event.entry))) }
        ensures fault { (s : Session)
            → IsKept self.old s
            → IfErr result (JudgeFaultIs self.old.judge s.history (plain event.entry)) }
        ensures unchanged { (s : Session) → IsKept self.old s → OnErr result (IsKept self.new s) }
        ensures counted { (s : Session)
            → IsKept self.old s
            → OnOk result (IsCounted self.old.judge s.history event.entry (coverage_of self.old) (coverage_of self.new)) }
        ensures uncounted { OnErr result (coverage_of self.new ≡ coverage_of self.old) }
    {
        if self.make_room().is_err() {
            return Err(self.fault_without_room(event));
        }
        let had_choice = self.is_choice(event);
        self.judge.step(event)?;
        self.log.note(event);
        count(&mut self.coverage, event, had_choice);
        self.undecided = None;
        Ok(())
    }

    fn make_room(&mut self) -> Result<(), AllocError>
        ensures same { (s : Session) → IsKept self.old s → IsKept self.new s }
        ensures judge { self.new.judge ≡ self.old.judge }
        ensures log { OnOk result (HasRoom self.new.log) }
        ensures counts { coverage_of self.new ≡ coverage_of self.old }
        ensures coverage { OnOk result (HasRoomToCount self.new.coverage) }
    {
        self.log.make_room()?;
        make_room_to_count(&mut self.coverage)
    }

    #[inline(always)]
    fn is_choice(&self, event: HistoryEvent) -> bool
        ensures { (s : Session)
            → IsKept self.now s
            → IsChoiceIfCounted self.now.judge s.history (coverage_of self.now) event.entry result }
    {
        match &self.coverage {
            Some(coverage) => self.judge.is_choice(coverage, event),
            None => false,
        }
    }

    /// Counts each answer of what is requested from here on ([`coverage`](Self::coverage)); if it
    /// counted already, anew. A load's answer then takes longer, by the atomic law by a search for
    /// each byte.
    pub fn cover(&mut self, alloc: Global)
        ensures same { (s : Session) → IsKept self.old s → IsKept self.new s }
        ensures counts { coverage_of self.new ≡ Some nothing_covered }
    {
        self.coverage = Some(Coverage::new(alloc));
    }

    /// What was counted. `None`: nothing is.
    pub fn coverage(&self) -> Option<Counts>
        ensures { result ≡ option_map (λ c. c.counts) (coverage_of self.now) }
    {
        match &self.coverage {
            Some(coverage) => Some(coverage.counts()),
            None => None,
        }
    }

    /// Counts a moment without an event.
    pub fn pass(&mut self)
        ensures kept { (s : Session)
            → IsKept self.old s
            → IsKept self.new (session_passing s) }
        ensures counts { coverage_of self.new ≡ coverage_of self.old }
    {
        self.log.pass();
    }

    /// The unit that left an answer undecided, until an event is taken or a unit forgotten.
    pub fn undecided(&self) -> Option<u64>
        ensures { (s : Session) → IsKept self.now s → result ≡ s.undecided }
    {
        self.undecided
    }

    /// How many loads are open.
    pub fn open_load_count(&self) -> usize
        ensures { (s : Session) → IsKept self.now s → result ≡ length s.loads }
    {
        self.log.open_load_count()
    }

    /// How many stores are open.
    pub fn open_store_count(&self) -> usize
        ensures { (s : Session) → IsKept self.now s → result ≡ length s.stores }
    {
        self.log.open_store_count()
    }

    /// The open load at this place, in the order of requests.
    pub fn open_load(&self, place: usize) -> Option<OpenOperation>
        ensures { (s : Session) → IsKept self.now s → result ≡ slice_get s.loads place }
    {
        self.log.open_load(place)
    }

    /// The open store at this place.
    pub fn open_store(&self, place: usize) -> Option<OpenOperation>
        ensures { (s : Session) → IsKept self.now s → result ≡ slice_get s.stores place }
    {
        self.log.open_store(place)
    }

    /// The load open under this number.
    pub fn load_under(&self, number: u64) -> Option<OpenOperation>
        ensures { (s : Session) → IsKept self.now s → result ≡ operation_under number s.loads }
    {
        self.log.load_under(number)
    }

    /// Of an answer to an open load, the first byte with a reason, from this place on within its
    /// unit.
    pub fn reason(&self, number: u64, bytes: &[u8], place: usize) -> Option<FoundReason>
        ensures { (s : Session)
            → IsKept self.now s
            → s.seen.moment < 18446744073709551616
            → result ≡ reason_for s number bytes.now place }
    {
        let load = self.load_under(number)?;
        self.log
            .unit_reason(unit_bytes(self.law), number, load.address, bytes, place)
    }

    /// Whether bytes of a unit without a reason are wrong together alone.
    pub fn is_together(&self) -> bool
        ensures { (s : Session)
            → IsKept self.now s
            → s.seen.moment < 18446744073709551616
            → result ≡ is_together s }
    {
        is_atomic(self.law) && self.log.is_whole()
    }

    /// Where an open load may get this byte from, at an address. `AllocError`: too little memory.
    pub fn sources(
        &self,
        alloc: Global,
        number: u64,
        address: u64,
        byte: u8,
    ) -> Result<Vec<Source>, AllocError>
        ensures { IfOk result (λ sources. (s : Session)
            → IsKept self.now s
            → s.seen.moment < 18446744073709551616
            → sources.items ≡ sources_for s number address byte) }
    {
        match self.log.load_at(number, address) {
            None => Ok(Vec::new(alloc)),
            Some(load) if is_flat(self.law) => self.log.sources_at_request(alloc, &load, byte),
            Some(load) => self.log.sources(alloc, &load, byte),
        }
    }

    #[tactic(auto, using(crate::proofs::Found::not_taken, crate::proofs::Found::no_room))]
    fn fault_without_room(&self, event: HistoryEvent) -> JudgeFault
        ensures { (s : Session)
            → IsKept self.now s
            → JudgeFaultIs self.now.judge s.history (plain event.entry) result }
    {
        match self.fault(event) {
            Some(fault) => fault,
            None => JudgeFault::OutOfMemory,
        }
    }

    fn note(&mut self, fault: JudgeFault)
        ensures left { (s : Session)
            → IsKept self.old s
            → IsKept self.new (session_refusing s fault) }
        ensures counts { coverage_of self.new ≡ coverage_of self.old }
    {
        if let JudgeFault::Undecided { address } = fault {
            self.undecided = Some(address);
        }
    }

    /// What [`step`](Self::step) would say of an event, were there room. `None`: it would take it.
    pub fn fault(&self, event: HistoryEvent) -> Option<JudgeFault>
        ensures { (s : Session)
            → IsKept self.now s
            → IsFound self.now.judge s.history (plain event.entry) result }
    {
        self.judge.fault(event)
    }

    /// What an open load may return for the byte at an address, with some others. `None`: no such
    /// load. A fault comes by the atomic law alone.
    pub fn may_return(&self, number: u64, address: u64) -> Result<Option<ByteSet>, JudgeFault>
        ensures { (s : Session)
            → IsKept self.now s
            → IsSetFound self.now.judge s.history number address result }
    {
        self.judge.may_return(number, address)
    }

    /// What an open load may return for the byte at an address, whatever its others are. `None`: no
    /// such load, or by the atomic law.
    pub fn allowed(&self, number: u64, address: u64) -> Option<ByteSet>
        ensures { (s : Session) → IsKept self.now s → IsAllowed s.history number address result }
    {
        self.judge.allowed(number, address)
    }

    /// Forgets the atomic law's unit at an address: loads may then return anything from its bytes.
    /// A fault changes nothing.
    pub fn forget(&mut self, address: u64) -> Result<(), ForgetFault>
        ensures ok { (s : Session)
            → IsKept self.old s
            → OnOk result ((has_units s.history ≡ true) × IsKept self.new (session_forgetting address s)) }
        ensures fault { (s : Session) → IsKept self.old s → IfErr result (ForgetFaultIs s.history) }
        ensures unchanged { (s : Session) → IsKept self.old s → OnErr result (IsKept self.new s) }
        ensures counts { coverage_of self.new ≡ coverage_of self.old }
    {
        self.judge.forget(address)?;
        self.undecided = None;
        Ok(())
    }
}

#[inline(always)]
fn make_room_to_count(coverage: &mut Option<Coverage>) -> Result<(), AllocError>
    ensures same { option_map shown coverage.new ≡ option_map shown coverage.old }
    ensures room { OnOk result (HasRoomToCount coverage.new) }
{
    match coverage {
        Some(coverage) => coverage.make_room(),
        None => Ok(()),
    }
}

// An event was taken.
#[inline(always)]
fn count(coverage: &mut Option<Coverage>, event: HistoryEvent, had_choice: bool)
    requires room { HasRoomToCount coverage.old }
    ensures { option_map shown coverage.new ≡ counted_if had_choice event.entry (option_map shown coverage.old) }
{
    if let Some(coverage) = coverage {
        coverage.note(event, had_choice);
    }
}

fn unit_bytes(law: HistoryLaw) -> u64
    ensures bytes { result ≡ unit_bytes law }
    ensures some { 0 < result }
{
    match law {
        HistoryLaw::Regular | HistoryLaw::Flat => 1,
        HistoryLaw::Atomic { unit, .. } => unit.bytes(),
    }
}

fn is_atomic(law: HistoryLaw) -> bool
    ensures { result ≡ is_atomic law }
{
    matches!(law, HistoryLaw::Atomic { .. })
}

fn is_flat(law: HistoryLaw) -> bool
    ensures { result ≡ is_flat law }
{
    matches!(law, HistoryLaw::Flat)
}
