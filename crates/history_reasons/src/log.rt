//! Stores and open loads of a history, kept to say why a byte is wrong.

ghost use Rattle.std.specs.Prelude.{◌≡◌, ◌*◌, ◌≤◌, ◌<◌, ◌↔◌, true, false, None, vec_len, drop, IfOk, OnOk, IfSome, length};
ghost use Rattle.std.specs.List.{find};
ghost use Rattle.std.specs.Option.{option_map};
ghost use Rattle.memory_histories.specs.declared.events.HistoryEvent.TheVariants.{StoreRequest, StoreResponse};
ghost use Rattle.memory_histories.specs.Windows.{Windows, opening, windows_after, is_at};
ghost use Rattle.memory_histories.specs.Regular.{MayReturn, is_inside};
ghost use Rattle.history_reasons.specs.Log.{IsLogOf, is_within, HasRoom, IsNoted, IsCounted, IsShortened, forgotten, has_all, of_store};
ghost use Rattle.history_reasons.specs.Log.{part_reason, kept_reason, told_reason, IsTrueOf, idle, kept_sources, told_sources};
ghost use Rattle.history_reasons.specs.Log.{kept_at_request, told_at_request};
ghost use Rattle.history_reasons.specs.Loads.{asks_for, byte_at};
ghost use Rattle.history_reasons.specs.Open.{HasSameOpen, HasOpenAfter};
ghost use Rattle.history_reasons.specs.Stores.{stored_there};

use crate::Reason;
use crate::givers::{Source, add_givers, at_request, sources};
use crate::loads::{OpenLoad, end_load, load_at};
use crate::places::{StorePlace, end_at, end_place, move_down};
use crate::stores::{KeptStore, cut, enabled_count, gone_stores, kept_store, push_store};
use crate::there::{reason_there, stored_there};
use memory_histories::{HistoryEvent, LoadByte, Rest, is_inside};
use std::alloc::{AllocError, Global};

/// So many bytes of stores are forgotten at a time, once there are twice as many.
pub const KEPT_BYTES: usize = 4096;

/// A history's stores and open loads, with the events that requested and answered them, counted
/// from 0. Fewer than twice [`KEPT_BYTES`] bytes of stores are kept.
#[derive(Drop)]
pub struct StoreLog {
    image: Vec<u8>,
    rest: Rest,
    moment: u64,
    stores: Vec<KeptStore>,
    byte_count: usize,
    pub(crate) places: Vec<StorePlace>,
    pub(crate) loads: Vec<OpenLoad>,
    is_whole: bool,
}

impl StoreLog {
    /// A log without an event. Memory begins with this image, and as `rest` says beyond it.
    /// `AllocError`: too little memory.
    #[tactic(auto, using(crate::proofs::Logs::opened))]
    pub fn new(alloc: Global, image: &[u8], rest: Rest) -> Result<StoreLog, AllocError>
        ensures { IfOk result (λ g. IsLogOf g (opening image.now rest)) }
    {
        let image = Vec::from_slice(alloc, image)?;
        Ok(StoreLog {
            image,
            rest,
            moment: 0,
            stores: Vec::new(alloc),
            byte_count: 0,
            places: Vec::new(alloc),
            loads: Vec::new(alloc),
            is_whole: true,
        })
    }

    /// Makes room for one event. `AllocError`: too little memory.
    #[tactic(auto, using(crate::proofs::Logs::same_log, crate::proofs::OpenLemmas::same_open))]
    pub fn make_room(&mut self) -> Result<(), AllocError>
        ensures same { (w : Windows) → IsLogOf self.old w → IsLogOf self.new w }
        ensures open { HasSameOpen self.old self.new }
        ensures room { OnOk result (HasRoom self.new) }
    {
        self.stores.reserve(1)?;
        self.places.reserve(1)?;
        self.loads.reserve(1)
    }

    /// Notes an event, of fewer than 2^64. One outside memory is only counted.
    #[inline(always)]
    pub fn note(&mut self, event: HistoryEvent)
        requires room { HasRoom self.old }
        ensures within { (w : Windows)
            → w.moment < 18446744073709551615
            → is_within event.entry ≡ true
            → IsLogOf self.old w
            → IsLogOf self.new (windows_after w event.entry) }
        ensures beyond { (w : Windows)
            → w.moment < 18446744073709551615
            → is_within event.entry ≡ false
            → IsLogOf self.old w
            → IsLogOf self.new (idle w) }
        ensures open { is_within event.entry ≡ true → HasOpenAfter self.old event.entry self.new }
        ensures still_open { is_within event.entry ≡ false → HasSameOpen self.old self.new }
    {
        self.note_bytes(event);
        self.forget();
        self.count()
    }

    /// Counts a moment without an event: so a log may number lines of a text.
    #[tactic(auto, using(crate::proofs::Logs::idled, crate::proofs::OpenLemmas::same_open))]
    pub fn pass(&mut self)
        ensures counted { (w : Windows)
            → w.moment < 18446744073709551615
            → IsLogOf self.old w
            → IsLogOf self.new (idle w) }
        ensures open { HasSameOpen self.old self.new }
    {
        self.count();
    }

    // Forgets the first bytes of stores, if there are too many.
    #[inline(always)]
    fn forget(&mut self)
        ensures { IsShortened self.old self.new }
    {
        if self.byte_count >= 2 * KEPT_BYTES {
            self.forget_first();
        }
    }

    // Forgets the first bytes of stores.
    #[inline(never)]
    fn forget_first(&mut self)
        requires { 2 * KEPT_BYTES ≤ self.old.byte_count }
        ensures { IsShortened self.old self.new }
    {
        let count = forgotten(self.byte_count);
        let (stores, bytes) = gone_stores(self.stores.as_slice(), count);
        drop_first(&mut self.stores, stores);
        cut(self.stores.as_mut_slice(), bytes);
        move_down(self.places.as_mut_slice(), stores);
        self.byte_count -= count;
        self.is_whole = false;
    }

    fn count(&mut self)
        ensures { IsCounted self.old self.new }
    {
        self.moment = self.moment.saturating_add(1);
    }

    #[inline(always)]
    fn note_bytes(&mut self, event: HistoryEvent)
        requires room { HasRoom self.old }
        ensures within { is_within event.entry ≡ true → IsNoted self.old event.entry self.new }
        ensures beyond { is_within event.entry ≡ false → self.new ≡ self.old }
    {
        if is_within(event) {
            self.note_within(event);
        }
    }

    #[inline(always)]
    fn note_within(&mut self, event: HistoryEvent)
        requires room { HasRoom self.old }
        requires inside { is_within event ≡ true }
        ensures { IsNoted self.old event.entry self.new }
    {
        match event {
            HistoryEvent::LoadRequest {
                number,
                address,
                length,
                enables,
            } => self.loads.push_reserved(OpenLoad {
                number,
                address,
                length,
                enables,
                began: self.moment,
            }),
            HistoryEvent::LoadResponse { number, bytes: _ } => end_load(&mut self.loads, number),
            HistoryEvent::StoreRequest {
                number,
                address,
                bytes,
                enables,
            } => self.note_store(number, address, bytes, enables),
            HistoryEvent::StoreResponse { number } => self.note_answer(number),
        }
    }

    fn note_store(&mut self, number: u64, address: u64, bytes: &[u8], enables: u64)
        requires room { HasRoom self.old }
        requires inside { is_inside address (length bytes.now) ≡ true }
        ensures { IsNoted self.old (StoreRequest number address bytes.entry enables) self.new }
    {
        let first = self.stores.len();
        let most = bytes.len();
        self.places.push_reserved(StorePlace {
            number,
            address,
            first,
            most,
        });
        let count = enabled_count(most, enables);
        let store = kept_store(number, address, bytes, enables, self.moment);
        push_store(&mut self.stores, store, count);
        self.byte_count = self.byte_count.saturating_add(count);
    }

    fn note_answer(&mut self, number: u64)
        ensures { IsNoted self.old (StoreResponse number) self.new }
    {
        let places = self.places.as_slice();
        end_at(self.stores.as_mut_slice(), places, number, self.moment);
        end_place(&mut self.places, number);
    }

    /// Whether no store was forgotten.
    pub fn is_whole(&self) -> bool
        ensures { (w : Windows) → IsLogOf self.now w → result ≡ has_all w.stores }
    {
        self.is_whole
    }

    /// The byte at an address of an open load, with its request.
    pub fn load_at(&self, number: u64, address: u64) -> Option<LoadByte>
        ensures { (w : Windows)
            → IsLogOf self.now w
            → result ≡ find (is_at number address) w.loads }
    {
        self.kept_load(number, address)
    }

    fn kept_load(&self, number: u64, address: u64) -> Option<LoadByte>
        ensures { result ≡ option_map (byte_at address) (find (asks_for number address) self.now.loads.items) }
    {
        load_at(self.loads.as_slice(), number, address)
    }

    /// Why a load may not return this byte now by the regular law, true over all stores of the
    /// history.
    ///
    /// If the log [is whole](StoreLog::is_whole), it is [`why`](crate::why)'s answer. If not, it is
    /// the [`Reason::StoreOverwritten`] of the stores that are left, else `None`: a forgotten store
    /// may allow the byte.
    pub fn why(&self, load: &LoadByte, byte: u8) -> Option<Reason>
        ensures told { (w : Windows) → IsLogOf self.now w → result ≡ told_reason w load.now byte }
        ensures reason { (w : Windows)
            → IsLogOf self.now w
            → IfSome result (IsTrueOf w load.now byte) }
        ensures whole { (w : Windows)
            → IsLogOf self.now w
            → has_all w.stores ≡ true
            → (result ≡ None) ↔ MayReturn w.image w.rest w.stores load.now byte }
    {
        self.kept_reason(load, byte)
    }

    /// Where a load may get this byte from now by the regular law.
    ///
    /// If the log [is whole](StoreLog::is_whole), these are all [`sources`](crate::sources). If
    /// not, they are those of the stores that are left: none if the byte is older.
    ///
    /// `AllocError`: too little memory.
    pub fn sources(
        &self,
        alloc: Global,
        load: &LoadByte,
        byte: u8,
    ) -> Result<Vec<Source>, AllocError>
        ensures told { (w : Windows)
            → IsLogOf self.now w
            → IfOk result (λ v. v.items ≡ told_sources w load.now byte) }
        ensures whole { (w : Windows)
            → IsLogOf self.now w
            → has_all w.stores ≡ true
            → IfOk result (λ v. (0 < length v.items) ↔ MayReturn w.image w.rest w.stores load.now byte) }
    {
        self.kept_sources(alloc, load, byte)
    }

    /// The same by the flat law: the last store to the byte that was requested before the load, if it wrote it, or
    /// memory before the first.
    pub fn sources_at_request(
        &self,
        alloc: Global,
        load: &LoadByte,
        byte: u8,
    ) -> Result<Vec<Source>, AllocError>
        ensures { (w : Windows)
            → IsLogOf self.now w
            → IfOk result (λ v. v.items ≡ told_at_request w load.now byte) }
    {
        self.kept_at_request(alloc, load, byte)
    }

    fn kept_at_request(
        &self,
        alloc: Global,
        load: &LoadByte,
        byte: u8,
    ) -> Result<Vec<Source>, AllocError>
        ensures { IfOk result (λ v. v.items ≡ kept_at_request self.now load.now byte) }
    {
        let there = stored_there(alloc, self.stores.as_slice(), load.address)?;
        let stores = at_request(alloc, there.as_slice(), load)?;
        if self.is_whole {
            let image = self.image.as_slice();
            return sources(alloc, image, self.rest, stores.as_slice(), load, byte);
        }
        let mut found = Vec::new(alloc);
        add_givers(&mut found, stores.as_slice(), load, byte)?;
        Ok(found)
    }

    fn kept_sources(
        &self,
        alloc: Global,
        load: &LoadByte,
        byte: u8,
    ) -> Result<Vec<Source>, AllocError>
        ensures { IfOk result (λ v. v.items ≡ kept_sources self.now load.now byte) }
    {
        let stores = stored_there(alloc, self.stores.as_slice(), load.address)?;
        if self.is_whole {
            let image = self.image.as_slice();
            return sources(alloc, image, self.rest, stores.as_slice(), load, byte);
        }
        let mut found = Vec::new(alloc);
        add_givers(&mut found, stores.as_slice(), load, byte)?;
        Ok(found)
    }

    fn kept_reason(&self, load: &LoadByte, byte: u8) -> Option<Reason>
        ensures { result ≡ kept_reason self.now load.now byte }
    {
        if self.is_whole {
            let image = self.image.as_slice();
            reason_there(image, self.rest, self.stores.as_slice(), load, byte)
        } else {
            part_reason(self.stores.as_slice(), load, byte)
        }
    }
}

// A reason by the stores that are left.
fn part_reason(stores: &[KeptStore], load: &LoadByte, byte: u8) -> Option<Reason>
    ensures { result ≡ part_reason (stored_there load.now.address stores.now) load.now byte }
{
    of_store(reason_there(&[], Rest::Unknown, stores, load, byte))
}

// A reason that names who stored the byte.
fn of_store(reason: Option<Reason>) -> Option<Reason>
    ensures { result ≡ of_store reason }
{
    match reason {
        Some(Reason::StoreOverwritten { stored, by }) => {
            Some(Reason::StoreOverwritten { stored, by })
        }
        _ => None,
    }
}

// How many of so many bytes are forgotten.
fn forgotten(length: usize) -> usize
    ensures { result ≡ forgotten length }
{
    KEPT_BYTES * (length / KEPT_BYTES).saturating_sub(1)
}

// Moved at once; `drain` would turn the list round three times.
#[tactic(auto, using(crate::proofs::Found::copied_down))]
fn drop_first(stores: &mut Vec<KeptStore>, count: usize)
    requires { count ≤ vec_len stores.old }
    ensures { stores.new.items ≡ drop count stores.old.items }
{
    let left = stores.len() - count;
    stores.copy_within(count.., 0);
    stores.truncate(left);
}

#[inline(always)]
fn is_within(event: HistoryEvent) -> bool
    ensures { result ≡ is_within event.entry }
{
    match event {
        HistoryEvent::LoadRequest {
            number: _,
            address,
            length,
            enables: _,
        } => is_inside(address, length),
        HistoryEvent::StoreRequest {
            number: _,
            address,
            bytes,
            enables: _,
        } => is_inside(address, bytes.len()),
        HistoryEvent::LoadResponse {
            number: _,
            bytes: _,
        } => true,
        HistoryEvent::StoreResponse { number: _ } => true,
    }
}
