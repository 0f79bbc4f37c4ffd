//! A recorded run, explained line by line.

ghost use Rattle.std.specs.Prelude.{◌≡◌, ◌<◌, ◌≤◌, ◌+◌, ℕ, true, length, vec_len, vec_capacity, replicate, slice_set, Some, IfOk, IfErr};
ghost use Rattle.std.specs.Prelude.{OnOk, OnErr};
ghost use Rattle.std.specs.HashMap.{spare};
ghost use Rattle.flat_model.specs.Flat.{Flat, word_at, may_answer, flat_step};
ghost use Rattle.flat_model.specs.Memory as memory;
ghost use Rattle.flat_model.specs.Images.{memory_from};
ghost use Rattle.run_reasons.specs.Origins.{no_stores};

use crate::origins::{AcceptedLoad, Stores, TagUse};
use crate::pasts::Past;
use crate::reason::{Mismatch, Reason, WrongWord, is_ever, is_out_of_range, never, tag_reason};
use crate::tags::Tags;
use flat_model::{Answer, Event, FlatMemory, Image, Lanes, StepFault, Word, merge};
use std::alloc::{AllocError, Global};
use thiserror::Error;

/// Why a line wasn't read. The explainer is as it was.
#[derive(Clone, Copy, PartialEq, Eq, Debug, Error)]
pub enum ReadFault {
    /// Flat memory can't answer so.
    #[error("flat memory can't answer so at line {}", .0.line)]
    Mismatch(Mismatch),
    /// Too little memory for the words of a load or store.
    #[error("out of memory")]
    OutOfMemory,
}

impl From<AllocError> for ReadFault {
    ghost use Rattle.std.specs.Prelude.{◌≡◌};
    ghost use Rattle.run_reasons.specs.declared.explainer.ReadFault.TheVariants.{OutOfMemory};

    ghost from_gives = { λ e f. f ≡ OutOfMemory };

    fn from(_fault: AllocError) -> ReadFault {
        ReadFault::OutOfMemory
    }
}

/// Flat memory behind the lines so far, and where its bytes came from.
#[derive(Drop)]
pub struct Explainer {
    flat: FlatMemory,
    words: u32,
    stores: Vec<Stores>,
    tags: Tags,
    past: Past,
    ghost all_words: { length (memory.shown flat).mem ≡ words },
    ghost all_stores: { vec_len stores ≡ words },
    ghost all_counts: { vec_len tags.counts ≡ words },
}

fn no_stores(alloc: Global, words: u32) -> Result<Vec<Stores>, AllocError>
    ensures items { IfOk result (λ v. v.items ≡ replicate words no_stores) }
    ensures len { IfOk result (λ v. vec_len v ≡ words) }
{
    vec![in alloc; Stores::default(); words as usize]
}

#[tactic(auto, unfolding(crate::specs::Shown::shown))]
impl Explainer {
    ghost use Rattle.run_reasons.specs.Origins.{stores_at, stored_in, accepted_load, stores_after, tags_after, since_over, word_under};
    ghost use Rattle.run_reasons.specs.Origins.{past_over, origins_after, beginning};
    ghost use Rattle.run_reasons.specs.Pasts.{overwritten_in};
    ghost use Rattle.run_reasons.specs.Reasons.{reason_of, reason_here, place_reason, value_reason};
    ghost use Rattle.run_reasons.specs.Shown.{shown, more_overwritten, more_left, ReadFaultIs};

    /// An image's first words, before any line. `AllocError`: too little memory.
    pub fn new(alloc: Global, image: &Image, words: u32) -> Result<Explainer, AllocError>
        ensures { IfOk result (λ e. shown e ≡ beginning (memory_from image.now words)) }
    {
        let flat = image.flat_memory(alloc, words)?;
        let stores = no_stores(alloc, words)?;
        let tags = Tags::new(alloc, words)?;
        let past = Past::new(alloc);
        Ok(Explainer {
            flat,
            words,
            stores,
            tags,
            past,
        })
    }

    /// Reads an event and its answer. The caller passes over lines that only show something, but
    /// counts them. Only an accepted load or store takes memory.
    pub fn read(&mut self, line: u64, event: Event, answer: Answer) -> Result<(), ReadFault>
        ensures flat { OnOk result
            (flat_step (shown self.old).flat event answer ≡ Some (shown self.new).flat) }
        ensures ok { OnOk result
            (shown self.new ≡ origins_after (shown self.old) line event answer) }
        ensures fault { IfErr result (ReadFaultIs (shown self.old) line event answer) }
        ensures unchanged { OnErr result (shown self.new ≡ shown self.old) }
    {
        self.make_room(event, answer)?;
        let old = self.word_under(event);
        match self.flat.step(event, answer) {
            Ok(()) => {
                self.note(line, event, answer, old);
                Ok(())
            }
            Err(StepFault::OutOfMemory) => Err(ReadFault::OutOfMemory),
            Err(StepFault::Mismatch) => Err(ReadFault::Mismatch(Mismatch {
                line,
                event,
                answer,
                reason: self.reason(event, answer),
            })),
        }
    }

    fn make_room(&mut self, event: Event, answer: Answer) -> Result<(), AllocError>
        ensures same { shown self.new ≡ shown self.old }
        ensures room { OnOk result (more_overwritten event answer ≤ spare self.new.past.values) }
        ensures left { OnOk result (vec_len self.new.tags.left + more_left event answer ≤ vec_capacity self.new.tags.left) }
        ensures needed { OnErr result (more_overwritten event answer ≡ 4) }
    {
        match (event, answer) {
            (Event::Store { .. }, Answer::Accepted) => {
                self.past.make_room()?;
                self.tags.make_room()
            }
            _ => Ok(()),
        }
    }

    fn word_under(&self, event: Event) -> Word
        ensures { result ≡ word_under (shown self.now).flat event }
    {
        match event {
            Event::Store { at, .. } => self.word_at(at),
            _ => Word::default(),
        }
    }

    fn note(&mut self, line: u64, event: Event, answer: Answer, old: Word)
        requires room { more_overwritten event answer ≤ spare self.old.past.values }
        requires left { vec_len self.old.tags.left + more_left event answer ≤ vec_capacity self.old.tags.left }
        requires may { (s : Flat) × (length s.mem ≡ length (shown self.old).flat.mem)
            × (may_answer s event answer ≡ true) }
        ensures flat { (shown self.new).flat ≡ (shown self.old).flat }
        ensures stores { (shown self.new).stores
            ≡ stores_after (shown self.old).stores line event answer }
        ensures tags { (shown self.new).tags ≡ tags_after (shown self.old) line event answer }
        ensures since { (shown self.new).since
            ≡ since_over old (shown self.old).tags (shown self.old).since event answer }
        ensures past { (shown self.new).past
            ≡ past_over old (shown self.old).stores (shown self.old).past line event answer }
    {
        match (event, answer) {
            (Event::Load { tag, at }, Answer::Accepted) => {
                let load = self.accepted_load(line, at);
                self.tags.accept(tag, load);
            }
            (Event::Store { at, word, lanes }, Answer::Accepted) => {
                self.overwrite(line, at, lanes, old);
                self.store(line, at, lanes);
                self.tags.leave(at, merge(old, word, lanes));
            }
            (Event::Take { place: _ }, Answer::Value { tag, word: _ }) => {
                self.tags.take(tag, line);
            }
            _ => {}
        }
    }

    fn accepted_load(&self, line: u64, at: u32) -> AcceptedLoad
        ensures { result ≡ accepted_load (shown self.now) line at }
    {
        AcceptedLoad {
            line,
            at,
            word: self.word_at(at),
            stores: self.stores_at(at),
        }
    }

    fn word_at(&self, at: u32) -> Word
        ensures { result ≡ word_at (shown self.now).flat.mem at }
    {
        self.flat.word(at).unwrap_or_default()
    }

    fn stores_at(&self, at: u32) -> Stores
        ensures { result ≡ stores_at (shown self.now).stores at }
    {
        self.stores.get(at as usize).copied().unwrap_or_default()
    }

    fn use_of(&self, tag: u16) -> TagUse
        ensures { result ≡ (shown self.now).tags tag }
    {
        self.tags.use_of(tag)
    }

    fn store(&mut self, line: u64, at: u32, lanes: Lanes)
        requires { at < length (shown self.old).flat.mem }
        ensures flat { (shown self.new).flat ≡ (shown self.old).flat }
        ensures stores { (shown self.new).stores ≡ slice_set (shown self.old).stores at
            (stored_in line lanes (stores_at (shown self.old).stores at)) }
        ensures tags { (shown self.new).tags ≡ (shown self.old).tags }
        ensures since { (shown self.new).since ≡ (shown self.old).since }
        ensures left { self.new.tags.left ≡ self.old.tags.left }
        ensures past { (shown self.new).past ≡ (shown self.old).past }
    {
        let old = self.stores[at as usize];
        self.stores[at as usize] = old.stored_in(line, lanes);
    }

    fn overwrite(&mut self, line: u64, at: u32, lanes: Lanes, old: Word)
        requires { 4 ≤ spare self.old.past.values }
        ensures flat { (shown self.new).flat ≡ (shown self.old).flat }
        ensures stores { (shown self.new).stores ≡ (shown self.old).stores }
        ensures tags { (shown self.new).tags ≡ (shown self.old).tags }
        ensures since { (shown self.new).since ≡ (shown self.old).since }
        ensures left { self.new.tags.left ≡ self.old.tags.left }
        ensures past { (shown self.new).past
            ≡ overwritten_in line lanes at old (stores_at (shown self.old).stores at) (shown self.old).past }
    {
        let put = self.stores_at(at);
        self.past.overwrite(line, lanes, at, old, put);
    }

    fn reason(&self, event: Event, answer: Answer) -> Reason
        ensures { result ≡ reason_of (shown self.now) event answer }
    {
        if !is_ever(event, answer) {
            return never(answer);
        }
        match event {
            Event::Load { tag, at } => {
                self.place_reason(at, answer, tag_reason(tag, self.use_of(tag)))
            }
            Event::Store { at, word: _, lanes } => {
                let lanes_reason = if lanes.has_any() {
                    Reason::HasLanes
                } else {
                    Reason::NoLanes
                };
                self.place_reason(at, answer, lanes_reason)
            }
            Event::Prefetch { at } => self.place_reason(at, answer, never(answer)),
            Event::Take { .. } => self.take_reason(answer),
            _ => never(answer),
        }
    }

    fn place_reason(&self, at: u32, answer: Answer, other: Reason) -> Reason
        ensures { result ≡ place_reason (shown self.now) at answer other }
    {
        let words = self.words;
        if at >= words {
            return Reason::Outside { at, words };
        }
        if is_out_of_range(answer) {
            return Reason::Inside { at, words };
        }
        other
    }

    fn take_reason(&self, answer: Answer) -> Reason
        ensures { (place : ℕ) → result ≡ reason_here (shown self.now) (Event.Take place) answer }
    {
        match answer {
            Answer::Value { tag, word } => self.value_reason(tag, word),
            _ => never(answer),
        }
    }

    fn value_reason(&self, tag: u16, got: Word) -> Reason
        ensures { result
            ≡ value_reason (shown self.now) tag got ((shown self.now).tags tag) }
    {
        match self.use_of(tag) {
            TagUse::Never => Reason::NeverLoaded { tag },
            TagUse::Loaded(load) => {
                let now = self.word_at(load.at);
                let later = self.stores_at(load.at).later_stores(load.line, now, got);
                let past = self.past.of_word(load.at, got);
                let stood_since = self.tags.has_stood(tag, got);
                Reason::WrongWord(WrongWord {
                    tag,
                    load,
                    got,
                    later,
                    past,
                    stood_since,
                })
            }
            TagUse::Taken { line } => Reason::Taken { tag, line },
        }
    }
}
