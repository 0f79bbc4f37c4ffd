//! What is found of a station behind its run.
ghost use Rattle.std.specs.Prelude.{◌≡◌, ◌↔◌, ◌∷◌, [], true, false, is_some, Some, IfOk, OnErr};
ghost use Rattle.flat_model.specs.Memory.{shown};
ghost use Rattle.station_journal.specs.Journal.{events_of, answers_of};
ghost use Rattle.station_journal.specs.Parts.{told_of};
ghost use Rattle.station_parts.specs.Words.{held_of};
ghost use Rattle.station_checks.specs.Checks.{flat_after, is_flat, AreTold, told_list};

use flat_model::{Answer, Event, FlatMemory, ReplayFault};
use station_journal::{Entry, Source, Told};
use station_parts::{CacheSide, PORT_TAGS};
use std::alloc::{AllocError, Global};

/// The journal at hand, oldest entry first. `AllocError`: too little memory.
pub fn read_journal(alloc: Global, cache: &CacheSide) -> Result<Vec<Entry>, AllocError>
    ensures { IfOk result (λ entries. entries.items ≡ held_of cache.now) }
{
    let mut entries = Vec::new(alloc);
    for place in 0..cache.entries() {
        if let Some(entry) = cache.entry(place) {
            entries.push(entry)?;
        }
    }
    Ok(entries)
}

/// Whether a journal is a run of flat memory of `words` words from zeros. `AllocError`: too little memory.
pub fn is_flat(alloc: Global, journal: &[Entry], words: u32) -> Result<bool, AllocError>
    ensures { IfOk result (λ found. found ≡ is_flat words journal.now) }
{
    let mut memory = FlatMemory::zeros(alloc, words)?;
    goes_on(alloc, &mut memory, journal)
}

/// Whether a journal is a run of flat memory from this one on, which then is as the journal leaves it. Else,
/// and after `AllocError`, it is as it was.
pub fn goes_on(
    alloc: Global,
    memory: &mut FlatMemory,
    journal: &[Entry],
) -> Result<bool, AllocError>
    ensures found { IfOk result (λ found. found ≡ is_some (flat_after (shown memory.old) journal.now)) }
    ensures moved { IfOk result (λ found. found ≡ true
        → flat_after (shown memory.old) journal.now ≡ Some (shown memory.new)) }
    ensures kept { IfOk result (λ found. found ≡ false → shown memory.new ≡ shown memory.old) }
    ensures unmoved { OnErr result (shown memory.new ≡ shown memory.old) }
{
    let (events, answers) = pairs_in(alloc, journal)?;
    match memory.replay(alloc, &events, &answers) {
        Ok(()) => Ok(true),
        Err(ReplayFault::Lengths) => Ok(false),
        Err(ReplayFault::Mismatch { .. }) => Ok(false),
        Err(ReplayFault::OutOfMemory) => Err(AllocError),
    }
}

fn pairs_in(alloc: Global, journal: &[Entry]) -> Result<(Vec<Event>, Vec<Answer>), AllocError>
    ensures events { IfOk result (λ pairs. pairs.0.items ≡ events_of journal.now) }
    ensures answers { IfOk result (λ pairs. pairs.1.items ≡ answers_of journal.now) }
{
    let mut events = Vec::new(alloc);
    let mut answers = Vec::new(alloc);
    for entry in journal {
        if let Entry::Step { event, answer, .. } = *entry {
            events.push(event)?;
            answers.push(answer)?;
        }
    }
    Ok((events, answers))
}

/// Whether each list is what the journal tells its port, in order. `AllocError`: too little memory.
pub fn are_told(alloc: Global, journal: &[Entry], lists: &[Vec<Told>]) -> Result<bool, AllocError>
    ensures { IfOk result (λ found. (found ≡ true) ↔ AreTold journal.now lists.now) }
{
    for port in 0..lists.len() {
        let told = told_in(alloc, journal, port)?;
        if told != lists[port] {
            return Ok(false);
        }
    }
    Ok(true)
}

fn told_in(alloc: Global, journal: &[Entry], port: usize) -> Result<Vec<Told>, AllocError>
    ensures { IfOk result (λ told. told.items ≡ told_of port journal.now) }
{
    let mut told = Vec::new(alloc);
    for entry in journal {
        if let Some(telling) = telling_of(*entry, port) {
            told.push(telling)?;
        }
    }
    Ok(told)
}

fn telling_of(entry: Entry, port: usize) -> Option<Told>
    ensures { told_list result ≡ told_of port (entry ∷ []) }
{
    let Entry::Step { source, answer, .. } = entry else {
        return None;
    };
    match (source, answer) {
        (Source::Ask(asker), Answer::Accepted) if asker as usize == port => Some(Told::Accepted),
        (Source::Ask(asker), Answer::Refused(cause)) if asker as usize == port => {
            Some(Told::Refused(cause))
        }
        (Source::Reply(_), Answer::Value { tag, word }) if usize::from(tag / PORT_TAGS) == port => {
            Some(Told::Value {
                tag: (tag % PORT_TAGS) as u8,
                word,
            })
        }
        _ => None,
    }
}
