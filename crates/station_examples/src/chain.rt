//! A caller with its own threads over the parts of a station. It has no script: the value that it took is
//! the address that it asks for next.
ghost use Rattle.std.specs.Prelude.{◌≡◌, ℕ, ◌∷◌, [], List};
ghost use Rattle.station_journal.specs.declared.asks.Told.{Told};
ghost use Rattle.station_parts.specs.Audited.{audit_of};
ghost use Rattle.station_parts.specs.Ids.{bank_id, cache_id, port_id};
ghost use Rattle.station_parts.specs.Promises.{ArePrefixes, IsFlatRun};
ghost use Rattle.station_parts.specs.Station.{AreOneStation};
ghost use Rattle.station_parts.specs.Words.{journal_of, offered, sizes_in, taken};
ghost use Rattle.station_examples.specs.Chains.{Follows, IsFollowed, address_in, next_of, stands_at};

use ring_station::{
    Ask, Audit, BankSide, CacheSide, Lanes, Port, Source, Stepped, Told, Word, audit,
};
use std::slice;
use std::sync::atomic::{AtomicBool, Ordering};
use std::thread::{Threads, join_mut};

/// One who stores a chain of words, and then loads one after another, each at the address that the one before
/// is.
#[derive(Clone, Copy, PartialEq, Eq, Debug)]
pub struct Follower {
    /// Where the chain stands.
    pub at: u32,
    /// Words still to be loaded.
    pub left: u32,
    /// Words stored.
    pub stored: usize,
    /// What it waits for.
    pub waits: Waits,
}

/// What a follower waits for.
#[derive(Clone, Copy, PartialEq, Eq, Debug)]
pub enum Waits {
    /// It asks next.
    Nothing,
    /// The verdict on its ask.
    Verdict,
    /// The value of its load.
    Value,
}

impl Follower {
    /// At `first`, with `count` words to load.
    pub fn new(first: u32, count: u32) -> Follower
        ensures { result.at ≡ first }
    {
        Follower {
            at: first,
            left: count,
            stored: 0,
            waits: Waits::Nothing,
        }
    }

    // `links` has each word's address and the next.
    fn take_turn(&mut self, links: &[(u32, u32)], port: &mut Port)
        ensures same { port_id port.new ≡ port_id port.old }
        ensures followed { (first : ℕ)
            → IsFollowed first (offered port.old) (taken port.old) self.old.at
            → IsFollowed first (offered port.new) (taken port.new) self.new.at }
    {
        if self.waits == Waits::Nothing {
            if port.offer(self.ask(links)).is_ok() {
                self.waits = Waits::Verdict;
            }
        } else if let Some(told) = port.take() {
            self.note(links, told);
        }
    }

    fn ask(&self, links: &[(u32, u32)]) -> Ask
        ensures { (first : ℕ) (tellings : List Told) → self.now.at ≡ stands_at first tellings
            → Follows first tellings result }
    {
        match links.get(self.stored) {
            Some((at, next)) => Ask::Store {
                at: *at,
                word: word_of(*next),
                lanes: Lanes(15),
            },
            None => Ask::Load {
                tag: 0,
                at: self.at,
            },
        }
    }

    // A value is the next address.
    fn note(&mut self, links: &[(u32, u32)], told: Told)
        ensures { self.new.at ≡ next_of self.old.at told }
    {
        match told {
            Told::Accepted if self.stored < links.len() => {
                self.stored += 1;
                self.waits = Waits::Nothing;
            }
            Told::Accepted => self.waits = Waits::Value,
            Told::Refused(_) => self.waits = Waits::Nothing,
            Told::Value { word, .. } => {
                self.at = address_in(word);
                self.left = self.left.saturating_sub(1);
                self.waits = Waits::Nothing;
            }
        }
    }
}

// Byte 0 first.
fn address_in(word: Word) -> u32
    ensures { result ≡ address_in word }
{
    u32::from(word.b0)
        + 256 * u32::from(word.b1)
        + 65_536 * u32::from(word.b2)
        + 16_777_216 * u32::from(word.b3)
}

fn word_of(at: u32) -> Word {
    let [b0, b1, b2, b3] = at.to_le_bytes();
    Word { b0, b1, b2, b3 }
}

/// Follows the chain on two threads, one for the port, and one for the cache side and the bank. Each has
/// `turns` turns; the second ends when the follower has all its words and nothing is under way. Then the
/// station is audited.
pub fn follow_chain<R: Threads + Sync>(
    rt: &R,
    follower: &mut Follower,
    links: &[(u32, u32)],
    turns: u64,
    cache: &mut CacheSide,
    port: &mut Port,
    bank: &mut BankSide,
) -> Audit
    requires one { AreOneStation cache.old (port.old ∷ []) (bank.old ∷ []) }

    ensures followed { (first : ℕ)
        → IsFollowed first (offered port.old) (taken port.old) follower.old.at
        → IsFollowed first (offered port.new) (taken port.new) follower.new.at }

    ensures exact { result ≡ audit_of cache.new (port.new ∷ []) (bank.new ∷ []) }
    ensures prefixes { ArePrefixes (journal_of cache.new) (port.new ∷ []) }
    ensures flat { IsFlatRun (sizes_in cache.new) (journal_of cache.new) }
    ensures kept { AreOneStation cache.new (port.new ∷ []) (bank.new ∷ []) }
{
    let has_all = AtomicBool::new(false);
    run_threads(rt, follower, links, turns, &has_all, cache, port, bank);
    audit(cache, slice::from_mut(port), slice::from_mut(bank))
}

fn run_threads<R: Threads + Sync>(
    rt: &R,
    follower: &mut Follower,
    links: &[(u32, u32)],
    turns: u64,
    has_all: &AtomicBool,
    cache: &mut CacheSide,
    port: &mut Port,
    bank: &mut BankSide,
)
    ensures cache { cache_id cache.new ≡ cache_id cache.old }
    ensures port { port_id port.new ≡ port_id port.old }
    ensures bank { bank_id bank.new ≡ bank_id bank.old }
    ensures followed { (first : ℕ)
        → IsFollowed first (offered port.old) (taken port.old) follower.old.at
        → IsFollowed first (offered port.new) (taken port.new) follower.new.at }
{
    join_mut(
        rt,
        &mut ||
            ensures cache { cache_id cache.exit.now ≡ cache_id cache.entry.now }
            ensures bank { bank_id bank.exit.now ≡ bank_id bank.entry.now }
        { run_memory(turns, has_all, cache, bank) },
        &mut ||
            ensures port { port_id port.exit.now ≡ port_id port.entry.now }
            ensures followed { (first : ℕ)
                → IsFollowed first (offered port.entry.now) (taken port.entry.now) follower.entry.now.at
                → IsFollowed first (offered port.exit.now) (taken port.exit.now) follower.exit.now.at }
        { run_port(follower, links, turns, has_all, port) },
    );
}

fn run_port(
    follower: &mut Follower,
    links: &[(u32, u32)],
    turns: u64,
    has_all: &AtomicBool,
    port: &mut Port,
)
    ensures port { port_id port.new ≡ port_id port.old }
    ensures followed { (first : ℕ)
        → IsFollowed first (offered port.old) (taken port.old) follower.old.at
        → IsFollowed first (offered port.new) (taken port.new) follower.new.at }
{
    for _ in 0..turns {
        if follower.left == 0 {
            break;
        }
        follower.take_turn(links, port);
    }
    has_all.store(true, Ordering::SeqCst);
}

fn run_memory(turns: u64, has_all: &AtomicBool, cache: &mut CacheSide, bank: &mut BankSide)
    ensures cache { cache_id cache.new ≡ cache_id cache.old }
    ensures bank { bank_id bank.new ≡ bank_id bank.old }
{
    for _ in 0..turns {
        let is_last = has_all.load(Ordering::SeqCst);
        go_round(cache);
        let stepped = bank.step();
        if is_last && cache.is_at_rest() && stepped == Stepped::Idle {
            break;
        }
    }
}

fn go_round(cache: &mut CacheSide)
    ensures { cache_id cache.new ≡ cache_id cache.old }
{
    cache.step(Source::Ask(0));
    cache.step(Source::Word(0));
    cache.step(Source::Stack(0));
    cache.step(Source::Drain);
    cache.step(Source::Reply(0));
}
