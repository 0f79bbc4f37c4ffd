//! A gate that holds threads by a rule, and counts turns.
use ring_station::{Actor, Gate, Told};
use std::hint;
use std::sync::atomic::{AtomicBool, AtomicU64, Ordering};

/// Whom a gate holds.
#[derive(Clone, Copy)]
pub(crate) enum Rule {
    /// Nobody.
    Open,
    /// All, for ever.
    Closed,
    /// For ever.
    Holds(Actor),
    /// Bank 1, which has port 0's word, until port 1 was served from the other.
    HeldBank,
    /// Bank 1, until port 0 had [`REFUSALS`] refusals; then port 0, until the bank has served its load.
    HeldUntilRefused,
    /// Each actor at its first turn, until all are there.
    Meeting,
    /// The cache side, until bank 0's first turn; bank 0 in that turn, until the cache side has ended.
    LateBank,
    /// Port 0, at its first telling, until each other part began [`MORE_TURNS`] turns; port 1 until then.
    Dwelling,
}

// More than two asks have memory reserved for.
const REFUSALS: u64 = 20;

// At a bank.
const READS_OF_A_LOAD: u64 = 2;

// More than those under way.
const MORE_TURNS: u64 = 100;

// Enough for every thread to begin, and for those turns.
const READS: u64 = 200_000_000;

// Without a turn of the cache side: it has ended.
const QUIET_READS: u64 = 20_000_000;

#[derive(Drop)]
struct Heard {
    accepted: AtomicU64,
    refused: AtomicU64,
    values: AtomicU64,
}

impl Heard {
    fn new() -> Heard {
        Heard {
            accepted: AtomicU64::new(0),
            refused: AtomicU64::new(0),
            values: AtomicU64::new(0),
        }
    }

    fn note(&self, told: &Told) {
        let count = match told {
            Told::Accepted => &self.accepted,
            Told::Refused(_) => &self.refused,
            Told::Value { .. } => &self.values,
        };
        count.fetch_add(1, Ordering::SeqCst);
    }
}

/// For two ports, the cache side and two banks.
#[derive(Drop)]
pub(crate) struct RuledGate {
    rule: Rule,
    // Turns begun.
    cache: AtomicU64,
    first_port: AtomicU64,
    second_port: AtomicU64,
    first_bank: AtomicU64,
    second_bank: AtomicU64,
    first: Heard,
    second: Heard,
    // Turns that bank 1 was allowed.
    let_go: AtomicU64,
    has_dwelt: AtomicBool,
    met: AtomicU64,
}

impl RuledGate {
    pub(crate) fn new(rule: Rule) -> RuledGate {
        RuledGate {
            rule,
            cache: AtomicU64::new(0),
            first_port: AtomicU64::new(0),
            second_port: AtomicU64::new(0),
            first_bank: AtomicU64::new(0),
            second_bank: AtomicU64::new(0),
            first: Heard::new(),
            second: Heard::new(),
            let_go: AtomicU64::new(0),
            has_dwelt: AtomicBool::new(false),
            met: AtomicU64::new(0),
        }
    }

    /// How many actors saw what they waited for.
    pub(crate) fn met(&self) -> u64 {
        self.met.load(Ordering::SeqCst)
    }

    /// The cache side's, the ports', the banks'.
    pub(crate) fn turns(&self) -> [u64; 5] {
        [
            self.cache.load(Ordering::SeqCst),
            self.first_port.load(Ordering::SeqCst),
            self.second_port.load(Ordering::SeqCst),
            self.first_bank.load(Ordering::SeqCst),
            self.second_bank.load(Ordering::SeqCst),
        ]
    }

    fn turns_of(&self, actor: Actor) -> &AtomicU64 {
        match actor {
            Actor::Cache => &self.cache,
            Actor::Port(0) => &self.first_port,
            Actor::Port(_) => &self.second_port,
            Actor::Bank(0) => &self.first_bank,
            Actor::Bank(_) => &self.second_bank,
        }
    }

    // But port 0's.
    fn forget_turns(&self) {
        self.cache.store(0, Ordering::SeqCst);
        self.second_port.store(0, Ordering::SeqCst);
        self.first_bank.store(0, Ordering::SeqCst);
        self.second_bank.store(0, Ordering::SeqCst);
    }

    fn have_begun(&self, turns: u64) -> bool {
        let [cache, first_port, second_port, first_bank, second_bank] = self.turns();
        first_port > 0 && cache.min(second_port).min(first_bank).min(second_bank) >= turns
    }

    fn wait_for(&self, turns: u64) {
        for _ in 0..READS {
            if self.have_begun(turns) {
                self.met.fetch_add(1, Ordering::SeqCst);
                return;
            }
            hint::spin_loop();
        }
    }

    fn dwell(&self) {
        self.forget_turns();
        self.wait_for(MORE_TURNS);
        self.has_dwelt.store(true, Ordering::SeqCst);
    }

    // Port 0's next ask comes behind port 1's.
    fn held_bank_lets(&self, actor: Actor) -> bool {
        let first_is_accepted = self.first.accepted.load(Ordering::SeqCst) > 0;
        match actor {
            Actor::Port(0) => {
                !first_is_accepted || self.second.accepted.load(Ordering::SeqCst) > 0
            }
            Actor::Port(_) => first_is_accepted,
            Actor::Bank(1) => self.second.values.load(Ordering::SeqCst) > 0,
            Actor::Bank(_) | Actor::Cache => true,
        }
    }

    fn wait_for_quiet(&self) {
        let mut last = self.cache.load(Ordering::SeqCst);
        let mut quiet: u64 = 0;
        for _ in 0..READS {
            let begun = self.cache.load(Ordering::SeqCst);
            quiet = if begun == last {
                quiet.saturating_add(1)
            } else {
                0
            };
            last = begun;
            if begun > 0 && quiet >= QUIET_READS {
                return;
            }
            hint::spin_loop();
        }
    }

    // The bank reads no flag in this turn.
    fn late_bank_lets(&self, actor: Actor, turns: u64) -> bool {
        match actor {
            Actor::Cache => self.first_bank.load(Ordering::SeqCst) > 0,
            Actor::Bank(0) => {
                if turns == 0 {
                    self.wait_for_quiet();
                }
                true
            }
            _ => true,
        }
    }

    fn held_until_refused_lets(&self, actor: Actor) -> bool {
        let is_refused = self.first.refused.load(Ordering::SeqCst) >= REFUSALS;
        match actor {
            Actor::Bank(1) => {
                if is_refused {
                    self.let_go.fetch_add(1, Ordering::SeqCst);
                }
                is_refused
            }
            // The bank's turns before this one are over.
            Actor::Port(0) => {
                !is_refused || self.let_go.load(Ordering::SeqCst) > READS_OF_A_LOAD
            }
            _ => true,
        }
    }
}

impl Gate for RuledGate {
    fn may(&self, actor: Actor) -> bool {
        let turns = self.turns_of(actor).fetch_add(1, Ordering::SeqCst);
        match self.rule {
            Rule::Open => true,
            Rule::Closed => false,
            Rule::Holds(held) => actor != held,
            Rule::HeldBank => self.held_bank_lets(actor),
            Rule::HeldUntilRefused => self.held_until_refused_lets(actor),
            Rule::Meeting => {
                if turns == 0 {
                    self.wait_for(1);
                }
                true
            }
            Rule::LateBank => self.late_bank_lets(actor, turns),
            Rule::Dwelling => actor != Actor::Port(1) || self.has_dwelt.load(Ordering::SeqCst),
        }
    }

    fn told(&self, port: u32, told: &Told) {
        let heard = if port == 0 { &self.first } else { &self.second };
        heard.note(told);
        if let Rule::Dwelling = self.rule
            && port == 0
            && !self.has_dwelt.load(Ordering::SeqCst)
        {
            self.dwell();
        }
    }
}
