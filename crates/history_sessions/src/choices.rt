//! Whether an answered load had a choice.
ghost use Rattle.std.specs.Prelude.{◌≡◌, ◌≤◌};
ghost use Rattle.history_reasons.specs.Units.{address_at};
ghost use Rattle.history_sessions.specs.Coverage.{shown};
ghost use Rattle.history_sessions.specs.Choices.{has_other, has_another, IsTold, HadChoice, IsChoice};
ghost use Rattle.history_sessions.specs.History.{History};
ghost use Rattle.history_sessions.specs.Kept.{IsOf};

use crate::coverage::{Coverage, WatchedOperation};
use crate::faults::JudgeFault;
use crate::judge::Judge;
use memory_histories::{ByteSet, HistoryEvent, is_enabled};

impl Judge {
    // Whether an event answers a load that is counted and had a choice.
    #[inline(never)]
    pub(crate) fn is_choice(&self, coverage: &Coverage, event: HistoryEvent) -> bool
        ensures { (h : History)
            → IsOf self.now h
            → IsChoice self.now h (shown coverage.now) event.entry result }
    {
        let HistoryEvent::LoadResponse { number, bytes } = event else {
            return false;
        };
        match coverage.load_under(number) {
            Some(load) => self.had_choice(number, load, bytes),
            None => false,
        }
    }

    fn had_choice(&self, number: u64, load: WatchedOperation, bytes: &[u8]) -> bool
        ensures { (h : History)
            → IsOf self.now h
            → HadChoice self.now h number load.address load.bytes bytes.now result }
    {
        for (k, byte) in bytes.iter().enumerate() {
            if is_enabled(load.bytes, k as u64)
                && self.has_another(number, address_at(load.address, k), *byte)
            {
                return true;
            }
        }
        false
    }

    fn has_another(&self, number: u64, address: u64, byte: u8) -> bool
        ensures { (h : History)
            → IsOf self.now h
            → IsTold self.now h number address byte result }
    {
        has_another(self.may_return(number, address), byte)
    }
}

fn address_at(address: u64, place: usize) -> u64
    ensures { result ≡ address_at address place }
{
    address.saturating_add(place as u64)
}

fn has_another(told: Result<Option<ByteSet>, JudgeFault>, byte: u8) -> bool
    ensures { result ≡ has_another byte told }
{
    match told {
        Ok(Some(set)) => is_more(set, byte),
        Ok(None) | Err(_) => false,
    }
}

// Whether a set has another byte than this.
fn is_more(set: ByteSet, byte: u8) -> bool
    ensures { result ≡ has_other set byte 256 }
{
    if set == ByteSet::none().with(byte) {
        return false;
    }
    has_other(set, byte, 256)
}

// The same of so many bytes, from 0 on.
#[tactic(auto, using(crate::proofs::Alone::none_more, crate::proofs::Alone::one_more))]
fn has_other(set: ByteSet, byte: u8, count: u16) -> bool
    requires { count ≤ 256 }
    ensures { result ≡ has_other set byte count }
{
    let mut found = false;
    for other in 0..count {
        found = found || (other != u16::from(byte) && set.contains(other as u8));
    }
    found
}
