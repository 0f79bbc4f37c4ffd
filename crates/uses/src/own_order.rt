//! A driver that chooses its own order of memory.
ghost use Rattle.std.specs.Prelude.{◌≡◌, ◌+◌, ◌<◌, ◌^◌, length, count_by, nat_lt};
ghost use Rattle.uses.specs.Lookups.{total, counted};

use machine_core::{Event, Lookup, Machine};

const TAGS: usize = u16::MAX as usize + 1;

/// What the requests found.
#[derive(Clone, Copy, PartialEq, Eq, Debug, Default)]
pub struct Lookups {
    /// At hand.
    pub hits: u64,
    /// On its way already.
    pub joins: u64,
    /// Neither.
    pub misses: u64,
}

impl Lookups {
    fn count(&mut self, lookup: Option<Lookup>)
        requires { total self.old < 2 ^ 63 }
        ensures { self.new ≡ counted self.old lookup }
    {
        match lookup {
            Some(Lookup::Hit) => self.hits += 1,
            Some(Lookup::Join) => self.joins += 1,
            Some(Lookup::Miss) => self.misses += 1,
            None => {}
        }
    }
}

/// Loads these words, and lets one bank move after each: the last bank first, and its newest answer.
pub fn count_lookups(machine: &mut Machine<2, 4, 4, 4>, addresses: &[u32]) -> Lookups
    requires { length addresses.now < 2 ^ 32 }
    ensures total { total result
        ≡ count_by (λ at. nat_lt at machine.old.sizes.words) addresses.now }
    ensures sizes { machine.new.sizes ≡ machine.old.sizes }
{
    let mut lookups = Lookups::default();
    for k in 0..addresses.len() {
        let at = addresses[k];
        lookups.count(machine.find(at));
        let tag = (k % TAGS) as u16;
        machine.apply(Event::Load { tag, at });
        move_bank(machine, 3 - (k % 4) as u32);
    }
    lookups
}

fn move_bank(machine: &mut Machine<2, 4, 4, 4>, bank: u32)
    ensures { machine.new.sizes ≡ machine.old.sizes }
{
    machine.apply(Event::Serve { bank });
    let answers = machine.answers(bank);
    if answers > 0 {
        let place = answers - 1;
        machine.apply(Event::Arrive { bank, place });
    }
    machine.apply(Event::Process { place: 0 });
    machine.apply(Event::Take { place: 0 });
}
