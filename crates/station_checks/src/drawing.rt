//! The scripts of a plan, drawn part by part.
ghost use Rattle.std.specs.Prelude.{◌≡◌, ℕ, ◌≤◌, ◌<◌, ◌+◌, ◌^◌, length, IfOk, OnOk, slice_index_or, vec_len};
ghost use Rattle.std.specs.List.{All};
ghost use Rattle.rand_pcg.specs.Lcg.{started, increment_of};
ghost use Rattle.rand_pcg.specs.Pcg.{multiplier_64};
ghost use Rattle.station_parts.specs.declared.make.TheConstants.{MAX_PORTS};
ghost use Rattle.station_parts.specs.Runs.{list_in};
ghost use Rattle.station_checks.specs.Asked.{asks_drawn, drawn_past, no_random, own_word};
ghost use Rattle.station_checks.specs.Scripts.{AreRequests};

use crate::plan::{Plan, own_ask};
use rand_pcg::Pcg32;
use station_journal::Ask;
use std::alloc::{AllocError, Global};

/// A plan's scripts, of which no more than one part is ever in memory.
#[derive(Drop)]
pub struct ScriptParts {
    // What draws each port's asks.
    randoms: Vec<Pcg32>,
    // Of each port.
    asks: u32,
    drawn: u32,
    ghost few: { length randoms.items ≤ MAX_PORTS },
    ghost within: { drawn ≤ asks },
}

impl ScriptParts {
    ghost use Rattle.std.specs.Prelude.{◌-◌, min, take, drop};
    ghost use Rattle.station_checks.specs.Asked.{script_of};
    ghost use Rattle.station_checks.specs.Drawn.{ports_of, left_of, script_left};

    /// Nothing is drawn yet. `AllocError`: too little memory.
    pub fn new(alloc: Global, plan: &Plan) -> Result<ScriptParts, AllocError>
        ensures ports { IfOk result (λ parts. ports_of parts ≡ plan.now.ports) }
        ensures left { IfOk result (λ parts. left_of parts ≡ plan.now.asks) }
        ensures scripts { IfOk result (λ parts. (port : ℕ) → port < plan.now.ports
            → script_left parts port ≡ script_of plan.now.seed plan.now.asks port) }
    {
        Ok(ScriptParts {
            randoms: draw_of_each(alloc, plan.ports, plan.seed)?,
            asks: plan.asks,
            drawn: 0,
        })
    }

    /// Asks of each port still to be drawn.
    pub fn left(&self) -> u32
        ensures { result ≡ left_of self.now }
    {
        self.asks - self.drawn
    }

    /// The next `most` asks of each port, or as many as are left. `AllocError`: too little memory, and
    /// these are lost.
    pub fn next(&mut self, alloc: Global, most: u32) -> Result<Vec<Vec<Ask>>, AllocError>
        ensures ports { ports_of self.new ≡ ports_of self.old }
        ensures left { left_of self.new ≡ left_of self.old - most }
        ensures number { IfOk result (λ scripts. vec_len scripts ≡ ports_of self.old) }
        ensures requests { IfOk result (λ scripts. All (λ s. AreRequests s.items) scripts.items) }
        ensures lengths { IfOk result (λ scripts.
            All (λ s. length s.items ≡ min most (left_of self.old)) scripts.items) }
        ensures asks { IfOk result (λ scripts. (port : ℕ) → port < ports_of self.old
            → list_in scripts.items port ≡ take most (script_left self.old port)) }
        ensures rest { OnOk result ((port : ℕ) → port < ports_of self.old
            → script_left self.new port ≡ drop most (script_left self.old port)) }
    {
        let begun = self.drawn;
        let count = most.min(self.asks - begun);
        self.drawn = begun + count;
        draw_scripts(alloc, &mut self.randoms, begun, count)
    }
}

fn draw_of_each(alloc: Global, ports: u32, seed: u64) -> Result<Vec<Pcg32>, AllocError>
    ensures number { IfOk result (λ randoms. length randoms.items ≡ ports) }
    ensures each { IfOk result (λ randoms. (port : ℕ) → port < ports
        → slice_index_or randoms.items port no_random ≡ started 64 multiplier_64 seed (increment_of 64 port)) }
{
    let mut randoms = Vec::new(alloc);
    for port in 0..ports {
        randoms.push(Pcg32::new(seed, u64::from(port)))?;
    }
    Ok(randoms)
}

fn draw_scripts(
    alloc: Global,
    randoms: &mut Vec<Pcg32>,
    begun: u32,
    count: u32,
) -> Result<Vec<Vec<Ask>>, AllocError>
    requires few { length randoms.old.items ≤ MAX_PORTS }
    requires fits { begun + count < 2 ^ 32 }
    ensures same { length randoms.new.items ≡ length randoms.old.items }
    ensures number { IfOk result (λ scripts. vec_len scripts ≡ length randoms.old.items) }
    ensures requests { IfOk result (λ scripts. All (λ s. AreRequests s.items) scripts.items) }
    ensures lengths { IfOk result (λ scripts. All (λ s. length s.items ≡ count) scripts.items) }
    ensures asks { IfOk result (λ scripts. (port : ℕ) → port < length randoms.old.items
        → list_in scripts.items port
        ≡ asks_drawn (own_word port) (slice_index_or randoms.old.items port no_random) begun count) }
    ensures rest { OnOk result ((port : ℕ) → port < length randoms.old.items
        → slice_index_or randoms.new.items port no_random
        ≡ drawn_past count (slice_index_or randoms.old.items port no_random)) }
{
    let mut scripts = Vec::new(alloc);
    for port in 0..randoms.len() {
        scripts.push(draw_script(alloc, &mut randoms[port], port as u32, begun, count)?)?;
    }
    Ok(scripts)
}

fn draw_script(
    alloc: Global,
    random: &mut Pcg32,
    port: u32,
    begun: u32,
    count: u32,
) -> Result<Vec<Ask>, AllocError>
    requires few { port < MAX_PORTS }
    requires fits { begun + count < 2 ^ 32 }
    ensures requests { IfOk result (λ script. AreRequests script.items) }
    ensures length { IfOk result (λ script. length script.items ≡ count) }
    ensures asks { IfOk result (λ script. script.items ≡ asks_drawn (own_word port) random.old begun count) }
    ensures rest { OnOk result (random.new ≡ drawn_past count random.old) }
{
    let mut asks = Vec::new(alloc);
    for place in 0..count {
        asks.push(own_ask(random, port, begun + place))?;
    }
    Ok(asks)
}
