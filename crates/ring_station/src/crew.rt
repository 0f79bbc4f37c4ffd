//! The threads of a run.
ghost use Rattle.std.specs.Prelude.{◌≡◌, ◌<◌, ◌≤◌, ◌==◌, if◌then◌else◌, [], map, vec_len, vec_capacity};
ghost use Rattle.std.specs.List.{All};
ghost use Rattle.ring_station.specs.Crew.{HasNotBegun};
ghost use Rattle.ring_station.specs.Ends.{not_begun};

use crate::talk::Talk;
use crate::thread_end::ThreadEnd;
use station_parts::{BankSide, Port, Told};
use std::alloc::Global;

/// How many threads share the ports and the banks; the cache side has its own. Parts of a thread are
/// neighbours, in equal shares but for the last. At most one for each part.
#[derive(Clone, Copy, PartialEq, Eq, Debug)]
pub struct Crew {
    /// 0 counts as 1.
    pub port_threads: usize,
    /// With 0 the cache side's thread serves the banks, which keeps what goes between them on one
    /// processor.
    pub bank_threads: usize,
}

impl Crew {
    /// One for each port and bank.
    pub fn one_each() -> Crew
        ensures ports { result.port_threads ≡ usize.MAX }
        ensures banks { result.bank_threads ≡ usize.MAX }
    {
        Crew {
            port_threads: usize::MAX,
            bank_threads: usize::MAX,
        }
    }

    pub(crate) fn beside_cache(self, banks: usize) -> usize
        ensures within { result ≤ banks }
        ensures exact { result ≡ (if self.bank_threads == 0 then banks else 0) }
    {
        if self.bank_threads == 0 { banks } else { 0 }
    }
}

/// A port, its place in its script, what it took, and its end so far.
#[derive(Drop)]
pub(crate) struct PortRun {
    pub(crate) port: Port,
    pub(crate) talk: Talk,
    pub(crate) list: Vec<Told>,
    pub(crate) end: ThreadEnd,
}

/// A bank, and its end so far.
#[derive(Drop)]
pub(crate) struct BankRun {
    pub(crate) bank: BankSide,
    pub(crate) end: ThreadEnd,
}

pub(crate) fn enlist_ports(alloc: Global, ports: Vec<Port>, runs: &mut Vec<PortRun>)
    requires empty { runs.old.items ≡ [] }
    requires room { vec_len ports ≤ vec_capacity runs.old }
    ensures ports { map (λ r. r.port) runs.new.items ≡ ports.items }
    ensures begun { All HasNotBegun runs.new.items }
{
    for port in ports {
        runs.push_reserved(PortRun {
            port,
            talk: Talk::new(),
            list: Vec::new(alloc),
            end: ThreadEnd::not_begun(),
        });
    }
}

pub(crate) fn dismiss_ports(
    runs: Vec<PortRun>,
    ports: &mut Vec<Port>,
    lists: &mut Vec<Vec<Told>>,
    ends: &mut Vec<ThreadEnd>,
)
    requires empty { (ports.old.items ≡ []) × (lists.old.items ≡ []) × (ends.old.items ≡ []) }
    requires room { (vec_len runs ≤ vec_capacity ports.old) × (vec_len runs ≤ vec_capacity lists.old)
        × (vec_len runs ≤ vec_capacity ends.old) }
    ensures ports { ports.new.items ≡ map (λ r. r.port) runs.items }
    ensures lists { lists.new.items ≡ map (λ r. r.list) runs.items }
    ensures ends { ends.new.items ≡ map (λ r. r.end) runs.items }
{
    for run in runs {
        ports.push_reserved(run.port);
        lists.push_reserved(run.list);
        ends.push_reserved(run.end);
    }
}

pub(crate) fn enlist_banks(banks: Vec<BankSide>, runs: &mut Vec<BankRun>)
    requires empty { runs.old.items ≡ [] }
    requires room { vec_len banks ≤ vec_capacity runs.old }
    ensures banks { map (λ r. r.bank) runs.new.items ≡ banks.items }
    ensures begun { All (λ r. r.end ≡ not_begun) runs.new.items }
{
    for bank in banks {
        runs.push_reserved(BankRun {
            bank,
            end: ThreadEnd::not_begun(),
        });
    }
}

pub(crate) fn dismiss_banks(
    runs: Vec<BankRun>,
    banks: &mut Vec<BankSide>,
    ends: &mut Vec<ThreadEnd>,
)
    requires empty { (banks.old.items ≡ []) × (ends.old.items ≡ []) }
    requires room { (vec_len runs ≤ vec_capacity banks.old) × (vec_len runs ≤ vec_capacity ends.old) }
    ensures banks { banks.new.items ≡ map (λ r. r.bank) runs.items }
    ensures ends { ends.new.items ≡ map (λ r. r.end) runs.items }
{
    for run in runs {
        banks.push_reserved(run.bank);
        ends.push_reserved(run.end);
    }
}
