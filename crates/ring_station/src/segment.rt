//! A run that hands the journal out.
ghost use Rattle.std.specs.Prelude.{◌≡◌, true, length, vec_len, IfOk, IfErr, OnErr, OnOk, IsErr};
ghost use Rattle.station_parts.specs.Audited.{LeavesBanks};
ghost use Rattle.station_parts.specs.Promises.{IsCleanStation};
ghost use Rattle.station_parts.specs.Renewed.{RenewsCache, ResumesPorts, IsRefused};
ghost use Rattle.station_parts.specs.Rest.{is_at_rest};
ghost use Rattle.station_parts.specs.Station.{IsOneStation, IsSameStation};
ghost use Rattle.station_parts.specs.Words.{cache_in, earlier_of};
ghost use Rattle.ring_station.specs.PortRuns.{AreHeard};
ghost use Rattle.ring_station.specs.Segments.{HaveRunOn, HandsOut, TellsRenewal, TellsRun, ComesToRenewal};
ghost use Rattle.ring_station.specs.Within.{KeepsTo};

use crate::crew::Crew;
use crate::fault::SegmentFault;
use crate::gate::Gate;
use crate::run::run_and_audit;
use station_parts::{Ask, Entry, RenewFault, Station, Told, renew};
use std::alloc::Global;
use std::rt::Clock;
use std::thread::Threads;

/// What a run gave before a renewal.
#[derive(Drop)]
pub struct Segment {
    /// By port: what it took, in order.
    pub lists: Vec<Vec<Told>>,
    /// Oldest entry first.
    pub journal: Vec<Entry>,
}

/// The run of [`run_and_audit`](crate::run_and_audit), and a renewal behind it: the journal is handed out, and
/// the station may run again. One behind the other, these journals are one run of flat memory.
///
/// [`SegmentFault::Run`]: the run came to no end. [`SegmentFault::Renewal`]: it did, and the station, whose
/// ports have ended, must be renewed before it runs again. After either it may be audited, and no journal was
/// handed out.
///
/// A script with `Done` in it comes to no end.
pub fn run_and_renew<R: Clock + Threads + Sync, G: Gate>(
    rt: &R,
    alloc: Global,
    station: &mut Station,
    scripts: &[Vec<Ask>],
    turns: u64,
    crew: Crew,
    gate: &G,
) -> Result<Segment, SegmentFault>
    requires one { IsOneStation station.old }
    requires scripts { length scripts.now ≡ vec_len station.old.ports }

    ensures same { IsSameStation station.old station.new }

    ensures lists { IfOk result (λ run. HaveRunOn scripts.now
        station.old.ports.items station.new.ports.items run.lists.items) }
    ensures heard { IfOk result (λ run. AreHeard (G.has_heard gate.now) run.lists.items) }
    ensures journal { IfOk result
        (λ run. HandsOut station.old.cache station.new.cache run.journal.items) }
    ensures unhanded { OnErr result (earlier_of station.new.cache ≡ earlier_of station.old.cache) }
    ensures rests { OnOk result (is_at_rest (cache_in station.new.cache) ≡ true) }

    ensures ran { IfErr result (ComesToRenewal scripts.now station.old.ports.items station.new.ports.items) }
    ensures renewal { IfErr result (TellsRenewal station.new) }

    ensures run { IfErr result (TellsRun scripts.now turns station.old station.new) }
    ensures no_turn { turns ≡ 0 → IsErr result }

    ensures within { KeepsTo turns station.old station.new }

    ensures clean { OnOk result (IsCleanStation station.new) }
{
    let run = run_and_audit(rt, alloc, station, scripts, turns, crew, gate)?;
    if let Some(fault) = run.fault() {
        return Err(SegmentFault::Run(fault));
    }
    let journal = renew_station(alloc, station)?;
    Ok(Segment {
        lists: run.lists,
        journal,
    })
}

// Renews a station whose parts are in the order of their numbers.
fn renew_station(alloc: Global, station: &mut Station) -> Result<Vec<Entry>, RenewFault>
    requires { IsOneStation station.old }
    ensures same { IsSameStation station.old station.new }
    ensures cache { IfOk result
        (λ segment. RenewsCache station.old.cache station.new.cache segment.items) }
    ensures ports { OnOk result (ResumesPorts station.old.ports.items station.new.ports.items) }
    ensures banks { LeavesBanks station.old.banks.items station.new.banks.items }
    ensures refused { IfErr result (λ fault. IsRefused fault station.old.cache station.new.cache
        station.old.ports.items station.new.ports.items station.old.banks.items station.new.banks.items) }
    ensures unhanded { OnErr result (earlier_of station.new.cache ≡ earlier_of station.old.cache) }
    ensures clean { OnOk result (IsCleanStation station.new) }
{
    renew(
        alloc,
        &mut station.cache,
        &mut station.ports,
        &mut station.banks,
    )
}
