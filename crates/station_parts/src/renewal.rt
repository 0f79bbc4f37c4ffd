//! How a station goes on with a new journal.
ghost use Rattle.std.specs.Prelude.{◌≡◌, ◌≤◌, ◌<◌, ◌+◌, [], nat_lt, false, map, vec_capacity, IfOk, IfErr, OnOk};
ghost use Rattle.std.specs.List.{All};
ghost use Rattle.station_parts.specs.declared.make.TheConstants.{MAX_NOTED};
ghost use Rattle.station_parts.specs.Audited.{LeavesBanks};
ghost use Rattle.station_parts.specs.Ids.{port_id};
ghost use Rattle.station_parts.specs.Promises.{IsFoundClean};
ghost use Rattle.station_parts.specs.Renewed.{noted_after, GoesOn, RenewsCache, ResumesPorts, IsRefused};
ghost use Rattle.station_parts.specs.Station.{AreOneStation, AreSameParts};
ghost use Rattle.station_parts.specs.Words.{offered, offered_before, taken, has_ended, known_places, known_tellings, told_in_all};
ghost use Rattle.station_parts.specs.Words.{journal_of, earlier_of, held_of};

use crate::bank::BankSide;
use crate::inspect::audit;
use crate::make::MAX_NOTED;
use crate::parts::{Audit, CacheSide};
use crate::port::Port;
use crate::texts::FaultText;
use station_journal::Entry;
use std::alloc::{AllocError, Global};
use std::mem::replace;
use thiserror::Error;

/// Why a station wasn't renewed.
#[derive(Clone, Copy, PartialEq, Eq, Debug, Error)]
#[error("{}", FaultText(self))]
pub enum RenewFault {
    /// One more full journal would bring the station beyond [`MAX_NOTED`] entries.
    WornOut,
    /// Too little memory for a new journal.
    OutOfMemory,
    /// What the audit found.
    NotClean(Audit),
}

impl From<AllocError> for RenewFault {
    ghost use Rattle.std.specs.Prelude.{◌≡◌};
    ghost use Rattle.station_parts.specs.declared.renewal.RenewFault.TheVariants.{OutOfMemory};

    ghost from_gives = { λ e f. f ≡ OutOfMemory };

    fn from(_fault: AllocError) -> RenewFault {
        RenewFault::OutOfMemory
    }
}

/// Audits a whole station, its parts in the order of their numbers, and if it is `Clean` hands its journal out
/// and begins an empty one that takes as many entries. Each port may then offer again. All else goes on as it
/// stood.
///
/// The journals handed out and the one at hand are one journal, and an audit speaks of all of it.
///
/// Faults come in the order `WornOut`, `OutOfMemory`, `NotClean`, and change nothing, but that after `NotClean`
/// more may be known of the rings' far ends.
pub fn renew(
    alloc: Global,
    cache: &mut CacheSide,
    ports: &mut [Port],
    banks: &mut [BankSide],
) -> Result<Vec<Entry>, RenewFault>
    requires { AreOneStation cache.old ports.old banks.old }

    ensures same { AreSameParts cache.old cache.new ports.old ports.new banks.old banks.new }

    ensures cache { IfOk result (λ segment. RenewsCache cache.old cache.new segment.items) }
    ensures ports { OnOk result (ResumesPorts ports.old ports.new) }
    ensures banks { LeavesBanks banks.old banks.new }
    ensures lasts { OnOk result (noted_after cache.old ≤ MAX_NOTED) }
    ensures refused { IfErr result
        (λ fault. IsRefused fault cache.old cache.new ports.old ports.new banks.old banks.new) }

    ensures clean { OnOk result (IsFoundClean cache.new ports.new banks.new) }
{
    if is_worn_out(cache) {
        return Err(RenewFault::WornOut);
    }
    let fresh = Vec::with_capacity(alloc, cache.limit as usize)?;
    match audit(cache, ports, banks) {
        Audit::Clean => {
            resume_all(ports);
            Ok(hand_out(cache, fresh))
        }
        found => Err(RenewFault::NotClean(found)),
    }
}

fn is_worn_out(cache: &CacheSide) -> bool
    ensures { result ≡ nat_lt MAX_NOTED (noted_after cache.now) }
{
    cache.handed + cache.journal.len() as u64 + u64::from(cache.limit) > MAX_NOTED
}

fn resume_all(ports: &mut [Port])
    ensures same { map port_id ports.new ≡ map port_id ports.old }
    ensures before { All (λ p. offered_before p ≡ offered p) ports.new }
    ensures again { All (λ p. has_ended p ≡ false) ports.new }
    ensures offered { map offered ports.new ≡ map offered ports.old }
    ensures taken { map taken ports.new ≡ map taken ports.old }
    ensures places { map known_places ports.new ≡ map known_places ports.old }
    ensures tellings { map known_tellings ports.new ≡ map known_tellings ports.old }
    ensures told { map told_in_all ports.new ≡ map told_in_all ports.old }
{
    for p in 0..ports.len() {
        ports[p].resume();
    }
}

fn hand_out(cache: &mut CacheSide, fresh: Vec<Entry>) -> Vec<Entry>
    requires empty { fresh.items ≡ [] }
    requires room { cache.old.limit ≤ vec_capacity fresh }
    requires lasts { noted_after cache.old ≤ MAX_NOTED }
    ensures segment { result.items ≡ held_of cache.old }
    ensures earlier { earlier_of cache.new ≡ journal_of cache.old }
    ensures held { held_of cache.new ≡ [] }
    ensures rest { GoesOn cache.old cache.new }
{
    cache.earlier = cache.earlier.and(&cache.journal);
    cache.handed += cache.journal.len() as u64;
    replace(&mut cache.journal, fresh)
}
