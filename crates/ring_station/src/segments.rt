//! Runs in pieces.
ghost use Rattle.std.specs.Prelude.{◌≡◌, ◌*◌, max, true, length, map, vec_len, IfOk, IfErr, OnOk, IsErr};
ghost use Rattle.station_parts.specs.Promises.{IsCleanStation};
ghost use Rattle.station_parts.specs.Rest.{is_at_rest};
ghost use Rattle.station_parts.specs.Station.{IsOneStation, IsSameStation};
ghost use Rattle.station_parts.specs.Words.{cache_in};
ghost use Rattle.ring_station.specs.Segments.{RunsInSegments, StopsBehind, RunsInTurns, StopsInTurns, RunsNext, StopsNext};
ghost use Rattle.ring_station.specs.Segments.{FailsBehind, FailsNext, TellsRenewal};
ghost use Rattle.ring_station.specs.Segments.{EachIsHeard, longest_of, piece_behind, piece_count};
ghost use Rattle.ring_station.specs.Within.{KeepsTo};

use crate::crew::Crew;
use crate::fault::SegmentFault;
use crate::gate::Gate;
use crate::keeper::Keeper;
use crate::segment::run_and_renew;
use station_parts::{Ask, Station};
use std::alloc::{AllocError, Global};
use std::rt::Clock;
use std::thread::Threads;

/// Runs scripts in the memory of a piece: `asks` asks of each, 0 counting as 1. Each run is
/// [`run_and_renew`]'s, with `turns` turns and `Done` behind each piece, and what it gave goes to the keeper.
/// There is one run at least; short scripts end in empty pieces.
///
/// The first fault ends it. Want of memory for the pieces or in the keeper is
/// [`RunFault::OutOfMemory`](crate::RunFault). The keeper has the segments of the runs before; one that it
/// refused is lost, and its journal counts as handed out.
///
/// A script with `Done` in it comes to no end.
pub fn run_in_segments<R: Clock + Threads + Sync, G: Gate, K: Keeper>(
    rt: &R,
    alloc: Global,
    station: &mut Station,
    scripts: &[Vec<Ask>],
    asks: usize,
    turns: u64,
    crew: Crew,
    gate: &G,
    keeper: &mut K,
) -> Result<(), SegmentFault>
    requires one { IsOneStation station.old }
    requires scripts { length scripts.now ≡ vec_len station.old.ports }

    ensures same { IsSameStation station.old station.new }

    ensures runs { OnOk result (RunsInSegments (max asks 1) scripts.now station.old station.new
        (λ segments. K.kept keeper.old segments keeper.new × EachIsHeard (G.has_heard gate.now) segments)) }
    ensures stops { IfErr result (StopsBehind (max asks 1) scripts.now station.old station.new
        (λ segments. K.kept keeper.old segments keeper.new × EachIsHeard (G.has_heard gate.now) segments)) }
    ensures rests { OnOk result (is_at_rest (cache_in station.new.cache) ≡ true) }
    ensures renewal { IfErr result (TellsRenewal station.new) }
    ensures fault { IfErr result (FailsBehind turns (max asks 1) scripts.now station.old station.new) }
    ensures no_turn { turns ≡ 0 → IsErr result }

    ensures each_within { OnOk result (RunsInTurns turns (max asks 1) scripts.now station.old station.new
        (λ segments. K.kept keeper.old segments keeper.new × EachIsHeard (G.has_heard gate.now) segments)) }
    ensures stops_within { IfErr result (StopsInTurns turns (max asks 1) scripts.now station.old station.new
        (λ segments. K.kept keeper.old segments keeper.new × EachIsHeard (G.has_heard gate.now) segments)) }
    ensures within { OnOk result
        (KeepsTo (piece_count (max asks 1) scripts.now * turns) station.old station.new) }

    ensures clean { OnOk result (IsCleanStation station.new) }
{
    let asks = asks.max(1);
    let longest = longest_script(scripts);
    let mut begin = 0;
    loop {
        run_pieces(
            rt, alloc, station, scripts, begin, asks, turns, crew, gate, keeper,
        )?;
        if longest - begin <= asks {
            return Ok(());
        }
        begin += asks;
    }
}

// How many asks the longest script has.
fn longest_script(scripts: &[Vec<Ask>]) -> usize
    ensures { result ≡ longest_of scripts.now }
{
    scripts
        .iter()
        .fold(0, |longest, script| longest.max(script.len()))
}

fn run_pieces<R: Clock + Threads + Sync, G: Gate, K: Keeper>(
    rt: &R,
    alloc: Global,
    station: &mut Station,
    scripts: &[Vec<Ask>],
    begin: usize,
    asks: usize,
    turns: u64,
    crew: Crew,
    gate: &G,
    keeper: &mut K,
) -> Result<(), SegmentFault>
    requires one { IsOneStation station.old }
    requires scripts { length scripts.now ≡ vec_len station.old.ports }
    ensures same { IsSameStation station.old station.new }
    ensures runs { OnOk result (RunsNext begin asks scripts.now station.old station.new
        (λ segments. K.kept keeper.old segments keeper.new × EachIsHeard (G.has_heard gate.now) segments)) }
    ensures stops { IfErr result (StopsNext begin asks scripts.now station.old station.new
        (λ segments. K.kept keeper.old segments keeper.new × EachIsHeard (G.has_heard gate.now) segments)) }
    ensures rests { OnOk result (is_at_rest (cache_in station.new.cache) ≡ true) }
    ensures renewal { IfErr result (TellsRenewal station.new) }
    ensures fault { IfErr result (FailsNext begin asks turns scripts.now station.old station.new) }
    ensures no_turn { turns ≡ 0 → IsErr result }
    ensures within { KeepsTo turns station.old station.new }
    ensures clean { OnOk result (IsCleanStation station.new) }
{
    let pieces = cut_scripts(alloc, scripts, begin, asks)?;
    let segment = run_and_renew(rt, alloc, station, &pieces, turns, crew, gate)?;
    Ok(keeper.keep(segment)?)
}

fn cut_scripts(
    alloc: Global,
    scripts: &[Vec<Ask>],
    begin: usize,
    asks: usize,
) -> Result<Vec<Vec<Ask>>, AllocError>
    ensures { IfOk result (λ pieces. map (λ p. p.items) pieces.items
        ≡ map (λ s. piece_behind begin asks s.items) scripts.now) }
{
    let mut pieces = Vec::with_capacity(alloc, scripts.len())?;
    for script in scripts {
        pieces.push(cut(alloc, script, begin, asks)?)?;
    }
    Ok(pieces)
}

fn cut(alloc: Global, script: &[Ask], begin: usize, asks: usize) -> Result<Vec<Ask>, AllocError>
    ensures { IfOk result (λ piece. piece.items ≡ piece_behind begin asks script.now) }
{
    let start = begin.min(script.len());
    let end = start.saturating_add(asks).min(script.len());
    Vec::from_slice(alloc, &script[start..end])
}
