//! How a station is made.
ghost use Rattle.std.specs.Prelude.{◌≡◌, ◌<◌, ◌≤◌, ◌+◌, length, IfOk, IfErr, OnOk, None};
ghost use Rattle.flat_model.specs.declared.limits.TheConstants.{MAX_BANKS, MAX_BANK_QUEUE};
ghost use Rattle.memory_banks.specs.Memory.{fault_of};
ghost use Rattle.flat_model.specs.declared.MakeFault.TheVariants.{OutOfMemory};
ghost use Rattle.cache_unit.specs.Limits as limits;
ghost use Rattle.cache_law.specs.Shown.{sizes_of};
ghost use Rattle.cache_law.specs.State.{opening_cache};
ghost use Rattle.station_parts.specs.New.{bad_field, bad_size, IsNewStation, AreNewPorts, AreNewBanks};

use crate::bank::BankSide;
use crate::lines::Row;
use crate::parts::{CacheSide, Station};
use crate::past::Past;
use crate::port::{ASK_PLACES, Port, TELLING_PLACES};
use crate::row::Line;
use cache_unit::{ShapedUnit, Sizes, sizes_of};
use flat_model::{MakeFault, Shape, ShapeField, Word};
use memory_banks::BankAnswer;
use rtrb::{Consumer, Producer, RingBuffer};
use station_journal::{Ask, Told};
use std::alloc::{AllocError, Global};
use std::snapshot::Snapshot;

/// Ports of a station, at most.
pub const MAX_PORTS: u32 = 16;

/// Entries of a journal, at most.
pub const MAX_ENTRIES: u32 = 1_048_576;

/// Entries of all journals of a station, at most: 2^56.
pub const MAX_NOTED: u64 = 72_057_594_037_927_936;

/// A station of this shape, as [`shaped_station`] makes one, with the ranges of a
/// [`CacheUnit`](cache_unit::CacheUnit).
///
/// `BadShape` names the first number out of its range, before any memory is asked for: the shape's in their
/// order, `Ports`, `Journal`. `OutOfMemory`: too little memory. After either nothing is made.
#[tactic(auto, using(crate::proofs::Making::found_alike))]
pub fn station<const WAYS: usize, const WORDS: usize, const REGS: usize, const DEPTH: usize>(
    alloc: Global,
    shape: Shape,
    ports: u32,
    journal: u32,
) -> Result<Station, MakeFault>
    ensures ok { IfOk result
        (λ s. IsNewStation (sizes_of WAYS WORDS REGS DEPTH shape) ports journal
        s.cache s.ports.items s.banks.items) }
    ensures in_range { OnOk result
        (bad_field (sizes_of WAYS WORDS REGS DEPTH shape) ports journal ≡ None) }
    ensures fault { IfErr result
        (λ e. e ≡ fault_of (bad_field (sizes_of WAYS WORDS REGS DEPTH shape) ports journal)) }
{
    if let Some(field) = cache_unit::bad_field::<WAYS, WORDS, REGS, DEPTH>(&shape) {
        return Err(MakeFault::BadShape(field));
    }
    let sizes = sizes_of::<WAYS, WORDS, REGS, DEPTH>(&shape);
    shaped_station(alloc, &sizes, ports, journal)
}

/// A station of these numbers over zeros: `ports` ports (1 to 16), a bank side for each bank, and a cache side
/// whose journal takes `journal` entries (1 to 1,048,576).
///
/// `BadShape` names the first number out of its range, before any memory is asked for: those of
/// [`ShapedUnit::new`] in its order, `Ports`, `Journal`. `OutOfMemory`: too little memory. After either nothing
/// is made.
pub fn shaped_station(
    alloc: Global,
    sizes: &Sizes,
    ports: u32,
    journal: u32,
) -> Result<Station, MakeFault>
    ensures ok { IfOk result
        (λ s. IsNewStation sizes.now ports journal s.cache s.ports.items s.banks.items) }
    ensures in_range { OnOk result (bad_size sizes.now ports journal ≡ None) }
    ensures fault { IfErr result (λ e. e ≡ fault_of (bad_size sizes.now ports journal)) }
{
    if let Some(field) = bad_size(sizes, ports, journal) {
        return Err(MakeFault::BadShape(field));
    }
    let unit = make_unit(alloc, sizes)?;
    let ports = make_ports(alloc, ports)?;
    let banks = make_banks(alloc, sizes)?;
    let entries = Vec::with_capacity(alloc, journal as usize)?;
    Ok(Station {
        cache: CacheSide {
            sizes: *sizes,
            unit,
            asks: ports.asks,
            tellings: ports.tellings,
            row: Row { lines: banks.lines },
            answers: banks.answers,
            earlier: Past::none(),
            handed: 0,
            journal: entries,
            limit: journal,
            fault: None,
        },
        ports: ports.ports,
        banks: banks.banks,
    })
}

fn bad_size(sizes: &Sizes, ports: u32, journal: u32) -> Option<ShapeField>
    ensures { result ≡ bad_size sizes.now ports journal }
{
    if let Some(field) = cache_unit::bad_size(sizes) {
        return Some(field);
    }
    if ports < 1 || ports > MAX_PORTS {
        Some(ShapeField::Ports)
    } else if journal < 1 || journal > MAX_ENTRIES {
        Some(ShapeField::Journal)
    } else {
        None
    }
}

fn make_unit(alloc: Global, sizes: &Sizes) -> Result<ShapedUnit, MakeFault>
    requires { limits.bad_size sizes.now ≡ None }
    ensures ok { IfOk result
        (λ u. u ≡ record { sizes = sizes.now; cache = opening_cache sizes.now }) }
    ensures fault { IfErr result (λ e. e ≡ OutOfMemory) }
{
    ShapedUnit::new(alloc, sizes)
}

// Ports, and the cache side's ends of their rings.
#[derive(Drop)]
struct PortEnds {
    ports: Vec<Port>,
    asks: Vec<Consumer<Ask>>,
    tellings: Vec<Producer<Told>>,
}

fn make_ports(alloc: Global, count: u32) -> Result<PortEnds, AllocError>
    ensures new { IfOk result (λ e. AreNewPorts e.ports.items e.asks.items e.tellings.items) }
    ensures number { IfOk result (λ e. length e.ports.items ≡ count) }
{
    let mut ends = PortEnds {
        ports: Vec::with_capacity(alloc, count as usize)?,
        asks: Vec::with_capacity(alloc, count as usize)?,
        tellings: Vec::with_capacity(alloc, count as usize)?,
    };
    for _ in 0..count {
        add_port(alloc, &mut ends)?;
    }
    Ok(ends)
}

fn add_port(alloc: Global, ends: &mut PortEnds) -> Result<(), AllocError>
    requires { AreNewPorts ends.old.ports.items ends.old.asks.items ends.old.tellings.items }
    ensures new { OnOk result
        (AreNewPorts ends.new.ports.items ends.new.asks.items ends.new.tellings.items) }
    ensures number { OnOk result
        (length ends.new.ports.items ≡ length ends.old.ports.items + 1) }
{
    let (asks, from_port) = RingBuffer::new(alloc, ASK_PLACES)?;
    let (to_port, tellings) = RingBuffer::new(alloc, TELLING_PLACES)?;
    let begun = Snapshot::of(&asks);
    ends.asks.push(from_port)?;
    ends.tellings.push(to_port)?;
    ends.ports.push(Port {
        asks,
        tellings,
        begun,
        ended: false,
    })?;
    Ok(())
}

// Banks, and the cache side's ends of their rings.
#[derive(Drop)]
struct BankEnds {
    banks: Vec<BankSide>,
    lines: Vec<Line>,
    answers: Vec<Consumer<BankAnswer>>,
}

fn make_banks(alloc: Global, sizes: &Sizes) -> Result<BankEnds, AllocError>
    requires banks { sizes.now.banks ≤ MAX_BANKS }
    requires queue { sizes.now.bank_queue ≤ MAX_BANK_QUEUE }
    ensures new { IfOk result
        (λ e. AreNewBanks sizes.now e.banks.items e.lines.items e.answers.items) }
    ensures number { IfOk result (λ e. length e.banks.items ≡ sizes.now.banks) }
{
    let mut ends = BankEnds {
        banks: Vec::with_capacity(alloc, sizes.banks as usize)?,
        lines: Vec::with_capacity(alloc, sizes.banks as usize)?,
        answers: Vec::with_capacity(alloc, sizes.banks as usize)?,
    };
    for bank in 0..sizes.banks {
        add_bank(alloc, &mut ends, sizes, bank)?;
    }
    Ok(ends)
}

fn add_bank(alloc: Global, ends: &mut BankEnds, sizes: &Sizes, bank: u32) -> Result<(), AllocError>
    requires there { bank < sizes.now.banks }
    requires few { sizes.now.banks ≤ MAX_BANKS }
    requires queue { sizes.now.bank_queue ≤ MAX_BANK_QUEUE }
    requires new { AreNewBanks sizes.now ends.old.banks.items ends.old.lines.items ends.old.answers.items }
    requires next { length ends.old.banks.items ≡ bank }
    ensures new { OnOk result
        (AreNewBanks sizes.now ends.new.banks.items ends.new.lines.items ends.new.answers.items) }
    ensures number { OnOk result (length ends.new.banks.items ≡ bank + 1) }
{
    let behind = u64::from(sizes.banks - 1 - bank);
    let count = (u64::from(sizes.words) + behind) / u64::from(sizes.banks);
    let words = vec![in alloc; Word::default(); count as usize]?;
    let (to_bank, commands) = RingBuffer::new(alloc, sizes.bank_queue as usize)?;
    let (answers, from_bank) = RingBuffer::new(alloc, sizes.bank_queue as usize)?;
    ends.lines.push(Line::new(to_bank))?;
    ends.answers.push(from_bank)?;
    ends.banks.push(BankSide {
        commands,
        answers,
        words,
    })?;
    Ok(())
}
