//! Statuses of calls, as numbers.
ghost use Rattle.std.specs.Prelude.{◌≡◌};
ghost use Rattle.history_handles.specs.Status.{fault_number, judge_number};

use history_sessions::JudgeFault;
use memory_histories::HistoryFault;

pub(crate) const DONE: u32 = 0;

pub(crate) const ABSENT: u32 = 1;

pub(crate) const CLOSED: u32 = 100;

pub(crate) const OUT_OF_MEMORY: u32 = 101;

pub(crate) const OPEN_ALREADY: u32 = 102;

pub(crate) const NO_LAW: u32 = 103;

/// Never by the atomic law.
pub(crate) const TOO_LONG: u32 = 104;

/// Too many ways to follow, or words kept, at a unit.
pub(crate) const UNDECIDED: u32 = 105;

/// Of a unit to be forgotten: the law has none.
pub(crate) const NO_UNITS: u32 = 108;

pub(crate) const NO_ROOM: u32 = 109;

pub(crate) const WRONG_BYTE: u32 = 156;

pub(crate) fn fault_number(fault: HistoryFault) -> u32
    ensures { result ≡ fault_number fault }
{
    match fault {
        HistoryFault::OutOfRange => 151,
        HistoryFault::NoByteEnabled => 152,
        HistoryFault::NumberInUse => 153,
        HistoryFault::NotOpen => 154,
        HistoryFault::WrongLength => 155,
        HistoryFault::WrongByte { place: _ } => WRONG_BYTE,
    }
}

pub(crate) fn judge_number(fault: JudgeFault) -> u32
    ensures { result ≡ judge_number fault }
{
    match fault {
        JudgeFault::Refused(cause) => fault_number(cause),
        JudgeFault::Undecided { address: _ } => UNDECIDED,
        JudgeFault::TooLong => TOO_LONG,
        JudgeFault::OutOfMemory => OUT_OF_MEMORY,
    }
}
