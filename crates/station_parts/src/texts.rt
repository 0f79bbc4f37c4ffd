//! What an audit finds, and why a station wasn't renewed, as text.
ghost use Rattle.std.specs.Prelude.{Some};
ghost use Rattle.station_parts.specs.Texts.{ring_text, audit_text, renew_fault_text};

use crate::parts::{Audit, Ring};
use crate::renewal::RenewFault;
use std::fmt::{self, Display, Formatter, Write};

/// As `asks of port 3`, or `answers of bank 0`.
impl Display for Ring {
    ghost output = { λ ring. Some (ring_text ring) };

    fn fmt<W: Write>(&self, f: &mut Formatter<W>) -> fmt::Result {
        match *self {
            Ring::Asks(port) => write!(f, "asks of port {port}"),
            Ring::Told(port) => write!(f, "tellings of port {port}"),
            Ring::Commands(bank) => write!(f, "commands of bank {bank}"),
            Ring::Answers(bank) => write!(f, "answers of bank {bank}"),
        }
    }
}

/// `clean`, `faulted`, or as `left: asks of port 3` or `owed: 2`.
impl Display for Audit {
    ghost output = { λ found. Some (audit_text found) };

    fn fmt<W: Write>(&self, f: &mut Formatter<W>) -> fmt::Result {
        match *self {
            Audit::Faulted => f.write_str("faulted"),
            Audit::Left { ring } => write!(f, "left: {ring}"),
            Audit::Owed { count } => write!(f, "owed: {count}"),
            Audit::Clean => f.write_str("clean"),
        }
    }
}

/// A fault's text.
#[derive(Drop)]
pub struct FaultText<'a>(pub &'a RenewFault);

/// `worn out`, `out of memory`, or what the audit found, as `not clean, owed: 2`.
impl Display for FaultText<'_> {
    ghost output = { λ told. Some (renew_fault_text told.0.now) };

    fn fmt<W: Write>(&self, f: &mut Formatter<W>) -> fmt::Result {
        match *self.0 {
            RenewFault::WornOut => f.write_str("worn out"),
            RenewFault::OutOfMemory => f.write_str("out of memory"),
            RenewFault::NotClean(found) => write!(f, "not clean, {found}"),
        }
    }
}
