//! Asks, entries, tellings and findings as text; events, answers and words as in a trace.
ghost use Rattle.std.specs.Prelude.{Some};
ghost use Rattle.station_checks.specs.Texts.{entry_text, ask_text, told_text};
ghost use Rattle.station_checks.specs.Literals.{ring_literal, audit_literal, findings_literal};

use crate::findings::Findings;
use station_journal::{Ask, Entry, Told};
use station_parts::{Audit, Ring};
use std::fmt::{self, Display, Formatter, Write};

/// A line of a recorded run, or that a port has ended.
#[derive(Clone, Copy)]
pub struct EntryText(pub Entry);

impl Display for EntryText {
    ghost output = { λ entry. Some (entry_text entry.0) };

    fn fmt<W: Write>(&self, f: &mut Formatter<W>) -> fmt::Result {
        match self.0 {
            Entry::Step { event, answer, .. } => write!(f, "{event} -> {answer}"),
            Entry::Ended { port } => write!(f, "port {port} has ended"),
        }
    }
}

/// What a port asks.
#[derive(Clone, Copy)]
pub struct AskText(pub Ask);

impl Display for AskText {
    ghost output = { λ ask. Some (ask_text ask.0) };

    fn fmt<W: Write>(&self, f: &mut Formatter<W>) -> fmt::Result {
        match self.0 {
            Ask::Load { tag, at } => write!(f, "load {tag} {at}"),
            Ask::Store { at, word, lanes } => write!(f, "store {at} {lanes} {word}"),
            Ask::Prefetch { at } => write!(f, "prefetch {at}"),
            Ask::Evict { block } => write!(f, "evict {block}"),
            Ask::Done => f.write_str("done"),
        }
    }
}

/// What a port is told.
#[derive(Clone, Copy)]
pub struct ToldText(pub Told);

impl Display for ToldText {
    ghost output = { λ told. Some (told_text told.0) };

    fn fmt<W: Write>(&self, f: &mut Formatter<W>) -> fmt::Result {
        match self.0 {
            Told::Accepted => f.write_str("accepted"),
            Told::Refused(cause) => {
                let number = cause.number();
                write!(f, "refused {number}")
            }
            Told::Value { tag, word } => write!(f, "value {tag} {word}"),
        }
    }
}

#[derive(Clone, Copy)]
struct RingText(Ring);

impl Display for RingText {
    ghost output = { λ ring. Some (ring_literal ring.0) };

    fn fmt<W: Write>(&self, f: &mut Formatter<W>) -> fmt::Result {
        match self.0 {
            Ring::Asks(port) => write!(f, "Asks({port})"),
            Ring::Told(port) => write!(f, "Told({port})"),
            Ring::Commands(bank) => write!(f, "Commands({bank})"),
            Ring::Answers(bank) => write!(f, "Answers({bank})"),
        }
    }
}

#[derive(Clone, Copy)]
pub(crate) struct AuditText(pub(crate) Audit);

impl Display for AuditText {
    ghost output = { λ audit. Some (audit_literal audit.0) };

    fn fmt<W: Write>(&self, f: &mut Formatter<W>) -> fmt::Result {
        match self.0 {
            Audit::Faulted => f.write_str("Faulted"),
            Audit::Left { ring } => {
                let ring = RingText(ring);
                write!(f, "Left {{ ring: {ring} }}")
            }
            Audit::Owed { count } => write!(f, "Owed {{ count: {count} }}"),
            Audit::Clean => f.write_str("Clean"),
        }
    }
}

/// Findings, as a value is written in the code.
#[derive(Clone, Copy)]
pub struct FindingsText(pub Findings);

impl Display for FindingsText {
    ghost output = { λ found. Some (findings_literal found.0) };

    fn fmt<W: Write>(&self, f: &mut Formatter<W>) -> fmt::Result {
        let Findings {
            audit,
            is_flat,
            are_told,
        } = self.0;
        let audit = AuditText(audit);
        match are_told {
            None => write!(
                f,
                "Findings {{ audit: {audit}, is_flat: {is_flat}, are_told: None }}"
            ),
            Some(told) => write!(
                f,
                "Findings {{ audit: {audit}, is_flat: {is_flat}, are_told: Some({told}) }}"
            ),
        }
    }
}
