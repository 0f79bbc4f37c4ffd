//! A check of a run whose loads must all be answered.

ghost use Rattle.std.specs.Prelude.{◌≡◌, ℕ, List, Some, IfOk, IfErr};
ghost use Rattle.flat_model.specs.Flat.{Flat};
ghost use Rattle.flat_model.specs.Memory.{shown};
ghost use Rattle.flat_model.specs.Images.{flat_from};
ghost use Rattle.kroft_jobs.specs.Words.{MAX_PAIR};
ghost use Rattle.trace_text.specs.Reading.{ReadWhole, ReadFails};
ghost use Rattle.trace_text.specs.Checks.{pair_fault, IsJudgedFrom};
ghost use Rattle.kroft_jobs.specs.Answering.{tags_owed, open_text, tags_text, answered_text, answered_status};

use crate::jobs::Verdict;
use flat_model::{FlatMemory, Image};
use register_sweeps::Sizes;
use std::alloc::{AllocError, Global};
use std::fmt;
use trace_text::{CheckEnd, Source, TraceFault, check_from};

const TAGS: u32 = u16::MAX as u32 + 1;

/// What such a check found.
#[derive(Drop)]
pub struct AnsweredVerdict {
    /// What was found.
    pub end: CheckEnd,
    /// Tags still owed a value, lowest first.
    pub tags: Vec<u16>,
}

impl AnsweredVerdict {
    /// 0: a flat run with no open load; else 1.
    pub fn status(&self) -> u8
        ensures { result ≡ answered_status self.now.end self.now.tags.items }
    {
        match self.end {
            CheckEnd::Flat { .. } if self.tags.is_empty() => 0,
            CheckEnd::Flat { .. } | CheckEnd::Mismatch { .. } => 1,
        }
    }
}

/// The verdict, and behind a flat run its open loads: `flat run, 9 steps, 2 loads open: tags 3 7`.
impl fmt::Display for AnsweredVerdict {
    ghost output = { λ verdict. Some (answered_text verdict.end verdict.tags.items) };

    fn fmt<W: fmt::Write>(&self, f: &mut fmt::Formatter<W>) -> fmt::Result {
        let verdict = Verdict(self.end);
        let loads = OpenLoads(self.tags.as_slice());
        match self.end {
            CheckEnd::Flat { .. } => write!(f, "{verdict}{loads}"),
            CheckEnd::Mismatch { .. } => write!(f, "{verdict}"),
        }
    }
}

// The open loads, if any.
#[derive(Clone, Copy)]
struct OpenLoads<'a>(&'a [u16]);

impl<'a> fmt::Display for OpenLoads<'a> {
    ghost output = { λ loads. Some (open_text loads.0.now) };

    #[tactic(auto, unfolding(crate::specs::Answering::open_text))]
    fn fmt<W: fmt::Write>(&self, f: &mut fmt::Formatter<W>) -> fmt::Result {
        let count = self.0.len();
        let tags = Tags(self.0);
        if count == 0 {
            return Ok(());
        }
        write!(f, ", {count} loads open: tags{tags}")
    }
}

// Each tag behind a space.
#[derive(Clone, Copy)]
struct Tags<'a>(&'a [u16]);

impl<'a> fmt::Display for Tags<'a> {
    ghost output = { λ tags. Some (tags_text tags.0.now) };

    #[tactic(auto, unfolding(crate::specs::Answering::tags_text))]
    fn fmt<W: fmt::Write>(&self, f: &mut fmt::Formatter<W>) -> fmt::Result {
        for tag in self.0 {
            write!(f, " {tag}")?;
        }
        Ok(())
    }
}

/// Judges as [`check`](crate::check) does, and lists unanswered loads.
pub fn check_answered<I: Source>(
    alloc: Global,
    sizes: &Sizes,
    image: &Image,
    input: &mut I,
) -> Result<AnsweredVerdict, TraceFault>
    ensures judged { IfOk result
        (λ verdict. (texts : List (List ℕ)) × (last : Flat)
        × ReadWhole I.gave pair_fault MAX_PAIR input.old input.new texts
        × IsJudgedFrom (flat_from image.now sizes.now.words) texts verdict.end last
        × (verdict.tags.items ≡ tags_owed last)) }
    ensures fault { IfErr result
        (ReadFails I.gave I.failed pair_fault MAX_PAIR input.old input.new) }
{
    let memory = image.flat_memory(alloc, sizes.words)?;
    let checked = check_from(alloc, input, memory)?;
    let tags = open_tags(alloc, &checked.memory)?;
    Ok(AnsweredVerdict {
        end: checked.end,
        tags,
    })
}

#[tactic(auto, unfolding(crate::specs::Answering::tags_owed))]
fn open_tags(alloc: Global, memory: &FlatMemory) -> Result<Vec<u16>, AllocError>
    ensures { IfOk result (λ tags. tags.items ≡ tags_owed (shown memory.now)) }
{
    let mut tags = Vec::new(alloc);
    for number in 0..TAGS {
        let tag = number as u16;
        if memory.due_word(tag).is_some() {
            tags.push(tag)?;
        }
    }
    Ok(tags)
}
