//! A history is judged as it comes.

ghost use Rattle.std.specs.Prelude.{◌≡◌};
ghost use Rattle.history_sessions.specs.Session.{session_opening};
ghost use Rattle.history_text.specs.Histories.{Judges, ended_by};

use crate::answers::HistoryEnd;
use crate::reading::Judging;
use crate::refusals::Stop;
use history_sessions::{HistoryLaw, HistorySession, Rest};
use std::alloc::Global;
use trace_text::{BUFFER_LEN, MAX_PAIR, Source, Stop as ReadStop, TraceFault, read_lines_within};

impl Stop {
    pub(crate) fn ended(self) -> Result<HistoryEnd, TraceFault>
        ensures { result ≡ ended_by self }
    {
        match self {
            Stop::Refused(refusal) => Ok(HistoryEnd::Refused(refusal)),
            Stop::Undecided { line, address } => Ok(HistoryEnd::Undecided { line, address }),
            Stop::Fault(fault) => Err(fault),
        }
    }
}

/// Reads a history up to the first line that is none of the law or can't be read, and says what
/// became of it. Lines are read as by [`read_history_line`](crate::read_history_line), with 768
/// bytes at most. Memory begins with the image, from address 0 on, and then as `rest` says.
///
/// Nothing is read behind the piece in which that line ends, so a pipe's answer comes with the
/// line. A fault gives no answer. [`TraceFault::TooManyLines`] says that line 2^64 begins.
/// [`TraceFault::OutOfMemory`] may come in place of any answer, [`TraceFault::Write`] never.
/// [`HistoryEnd::Undecided`], by the atomic law: a unit would have more than `limit` pairs of a
/// word and the stores in effect to follow, or too many earlier words.
///
/// Beside the judge's memory: a buffer of 4,096 bytes, the open operations, and 8,191 bytes of
/// stores.
pub fn judge_by_law<R: Source>(
    alloc: Global,
    reader: &mut R,
    law: HistoryLaw,
    image: &[u8],
    rest: Rest,
) -> Result<HistoryEnd, TraceFault>
    ensures { Judges R.gave R.failed (session_opening law image.now rest) reader.old reader.new result }
{
    let session = HistorySession::new(alloc, law, image, rest)?;
    let mut judging = Judging::new(alloc, session);
    let mut buffer = vec![in alloc; 0u8; BUFFER_LEN]?;
    match read_lines_within(reader, &mut judging, MAX_PAIR, u64::MAX, &mut buffer) {
        Ok(()) => Ok(judging.end()),
        Err(ReadStop::Fault(fault)) => Err(fault),
        Err(ReadStop::Halted) => judging.stop.ended(),
    }
}
