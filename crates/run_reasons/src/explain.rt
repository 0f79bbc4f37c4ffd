//! A recorded run is read as it comes, and its first mismatch explained.

ghost use Rattle.std.specs.Prelude.{◌≡◌, Some};
ghost use Rattle.flat_model.specs.Images.{memory_from};
ghost use Rattle.run_reasons.specs.Lines.{explained_by};
ghost use Rattle.run_reasons.specs.Runs.{Explains, status_of};
ghost use Rattle.run_reasons.specs.Texts.{explanation_text};

use crate::lines::Explaining;
use crate::reason::Mismatch;
use flat_model::Image;
use std::alloc::Global;
use std::fmt;
use trace_text::{BUFFER_LEN, MAX_PAIR, Source, Stop, TraceFault, read_lines_within};

/// What became of a recorded run.
#[derive(Clone, Copy, PartialEq, Eq, Debug)]
pub enum Explanation {
    /// It is a run of flat memory, of so many events.
    Flat {
        /// How many of its lines are events.
        steps: u64,
    },
    /// Flat memory can't answer this line of it.
    Mismatch(Mismatch),
}

impl Explanation {
    /// The status with which a program ends that tells it: 0 for a flat run, 1 for a mismatch.
    pub fn status(&self) -> u8
        ensures { result ≡ status_of self.now }
    {
        match self {
            Explanation::Flat { .. } => 0,
            Explanation::Mismatch(_) => 1,
        }
    }
}

/// `flat run, N steps`, or the text of the mismatch; no line feed stands at the end.
impl fmt::Display for Explanation {
    ghost output = { λ explanation. Some (explanation_text explanation) };

    fn fmt<W: fmt::Write>(&self, f: &mut fmt::Formatter<W>) -> fmt::Result {
        match self {
            Explanation::Flat { steps } => write!(f, "flat run, {steps} steps"),
            Explanation::Mismatch(mismatch) => write!(f, "{mismatch}"),
        }
    }
}

impl Explaining {
    // What is said where the reading stopped at a line.
    fn told(&self) -> Result<Explanation, TraceFault>
        ensures { result ≡ explained_by self.now.mismatch }
    {
        match self.mismatch {
            Some(mismatch) => Ok(Explanation::Mismatch(mismatch)),
            None => Err(TraceFault::OutOfMemory),
        }
    }
}

/// Reads a recorded run as it comes, over `words` words of an image, up to the first line that flat
/// memory can't answer, and says why. Each line is read as by
/// [`read_pair`](trace_text::read_pair). Nothing is read behind the piece in which that line ends:
/// so on a pipe that is still being written the answer comes with the line. A faulty line ends the
/// reading at once too. [`check_text`](trace_text::check_text) finds the same line first, and reads on
/// behind it.
///
/// A fault gives no explanation: [`TraceFault::Line`] with the number of the line, counted from 1,
/// that can't be read; [`TraceFault::Read`] if the reader answered an error;
/// [`TraceFault::TooManyLines`] if line 2^64 begins. [`TraceFault::OutOfMemory`] may come in place of
/// any answer, and [`TraceFault::Write`] never comes.
///
/// Before the first read memory is taken for the words and for the last store of each of their bytes,
/// for what became of the 65,536 tags, and one buffer of 4,096 bytes. What is taken later grows with
/// the tags that are owed a word at a time, with the different values that stores overwrote in each
/// byte, and with the stores to words of open loads: those are forgotten whenever no load is open at all. So a
/// run has no limit of lines but their number's, and one in which some load is always open needs some 8 bytes more
/// for each store to a word of one.
pub fn explain_text<R: Source>(
    alloc: Global,
    reader: &mut R,
    image: &Image,
    words: u32,
) -> Result<Explanation, TraceFault>
    ensures { Explains R.gave R.failed (memory_from image.now words) reader.old reader.new result }
{
    let mut explaining = Explaining::new(alloc, image, words)?;
    let mut buffer = vec![in alloc; 0u8; BUFFER_LEN]?;
    match read_lines_within(reader, &mut explaining, MAX_PAIR, u64::MAX, &mut buffer) {
        Ok(()) => Ok(Explanation::Flat {
            steps: explaining.steps,
        }),
        Err(Stop::Fault(fault)) => Err(fault),
        Err(Stop::Halted) => explaining.told(),
    }
}
