//! A run, as lines that a check reads.
ghost use Rattle.std.specs.Prelude.{◌≡◌, IfOk};
ghost use Rattle.std.specs.String.{string_bytes};
ghost use Rattle.round_driver.specs.Written.{note_line, run_text};

use crate::note::Note;
use std::alloc::{AllocError, Global};
use trace_text::written_pair;

// The line of a note.
#[tactic(auto, unfolding(crate::specs::Written::note_line))]
fn line_of(alloc: Global, note: &Note) -> Result<String, AllocError>
    ensures { IfOk result (λ text. string_bytes text ≡ note_line note.now) }
{
    written_pair(alloc, note.event, note.answer)
}

// The lines of these notes.
pub(crate) fn round_text(alloc: Global, notes: &[Note]) -> Result<String, AllocError>
    ensures { IfOk result (λ text. string_bytes text ≡ run_text notes.now) }
{
    let mut text = String::new(alloc);
    for note in notes {
        let line = line_of(alloc, note)?;
        text.push_str(line.as_str())?;
    }
    Ok(text)
}
