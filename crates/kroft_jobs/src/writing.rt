//! Texts, written to their end.

ghost use Rattle.std.specs.Prelude.{◌≡◌, OnOk, OnErr, IfErr};
ghost use Rattle.kroft_jobs.specs.Writing.{IsPut, IsCut};

use trace_text::{Sink, TraceFault, write_whole};

/// Writes a text whole, and flushes it. `Write`: a write or the flush was refused; the rest isn't
/// tried.
pub fn put_text<O: Sink>(output: &mut O, text: &[u8]) -> Result<(), TraceFault>
    ensures ok { OnOk result (IsPut O.took output.old text.now output.new) }
    ensures err { OnErr result (IsCut O.took O.refused O.unflushed output.old text.now output.new) }
    ensures fault { IfErr result (λ fault. fault ≡ TraceFault.Write) }
{
    if write_whole(output, text).is_err() {
        return Err(TraceFault::Write);
    }
    match output.flush_all() {
        Ok(()) => Ok(()),
        Err(_) => Err(TraceFault::Write),
    }
}
