ghost use Rattle.std.specs.Prelude.{◌≡◌, ◌<◌, true, false, [], length, take, IsErr, IfOk, IfErr, OnOk, OnErr};
ghost use Rattle.std.specs.IoError.{error_kind};
ghost use Rattle.std.specs.Io.{WritesAtMost};
ghost use Rattle.std.specs.Io.KnownBytes.{Keeps, WriteAppends};
ghost use Rattle.kroft_command.specs.OneTry.{writer_behind, has_failed};

use std::io::{Error, ErrorKind, Result, Write};
use trace_text::Sink;

/// Writes to another writer until a write or a flush fails, or a write takes no byte. From then on
/// that writer is asked nothing, and each call fails. An interruption is told as another failure,
/// since callers try those again. A write of no bytes asks nothing.
#[derive(Drop)]
pub struct OneTryWriter<W> {
    writer: W,
    has_failed: bool,
}

impl<W> OneTryWriter<W> {
    /// A writer that hasn't failed yet.
    pub fn new(writer: W) -> OneTryWriter<W>
        ensures writer { writer_behind result ≡ writer }
        ensures fresh { has_failed result ≡ false }
    {
        OneTryWriter {
            writer,
            has_failed: false,
        }
    }

    // It has failed, for good.
    fn fail(&mut self) -> Error
        ensures state { self.new ≡ record self.old { has_failed = true } }
        ensures kind { error_kind result ≡ ErrorKind.Other }
    {
        self.has_failed = true;
        Error::from(ErrorKind::Other)
    }
}

impl<W: Sink> OneTryWriter<W> {
    fn pass_on(&mut self, buf: &[u8]) -> Result<usize>
        requires { 0 < length buf.now }
        ensures bound { WritesAtMost result buf.now }
        ensures once { has_failed self.old ≡ true → IsErr result × (self.new ≡ self.old) }
        ensures some { IfOk result (λ count. 0 < count) }
        ensures took { IfOk result
            (λ count. W.took (writer_behind self.old) (take count buf.now) (writer_behind self.new)) }
        ensures refused { has_failed self.old ≡ false
            → OnErr result (W.refused (writer_behind self.old) (writer_behind self.new)) }
        ensures holds { OnOk result (has_failed self.new ≡ false) }
        ensures failed { OnErr result (has_failed self.new ≡ true) }
        ensures kind { IfErr result (λ e. error_kind e ≡ ErrorKind.Other) }
    {
        if self.has_failed {
            return Err(self.fail());
        }
        match self.writer.write_some(buf) {
            Ok(0) => Err(self.fail()),
            Ok(count) => Ok(count),
            Err(_) => Err(self.fail()),
        }
    }

    fn flush_on(&mut self) -> Result<()>
        ensures once { has_failed self.old ≡ true → IsErr result × (self.new ≡ self.old) }
        ensures took { OnOk result (W.took (writer_behind self.old) [] (writer_behind self.new)) }
        ensures refused { has_failed self.old ≡ false
            → OnErr result (W.unflushed (writer_behind self.old) (writer_behind self.new)) }
        ensures holds { OnOk result (has_failed self.new ≡ false) }
        ensures failed { OnErr result (has_failed self.new ≡ true) }
        ensures kind { IfErr result (λ e. error_kind e ≡ ErrorKind.Other) }
    {
        if self.has_failed {
            return Err(self.fail());
        }
        match self.writer.flush_all() {
            Ok(()) => Ok(()),
            Err(_) => Err(self.fail()),
        }
    }
}

impl<W: Write> Write for OneTryWriter<W> {
    ghost contents = { λ w. W.contents (writer_behind w) };

    fn write(&mut self, buf: &[u8]) -> Result<usize>
        ensures bound { WritesAtMost result buf.now }
        ensures bytes { WriteAppends (W.contents (writer_behind self.old)) (W.contents (writer_behind self.new)) result buf.now }
        ensures once { has_failed self.old ≡ true → IsErr result × (self.new ≡ self.old) }
        ensures taken { IfOk result (λ count. count ≡ 0 → length buf.now ≡ 0) }
        ensures unasked { has_failed self.old ≡ false → length buf.now ≡ 0 → (result ≡ Ok 0) × (self.new ≡ self.old) }
        ensures holds { OnOk result (has_failed self.new ≡ false) }
        ensures failed { OnErr result (has_failed self.new ≡ true) }
        ensures kind { IfErr result (λ e. error_kind e ≡ ErrorKind.Other) }
    {
        if !buf.is_empty() {
            return self.pass_on(buf);
        }
        if self.has_failed {
            return Err(self.fail());
        }
        Ok(0)
    }

    fn flush(&mut self) -> Result<()>
        ensures bytes { Keeps (W.contents (writer_behind self.old)) (W.contents (writer_behind self.new)) }
        ensures once { has_failed self.old ≡ true → IsErr result × (self.new ≡ self.old) }
        ensures holds { OnOk result (has_failed self.new ≡ false) }
        ensures failed { OnErr result (has_failed self.new ≡ true) }
        ensures kind { IfErr result (λ e. error_kind e ≡ ErrorKind.Other) }
    {
        self.flush_on()
    }
}
