//! Readers and writers whose answers a clause can follow.

ghost use Rattle.std.specs.Prelude.{◌≡◌, ℕ, List, [], ◌<◌, length, take, IfOk, OnErr, OnOk, Ok};
ghost use Rattle.std.specs.Io.{ReadsAtMost, WritesAtMost};
ghost use Rattle.std.specs.Io.KnownBytes.{Keeps, Appends, Consumes, IsAtEnd};

use std::io;
use std::io::{Read, Write};

/// A reader, as each of std.
pub trait Source {
    // A read gave these bytes; none at the end.
    ghost gave: { Self → List ℕ → Self → Type 0 };

    // A read answered an error.
    ghost failed: { Self → Self → Type 0 };

    /// Reads into the front of `buf`: 0 bytes at the end, and on an error.
    fn read_some(&mut self, buf: &mut [u8]) -> io::Result<usize>
        requires { 0 < length buf.old }
        ensures bound { ReadsAtMost result buf.new }
        ensures gave { IfOk result (λ n. gave self.old (take n buf.new) self.new) }
        ensures failed { OnErr result (failed self.old self.new) };
}

impl<R: Read> Source for R {
    ghost gave = { λ s bytes t. Consumes (R.remaining s) (R.remaining t) bytes × (bytes ≡ [] → IsAtEnd (R.remaining t)) };

    ghost failed = { λ s t. Keeps (R.remaining s) (R.remaining t) };

    fn read_some(&mut self, buf: &mut [u8]) -> io::Result<usize> {
        self.read(buf)
    }
}

/// A writer, as each of std.
pub trait Sink {
    // A write took these bytes, or a flush none.
    ghost took: { Self → List ℕ → Self → Type 0 };

    // A write answered an error, or took no byte.
    ghost refused: { Self → Self → Type 0 };

    // A flush answered an error.
    ghost unflushed: { Self → Self → Type 0 };

    /// Writes a front of `buf`, and says how many bytes. An error, or 0, is a refusal.
    fn write_some(&mut self, buf: &[u8]) -> io::Result<usize>
        requires { 0 < length buf.now }
        ensures bound { WritesAtMost result buf.now }
        ensures took { IfOk result (λ n. 0 < n → took self.old (take n buf.now) self.new) }
        ensures none { result ≡ Ok 0 → refused self.old self.new }
        ensures err { OnErr result (refused self.old self.new) };

    /// Brings out all that it took.
    fn flush_all(&mut self) -> io::Result<()>
        ensures ok { OnOk result (took self.old [] self.new) }
        ensures err { OnErr result (unflushed self.old self.new) };
}

impl<W: Write> Sink for W {
    ghost took = { λ s bytes t. Appends (W.contents s) (W.contents t) bytes };

    ghost refused = { λ s t. Keeps (W.contents s) (W.contents t) };

    ghost unflushed = { λ s t. Keeps (W.contents s) (W.contents t) };

    fn write_some(&mut self, buf: &[u8]) -> io::Result<usize> {
        self.write(buf)
    }

    fn flush_all(&mut self) -> io::Result<()> {
        self.flush()
    }
}
