//! The order in which a trace is read, and its answers are written and flushed.

use super::fixture::{default_machine, same};
use std::alloc::Global;
use std::cell::RefCell;
use std::io;
use std::io::{Read, Write};
use std::test::Fail;
use trace_text::serve_text;

/// What a reader gave behind `<`, what a writer took behind `>`, `!` for a flush.
type Log = RefCell<Vec<u8>>;

// Notes a piece. Without the log the stream fails.
fn note(log: &Log, mark: u8, bytes: &[u8]) -> io::Result<()> {
    let Ok(mut log) = log.try_borrow_mut() else {
        return Err(io::Error::from(io::ErrorKind::Other));
    };
    log.push(mark)?;
    log.extend_from_slice(bytes)?;
    Ok(())
}

/// Gives one piece in each read.
#[derive(Drop)]
struct NotedReader<'a> {
    pieces: &'a [&'a str],
    given: usize,
    log: &'a Log,
}

impl Read for NotedReader<'_> {
    fn read(&mut self, buf: &mut [u8]) -> io::Result<usize> {
        let bytes = match self.pieces.get(self.given) {
            Some(piece) => piece.as_bytes(),
            None => b"",
        };
        let n = bytes.len().min(buf.len());
        buf[..n].copy_from_slice(&bytes[..n]);
        note(self.log, b'<', &bytes[..n])?;
        self.given = self.given.saturating_add(1);
        Ok(n)
    }
}

// Takes at most 16 bytes in each write.
#[derive(Drop)]
struct NotedWriter<'a> {
    log: &'a Log,
}

impl Write for NotedWriter<'_> {
    fn write(&mut self, buf: &[u8]) -> io::Result<usize> {
        let n = buf.len().min(16);
        note(self.log, b'>', &buf[..n])?;
        Ok(n)
    }

    fn flush(&mut self) -> io::Result<()> {
        note(self.log, b'!', b"")
    }
}

fn log_of(alloc: Global, pieces: &[&str]) -> Result<Vec<u8>, Fail> {
    let log = RefCell::new(Vec::new(alloc));
    let mut machine = default_machine(alloc)?;
    let mut reader = NotedReader {
        pieces,
        given: 0,
        log: &log,
    };
    let mut writer = NotedWriter { log: &log };
    let _ended = serve_text(alloc, &mut reader, &mut writer, &mut machine);
    Ok(log.into_inner())
}

/// What a reader gives, and the log of serving it.
const LOGS: &[(&str, &[&str], &str)] = &[
    (
        "each_answer_is_written_before_the_next_read",
        &["load 1 4\n", "serve 0\narr", "ive 0 0\n"],
        "!<load 1 4
>load 1 4 -> acce>pted
!<serve 0
arr>serve 0 -> moved>
!<ive 0 0
>arrive 0 0 -> mo>ved
!<",
    ),
    (
        "answers_are_flushed_before_a_fault",
        &["drain\njump\ndrain\n"],
        "!<drain
jump
drain
>drain -> nothing>
!",
    ),
];

#[test]
fn order_of_reads_writes_and_flushes(rt: HostRuntime) -> Result<(), Fail> {
    for (name, pieces, wanted) in LOGS {
        let log = log_of(rt.alloc(), pieces)?;
        same(&rt, name, std::str::from_utf8(log.as_slice())?, *wanted);
    }
    Ok(())
}
