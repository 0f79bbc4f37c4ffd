//! Inputs and outputs that fail, and how much is read at once.

use kroft_command::tool;
use std::io;
use std::io::{Read, Write};
use std::process::Abort;
use std::rt::Files;
use std::test::Fail;
use std::thread::Threads;

// Fails at its first call, and would end at the next.
#[derive(Drop)]
struct FailsOnce {
    calls: usize,
}

impl Read for FailsOnce {
    fn read(&mut self, _buf: &mut [u8]) -> io::Result<usize> {
        self.calls = self.calls.saturating_add(1);
        if self.calls == 1 {
            return Err(io::Error::from(io::ErrorKind::Other));
        }
        Ok(0)
    }
}

#[test]
fn a_failed_read_ends_each_job(rt: HostRuntime) -> Result<(), Fail> {
    let jobs: [&[&str]; 12] = [
        &["run"],
        &["check"],
        &["sweep"],
        &["sweep", "--latency", "0"],
        &["explain"],
        &["grade"],
        &["drive"],
        &["drive", "--summary"],
        &["show"],
        &["requests", "--from", "din"],
        &["history"],
        &["history", "--values"],
    ];
    for words in jobs {
        let mut input = FailsOnce { calls: 0 };
        let mut output = Vec::new(rt.alloc());
        let mut errors = Vec::new(rt.alloc());
        let status = tool(&rt, words, &mut input, &mut output, &mut errors);
        let ended = (status, output.as_slice(), errors.as_slice(), input.calls);
        assert_eq!(rt; ended, (4, b"".as_slice(), b"read failed\n".as_slice(), 1));
    }
    Ok(())
}

/// Fails at its first write, or the first flush behind one, and would go on.
#[derive(Drop)]
struct RefusesOnce {
    writes: bool,
    refused: bool,
    taken: usize,
}

impl RefusesOnce {
    /// Refuses the first call that comes here.
    fn answer(&mut self) -> io::Result<()> {
        if self.refused {
            return Ok(());
        }
        self.refused = true;
        Err(io::Error::from(io::ErrorKind::Other))
    }
}

impl Write for RefusesOnce {
    fn write(&mut self, buf: &[u8]) -> io::Result<usize> {
        if self.writes {
            self.answer()?;
        }
        self.taken = self.taken.saturating_add(buf.len());
        Ok(buf.len())
    }

    fn flush(&mut self) -> io::Result<()> {
        if self.writes || self.taken == 0 {
            return Ok(());
        }
        self.answer()
    }
}

fn is_refused<R: Abort + AllocGlobal + Files + Threads + Sync>(
    rt: &R,
    words: &[&str],
    input: &str,
    writes: bool,
) {
    let mut output = RefusesOnce {
        writes,
        refused: false,
        taken: 0,
    };
    let mut errors = Vec::new(rt.alloc());
    let status = tool(rt, words, &mut input.as_bytes(), &mut output, &mut errors);
    let ended = (status, errors.as_slice(), output.taken == 0);
    assert_eq!(rt; ended, (4, b"write failed\n".as_slice(), writes));
}

#[test]
fn a_refused_write_or_flush_ends_each_job(rt: HostRuntime) -> Result<(), Fail> {
    let one_page: &[&str] = &["requests", "--from", "din", "--words", "1024"];
    let jobs: [(&[&str], &str); 18] = [
        (&["run"], "drain\n"),
        (&["check"], "drain -> nothing\n"),
        (&["check"], "drain -> accepted\n"),
        (&["sweep"], "load 1 0\n"),
        (&["sweep", "--latency", "0"], "load 1 0\n"),
        (&["explain"], "drain -> nothing\n"),
        (&["explain"], "drain -> accepted\n"),
        (&["grade"], "drain -> nothing\n"),
        (&["drive"], "load 1 0\n"),
        (&["drive", "--summary"], "load 1 0\n"),
        (&["show"], "drain\n"),
        (&["show", "--text"], "drain\n"),
        (&["show", "--vcd"], "drain\n"),
        (&["history"], "load-request 7 0x1000 1\n"),
        (&["history", "--values"], "load-request 7 0x1000 1\n"),
        (&["--help"], ""),
        (one_page, "0 0\n"),
        // The flush goes before the page's fault.
        (one_page, "0 0\n0 1000\n"),
    ];
    for (words, input) in jobs {
        is_refused(&rt, words, input, true);
        is_refused(&rt, words, input, false);
    }
    Ok(())
}

/// A page again and again, one a read.
#[derive(Drop)]
struct Repeated<'a> {
    page: &'a [u8],
    pages: u32,
    /// The largest read's room.
    room: usize,
}

impl Read for Repeated<'_> {
    fn read(&mut self, buf: &mut [u8]) -> io::Result<usize> {
        self.room = self.room.max(buf.len());
        if self.pages == 0 {
            return Ok(0);
        }
        self.pages -= 1;
        let n = self.page.len().min(buf.len());
        buf[..n].copy_from_slice(&self.page[..n]);
        Ok(n)
    }
}

// A page of 2,176 bytes fits at once; what is read is let go before the next one.
#[test]
fn one_buffer_of_4096_bytes(rt: HostRuntime) -> Result<(), Fail> {
    let page = "drain -> nothing\n".repeat(rt.alloc(), 128)?;
    let mut text = Repeated {
        page: page.as_bytes(),
        pages: 1_000,
        room: 0,
    };
    let mut output = Vec::new(rt.alloc());
    let mut errors = Vec::new(rt.alloc());
    let status = tool(&rt, &["check"], &mut text, &mut output, &mut errors);
    let ended = (status, output.as_slice(), errors.as_slice(), text.room);
    let wanted = b"flat run, 128000 steps\n".as_slice();
    assert_eq!(rt; ended, (0, wanted, b"".as_slice(), 4_096));
    Ok(())
}
