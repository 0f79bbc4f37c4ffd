//! A reader of a text whose last line may lack its LF.

ghost use Rattle.std.specs.Prelude.{◌≡◌, ◌<◌, ◌≤◌, [], take, length, IfOk, OnErr};
ghost use Rattle.std.specs.Io.{ReadsAtMost};
ghost use Rattle.trace_text.specs.Collecting.{Reads};
ghost use Rattle.trace_text.specs.declared.fault.TheConstants.{BUFFER_LEN, MAX_LINES, MAX_PAIR};
ghost use Rattle.trace_sheets.specs.Ends as ends;
ghost use Rattle.trace_sheets.specs.Ends.{GaveMore, at, ended_failed, ended_gave, lacked};

use std::io;
use trace_text::{Collector, MAX_PAIR, Source, Stop, read_lines};

// Where a reader stands. It isn't exported, but `pub`, since definitions name it.
#[derive(Clone, Copy)]
pub enum Place {
    // At the begin of a line.
    Begin,
    // Within a line.
    Within,
    // At the text's end.
    End,
}

// A reader that adds the LF that the last line lacks.
#[derive(Drop)]
pub(crate) struct Ended<'a, R> {
    pub(crate) reader: &'a mut R,
    pub(crate) place: Place,
}

// Where a text stands behind these bytes.
fn place_behind(bytes: &[u8]) -> Place
    ensures { result ≡ ends.place_behind bytes.now }
{
    if bytes.ends_with(b"\n".as_slice()) {
        Place::Begin
    } else {
        Place::Within
    }
}

// Puts what the last line lacks.
fn put_lacked(place: Place, buf: &mut [u8]) -> usize
    requires { 0 < length buf.old }
    ensures bound { result ≤ length buf.new }
    ensures put { take result buf.new ≡ lacked place }
{
    match place {
        Place::Within => {
            buf[0] = b'\n';
            1
        }
        Place::Begin | Place::End => 0,
    }
}

impl<'a, R: Source> Ended<'a, R> {
    // Reads before the text's end.
    fn read_more(&mut self, buf: &mut [u8]) -> io::Result<usize>
        requires { 0 < length buf.old }
        ensures bound { ReadsAtMost result buf.new }
        ensures gave { IfOk result (λ n. GaveMore R.gave (at self.old.reader.now self.old.place) (take n buf.new)
            (at self.new.reader.now self.new.place)) }
        ensures failed { OnErr result (ended_failed R.failed (at self.old.reader.now self.old.place)
            (at self.new.reader.now self.new.place)) }
        ensures same { self.new.reader.ghost_name ≡ self.old.reader.ghost_name }
    {
        let given = self.reader.read_some(buf)?;
        if given == 0 {
            let count = put_lacked(self.place, buf);
            self.place = Place::End;
            return Ok(count);
        }
        self.place = place_behind(&buf[..given]);
        Ok(given)
    }
}

impl<'a, R: Source> Source for Ended<'a, R> {
    ghost gave = { λ s bytes t. (t.reader.ghost_name ≡ s.reader.ghost_name)
        × ended_gave R.gave (at s.reader.now s.place) bytes (at t.reader.now t.place) };

    ghost failed = { λ s t. (t.reader.ghost_name ≡ s.reader.ghost_name)
        × ended_failed R.failed (at s.reader.now s.place) (at t.reader.now t.place) };

    fn read_some(&mut self, buf: &mut [u8]) -> io::Result<usize> {
        match self.place {
            Place::Begin | Place::Within => self.read_more(buf),
            Place::End => Ok(0),
        }
    }
}

// Reads lines, of which the last may lack its LF.
fn read_through<R: Source, C: Collector>(
    ended: &mut Ended<R>,
    collector: &mut C,
    buffer: &mut [u8],
) -> Result<(), Stop>
    requires longest { MAX_PAIR ≡ C.longest }
    requires limit { C.most_lines ≡ MAX_LINES }
    requires room { length buffer.old ≡ BUFFER_LEN }
    requires went { C.went collector.old [] collector.old }
    requires same { C.holds_same collector.old collector.old }
    ensures reads { Reads (ended_gave R.gave) (ended_failed R.failed) C.fault_in C.went C.stopped C.paused C.unpaused MAX_PAIR
        (at ended.old.reader.now ended.old.place) (at ended.new.reader.now ended.new.place) collector.old collector.new result }
    ensures same { C.holds_same collector.old collector.new }
    ensures same_reader { ended.new.reader.ghost_name ≡ ended.old.reader.ghost_name }
{
    read_lines(ended, collector, MAX_PAIR, buffer)
}

/// Reads the lines of a sheet as [`read_lines`] does; the last may lack its LF.
pub(crate) fn read_ended<R: Source, C: Collector>(
    reader: &mut R,
    collector: &mut C,
    buffer: &mut [u8],
) -> Result<(), Stop>
    requires longest { MAX_PAIR ≡ C.longest }
    requires limit { C.most_lines ≡ MAX_LINES }
    requires room { length buffer.old ≡ BUFFER_LEN }
    requires went { C.went collector.old [] collector.old }
    requires same { C.holds_same collector.old collector.old }
    ensures reads { (place : Place) × Reads (ended_gave R.gave) (ended_failed R.failed) C.fault_in C.went C.stopped C.paused C.unpaused
        MAX_PAIR (at reader.old Place.Begin) (at reader.new place) collector.old collector.new result }
    ensures same { C.holds_same collector.old collector.new }
{
    let mut ended = Ended {
        reader,
        place: Place::Begin,
    };
    read_through(&mut ended, collector, buffer)
}
