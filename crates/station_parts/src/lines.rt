//! The row of lines as the unit sees it.
ghost use Rattle.std.specs.Prelude.{length};
ghost use Rattle.station_parts.specs.Rows.{sent_at, free_at};

use crate::ends::Look;
use crate::row::Line;
use memory_banks::{Command, Lines};

/// A line for each bank.
#[derive(Drop)]
pub struct Row {
    pub(crate) lines: Vec<Line>,
}

impl Row {
    ghost use Rattle.std.specs.Prelude.{◌≡◌};
    ghost use Rattle.station_parts.specs.Rows.{LinesLook};

    /// How many commands a bank's line is known to take; 0: no such bank.
    pub(crate) fn look(&mut self, bank: u32, look: Look, needed: usize) -> u32
        ensures looks { LinesLook self.old.lines.items self.new.lines.items }
        ensures room { result ≡ free_at self.new.lines.items bank }
    {
        if bank as usize >= self.lines.len() {
            return 0;
        }
        let line = &mut self.lines[bank as usize];
        line.look_for(look, needed)
    }

    pub(crate) fn look_all(&mut self, banks: u32, look: Look, needed: usize)
        ensures { LinesLook self.old.lines.items self.new.lines.items }
    {
        for bank in 0..banks {
            self.look(bank, look, needed);
        }
    }
}

impl Row {
    ghost use Rattle.std.specs.Prelude.{◌≡◌, ◌<◌, ◌-◌, ◌^◌, ◌%◌, nat_lt};
    ghost use Rattle.std.specs.List.{count_by};
    ghost use Rattle.memory_banks.specs.Memory.{is_read};
    ghost use Rattle.station_parts.specs.Rows.{taken_at, IsCounted};

    /// Whether a word of the bank was asked for and hasn't come.
    pub(crate) fn is_called(&self, bank: u32) -> bool
        requires { bank < length self.now.lines.items }
        ensures { result ≡ nat_lt (taken_at self.now.lines.items bank)
            (count_by is_read (sent_at self.now.lines.items bank) % 2 ^ 64) }
    {
        let line = &self.lines[bank as usize];
        line.is_called()
    }

    pub(crate) fn note_word(&mut self, bank: u32)
        requires there { bank < length self.old.lines.items }
        requires fits { taken_at self.old.lines.items bank < 2 ^ 64 - 1 }
        ensures { IsCounted self.old.lines.items self.new.lines.items bank }
    {
        let line = &mut self.lines[bank as usize];
        line.note_word();
    }
}

impl Lines for Row {
    ghost sent_to = { λ s b. sent_at s.lines.items b };

    ghost room_of = { λ s b. free_at s.lines.items b };

    ghost use Rattle.station_parts.specs.Rows.{OnlySent, only_sent_none, only_sent_steps};

    ghost same = { λ a b. OnlySent a.lines.items b.lines.items };

    ghost same_self = { λ a. only_sent_none a.lines.items };

    ghost same_steps = { λ a b c p q. only_sent_steps a.lines.items b.lines.items c.lines.items p q };

    fn room(&self, bank: u32) -> u32 {
        match self.lines.get(bank as usize) {
            Some(line) => line.room(),
            None => 0,
        }
    }

    fn send(&mut self, bank: u32, command: Command) {
        let line = &mut self.lines[bank as usize];
        line.send(command);
    }
}
