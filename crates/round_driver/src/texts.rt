//! A table as one line of text.
ghost use Rattle.std.specs.Prelude.{◌≡◌, Some};
ghost use Rattle.std.specs.Fmt.{WritesOnOk};
ghost use Rattle.round_driver.specs.Texts as texts;

use crate::table::{LostRounds, Table};
use std::fmt;

// Whole rounds, and hundredths rounded down.
pub(crate) fn mean_of(rounds: u128, loads: u64) -> (u128, u128)
    ensures { result ≡ texts.mean_of rounds loads }
{
    if loads == 0 {
        return (0, 0);
    }
    let loads = u128::from(loads);
    let rest = rounds % loads;
    (rounds / loads, rest * 100 / loads)
}

impl LostRounds {
    #[tactic(auto, unfolding(crate::specs::Texts::lost_text))]
    fn write_counts<W: fmt::Write>(&self, f: &mut fmt::Formatter<W>) -> fmt::Result
        ensures { WritesOnOk W.write_str_gives f.old result (texts.lost_text self.now) f.new }
    {
        write!(f, " lost 3:{}", self.tag_in_use)?;
        write!(f, " 4:{} 5:{}", self.replies_full, self.targets_full)?;
        write!(f, " 7:{} 8:{}", self.no_register, self.set_pending)?;
        write!(f, " 9:{} 10:{}", self.queue_full, self.bank_full)
    }
}

impl Table {
    /// The mean wait: whole rounds, and hundredths rounded down. Zeros without an answered load.
    pub fn mean_wait(&self) -> (u128, u128)
        ensures { result ≡ texts.mean_wait self.now }
    {
        mean_of(self.waited, self.values)
    }

    #[tactic(auto, unfolding(crate::specs::Texts::requests_text))]
    fn write_requests<W: fmt::Write>(&self, f: &mut fmt::Formatter<W>) -> fmt::Result
        ensures { WritesOnOk W.write_str_gives f.old result (texts.requests_text self.now) f.new }
    {
        write!(f, "rounds {} accepted {}", self.rounds, self.accepted)?;
        write!(f, " denied {} hits {}", self.denied, self.hits)?;
        write!(f, " joins {} misses {}", self.joins, self.misses)?;
        write!(f, " stalled {}", self.stalled)
    }

    #[tactic(auto, unfolding(crate::specs::Texts::waits_text))]
    fn write_waits<W: fmt::Write>(&self, f: &mut fmt::Formatter<W>) -> fmt::Result
        ensures { WritesOnOk W.write_str_gives f.old result (texts.waits_text self.now) f.new }
    {
        let (whole, hundredths) = self.mean_wait();
        write!(f, " values {} mean {whole}", self.values)?;
        write!(f, ".{}{}", hundredths / 10, hundredths % 10)?;
        write!(f, " longest {}", self.longest)
    }

    #[tactic(auto, unfolding(crate::specs::Texts::work_text))]
    fn write_work<W: fmt::Write>(&self, f: &mut fmt::Formatter<W>) -> fmt::Result
        ensures { WritesOnOk W.write_str_gives f.old result (texts.work_text self.now) f.new }
    {
        write!(f, " registers {} written {}", self.registers, self.written)
    }
}

/// `rounds N accepted N denied N hits N joins N misses N stalled N`, `lost 3:N 4:N 5:N 7:N 8:N 9:N
/// 10:N` and `values N mean N.NN longest N registers N written N`, with one space between them.
impl fmt::Display for Table {
    ghost output = { λ table. Some (texts.table_text table) };

    fn fmt<W: fmt::Write>(&self, f: &mut fmt::Formatter<W>) -> fmt::Result {
        self.write_requests(f)?;
        self.lost.write_counts(f)?;
        self.write_waits(f)?;
        self.write_work(f)
    }
}
