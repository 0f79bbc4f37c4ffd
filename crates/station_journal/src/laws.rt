//! Laws of what a journal says of flat memory.

ghost use Rattle.std.specs.Prelude.{◌≡◌, List};
ghost use Rattle.cache_law.specs.declared.Sizes.{Sizes};
ghost use Rattle.station_journal.specs.declared.asks.TheConstants.{PORT_TAGS};
ghost use Rattle.station_journal.specs.declared.journal.Entry.{Entry};
ghost use Rattle.station_journal.specs.Law.{JournalIsFlat, SideIsTrue, RunIsTaken, AsksAreJudged, RunIsAnswered};

/// A journal that is true of the banks is a run of flat memory from zeros. If the unit is clean at its end, the
/// banks come to hold flat memory.
pub fn journal_is_flat()
    ensures { (z : Sizes) (entries : List Entry) → JournalIsFlat z entries }
{}

/// If each bank's words are the first answers to what it was sent, a cache side's journal is true, and the side
/// isn't faulted.
pub fn side_is_true()
    ensures { SideIsTrue }
{}

/// If nothing is owed at the end, each accepted load's value is taken before the next load of its tag.
pub fn loads_are_taken()
    ensures { RunIsTaken }
{}

/// Up to each entry of a true journal, a port's k-th verdict is on its k-th ask, Done apart.
pub fn asks_are_judged()
    ensures { AsksAreJudged }
{}

/// After whole conversations in a true journal no telling is left, and no accepted load waits.
pub fn run_is_answered()
    ensures { RunIsAnswered }
{}

/// A port's tags are bytes.
pub fn port_tags_are_bytes()
    ensures { PORT_TAGS ≡ 256 }
{}
