//! What the cache side does for an ask.
ghost use Rattle.std.specs.Prelude.{◌≡◌, ◌≢◌, ◌<◌, ◌+◌, ◌*◌, ◌%◌, ℕ, ◌∷◌, [], true};
ghost use Rattle.station_parts.specs.declared.make.TheConstants.{MAX_PORTS};
ghost use Rattle.station_parts.specs.Rows.{free_at};
ghost use Rattle.station_journal.specs.Parts.{verdict, is_event_of, IsVerdict};
ghost use Rattle.station_journal.specs.declared.asks.TheConstants.{PORT_TAGS};
ghost use Rattle.station_journal.specs.declared.asks.Told.TheVariants.{Value};
ghost use Rattle.station_parts.specs.Asking.{event_for, asked_step, MakesStep};

use crate::lines::Row;
use cache_unit::{Request, ShapedUnit};
use flat_model::{Answer, Event, Word};
use station_journal::{Ask, PORT_TAGS, Source, Told};

fn core_tag(port: u32, tag: u8) -> u16
    requires { port < MAX_PORTS }
    ensures { result ≡ port * PORT_TAGS + tag }
{
    port as u16 * PORT_TAGS + u16::from(tag)
}

/// Done is none.
pub(crate) fn event_for(port: u32, ask: Ask) -> Event
    requires few_ports { port < MAX_PORTS }
    requires not_done { ask ≢ Ask.Done }
    ensures event { result ≡ event_for port ask }
    ensures sourced { (ports : ℕ) → port < ports → is_event_of ports (Source.Ask port) result ≡ true }
{
    match ask {
        Ask::Load { tag, at } => Event::Load {
            tag: core_tag(port, tag),
            at,
        },
        Ask::Store { at, word, lanes } => Event::Store { at, word, lanes },
        Ask::Prefetch { at } => Event::Prefetch { at },
        Ask::Evict { block } => Event::Evict { block },
        Ask::Done => unreachable!(),
    }
}

/// Asks the unit, which sends its reads over the row.
pub(crate) fn answer_ask(unit: &mut ShapedUnit, row: &mut Row, port: u32, ask: Ask) -> Answer
    requires few_ports { port < MAX_PORTS }
    requires not_done { ask ≢ Ask.Done }
    ensures { MakesStep
        (asked_step unit.old.sizes (free_at row.old.lines.items) port unit.old.cache ask)
        unit.old unit.new row.old.lines.items row.new.lines.items result }
{
    match ask {
        Ask::Load { tag, at } => unit.request(
            Request::Load {
                tag: core_tag(port, tag),
                at,
            },
            row,
        ),
        Ask::Store { at, word, lanes } => unit.request(Request::Store { at, word, lanes }, row),
        Ask::Prefetch { at } => unit.request(Request::Prefetch { at }, row),
        Ask::Evict { block } => unit.evict(block),
        Ask::Done => unreachable!(),
    }
}

pub(crate) fn verdict_of(answer: Answer) -> Told
    requires { IsVerdict answer }
    ensures { verdict answer ≡ result ∷ [] }
{
    match answer {
        Answer::Refused(cause) => Told::Refused(cause),
        _ => Told::Accepted,
    }
}

pub(crate) fn value_told(tag: u16, word: Word) -> Told
    ensures { result ≡ Value (tag % PORT_TAGS) word }
{
    Told::Value {
        tag: (tag % PORT_TAGS) as u8,
        word,
    }
}
