//! Where the bytes of a wrong word come from.

ghost use Rattle.std.specs.Prelude.{◌≡◌};
ghost use Rattle.result_formats.specs.Origins as origins;

use run_reasons::{Overwritten, WrongWord};

/// Where a byte comes from that isn't the one that is owed; nothing of a byte that is right.
#[derive(Clone, Copy, PartialEq, Eq, Debug, Default)]
pub struct ByteOrigins {
    /// The line that stored the byte that is owed; 0 for one that memory began with.
    pub owed_from: Option<u64>,
    /// The line behind the load that stored the byte that came, if memory has it there still.
    pub got_from: Option<u64>,
    /// The line that had put the byte that came there before; 0 for one that memory began with.
    pub put_by: Option<u64>,
    /// The line that overwrote it.
    pub overwritten_by: Option<u64>,
}

// One of the bytes of a word.
#[derive(Clone, Copy)]
pub(crate) enum BytePlace {
    First,
    Second,
    Third,
    Fourth,
}

// Of a byte that an older store had put there, if one had.
fn stale_origins(store: u64, past: Option<Overwritten>) -> ByteOrigins
    ensures { result ≡ origins.stale_origins store past }
{
    match past {
        None => ByteOrigins {
            owed_from: Some(store),
            got_from: None,
            put_by: None,
            overwritten_by: None,
        },
        Some(overwritten) => ByteOrigins {
            owed_from: Some(store),
            got_from: None,
            put_by: Some(overwritten.put),
            overwritten_by: Some(overwritten.by),
        },
    }
}

// Of a byte that isn't the one that is owed.
fn wrong_origins(store: u64, later: u64, past: Option<Overwritten>) -> ByteOrigins
    ensures { result ≡ origins.wrong_origins store later past }
{
    if later == 0 {
        stale_origins(store, past)
    } else {
        ByteOrigins {
            owed_from: Some(store),
            got_from: Some(later),
            put_by: None,
            overwritten_by: None,
        }
    }
}

// Of a byte that is owed and one that came.
#[tactic(auto, unfolding(crate::specs::Origins::origins_of))]
fn origins_of(owed: u8, store: u64, got: u8, later: u64, past: Option<Overwritten>) -> ByteOrigins
    ensures { result ≡ origins.origins_of owed store got later past }
{
    if owed == got {
        ByteOrigins {
            owed_from: None,
            got_from: None,
            put_by: None,
            overwritten_by: None,
        }
    } else {
        wrong_origins(store, later, past)
    }
}

// Of a byte of a wrong word.
fn origins_at(place: BytePlace, wrong: &WrongWord) -> ByteOrigins
    ensures { result ≡ origins.origins_at place wrong.now }
{
    let (owed, stores) = (wrong.load.word, wrong.load.stores);
    let (got, later, past) = (wrong.got, wrong.later, wrong.past);
    match place {
        BytePlace::First => origins_of(owed.b0, stores.b0, got.b0, later.b0, past.b0),
        BytePlace::Second => origins_of(owed.b1, stores.b1, got.b1, later.b1, past.b1),
        BytePlace::Third => origins_of(owed.b2, stores.b2, got.b2, later.b2, past.b2),
        BytePlace::Fourth => origins_of(owed.b3, stores.b3, got.b3, later.b3, past.b3),
    }
}

// Of a byte, if a word is wrong.
#[tactic(auto, unfolding(crate::specs::Origins::origins_in))]
pub(crate) fn origins_in(place: BytePlace, wrong: Option<WrongWord>) -> ByteOrigins
    ensures { result ≡ origins.origins_in place wrong }
{
    match wrong {
        None => ByteOrigins {
            owed_from: None,
            got_from: None,
            put_by: None,
            overwritten_by: None,
        },
        Some(wrong) => origins_at(place, &wrong),
    }
}
