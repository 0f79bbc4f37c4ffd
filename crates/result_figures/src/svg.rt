//! Elements of an SVG text.

ghost use Rattle.std.specs.Prelude.{◌<◌, ◌≤◌, ◌^◌};

use crate::layout::{MARGIN, WIDTH};
use crate::looks::STYLE;
use std::alloc::AllocError;

/// A text that has room.
pub(crate) const TEXT_SIZE: u128 = 30;

/// A note.
pub(crate) const NOTE_SIZE: u128 = 24;

/// Where a text stands.
#[derive(Clone, Copy)]
pub(crate) struct Place {
    pub(crate) x: u128,
    // The base line.
    pub(crate) y: u128,
    // Its class says also whether `x` is its begin, its middle or its end.
    pub(crate) class: &'static str,
    pub(crate) room: u128,
    pub(crate) size: u128,
}

impl Place {
    /// From here to the right.
    pub(crate) fn begin(x: u128, y: u128, room: u128) -> Place {
        Place {
            x,
            y,
            class: "begin",
            room,
            size: TEXT_SIZE,
        }
    }

    /// Round here.
    pub(crate) fn middle(x: u128, y: u128, room: u128) -> Place {
        Place {
            class: "middle",
            ..Place::begin(x, y, room)
        }
    }

    /// Up to here.
    pub(crate) fn end(x: u128, y: u128, room: u128) -> Place {
        Place {
            class: "end",
            ..Place::begin(x, y, room)
        }
    }

    /// The title's.
    pub(crate) fn title() -> Place {
        Place {
            class: "title",
            ..Place::begin(MARGIN, 46, WIDTH)
        }
    }

    /// A note's.
    pub(crate) fn note(x: u128, y: u128, room: u128) -> Place {
        Place {
            size: NOTE_SIZE,
            ..Place::begin(x, y, room)
        }
    }
}

// The size of a text, less if it has no room. A character is taken to be two thirds as wide.
fn size_of(words: &str, place: Place) -> u128 {
    let least = 2 * (words.len() as u128).max(1);
    (3 * place.room.min(WIDTH) / least).min(place.size)
}

pub(crate) fn put_text(out: &mut String, place: Place, words: &str) -> Result<(), AllocError> {
    let size = size_of(words, place);
    write!(
        out,
        "<text class='{}' x='{}' y='{}' style='font-size:{size}px'>{words}</text>\n",
        place.class, place.x, place.y
    )
}

/// A straight line.
pub(crate) fn put_path(
    out: &mut String,
    class: &str,
    from: (u128, u128),
    to: (u128, u128),
) -> Result<(), AllocError> {
    write!(
        out,
        "<path class='{class}' d='M{} {}L{} {}'/>\n",
        from.0, from.1, to.0, to.1
    )
}

/// The same in a colour.
pub(crate) fn put_coloured(
    out: &mut String,
    class: &str,
    colour: &str,
    from: (u128, u128),
    to: (u128, u128),
) -> Result<(), AllocError> {
    write!(
        out,
        "<path class='{class}' stroke='{colour}' d='M{} {}L{} {}'/>\n",
        from.0, from.1, to.0, to.1
    )
}

/// A form round a point.
pub(crate) fn put_form(
    out: &mut String,
    colour: &str,
    at: (u128, u128),
    form: &str,
) -> Result<(), AllocError> {
    write!(
        out,
        "<path class='point' fill='{colour}' d='M{} {}{form}'/>\n",
        at.0, at.1
    )
}

/// A bar from its upper left corner on.
pub(crate) fn put_bar(
    out: &mut String,
    class: &str,
    at: (u128, u128),
    width: u128,
    height: u128,
) -> Result<(), AllocError> {
    write!(
        out,
        "<rect class='{class}' x='{}' y='{}' width='{width}' height='{height}'/>\n",
        at.0, at.1
    )
}

/// The beginning of a figure, with a white ground.
pub(crate) fn put_opening(out: &mut String, title: &str, height: u128) -> Result<(), AllocError> {
    write!(
        out,
        "<svg xmlns='http://www.w3.org/2000/svg' viewBox='0 0 {WIDTH} {height}'>\n<title>{title}</title>\n{STYLE}<rect width='{WIDTH}' height='{height}' fill='#fff'/>\n"
    )
}
