//! Where marks lie, in units of which a figure is 1,280 wide, by how many marks there are.

ghost use Rattle.std.specs.Prelude.{◌≤◌, ◌<◌, ◌^◌};

use crate::mark::{Mark, Scale, Title};

/// How wide each figure is. Text of 30 units is then as large on a screen as 24 points on a slide.
pub(crate) const WIDTH: u128 = 1280;

/// Where titles and notes begin.
pub(crate) const MARGIN: u128 = 32;

/// How far a text's base line lies below its middle.
pub(crate) const TEXT_SINK: u128 = 10;

/// The left end of each axis.
pub(crate) const LEFT: u128 = 310;

/// The right end of a sweep's plot.
pub(crate) const PLOT_RIGHT: u128 = 980;

/// The upper end of a sweep's plot.
pub(crate) const PLOT_TOP: u128 = 140;

/// How high a sweep's plot is.
pub(crate) const PLOT_HEIGHT: u128 = 420;

/// The lower end of a sweep's plot.
pub(crate) const PLOT_BOTTOM: u128 = PLOT_TOP + PLOT_HEIGHT;

/// Between two lines of a table or of notes.
pub(crate) const TEXT_LINE: u128 = 44;

// From the first column to the last.
const FIRST_COLUMN: u128 = 400;

const COLUMNS_WIDTH: u128 = 540;

// Of notes of times, side by side.
const TIMES: u32 = 4;

/// Where marks lie: what was counted of them.
#[derive(Clone, Copy)]
pub(crate) struct Layout {
    pub(crate) title: Title,
    pub(crate) scale: Scale,
    // The numbers at the ends of the axis.
    pub(crate) least: u128,
    pub(crate) most: u128,
    pub(crate) columns: u32,
    pub(crate) lines: u32,
    pub(crate) rows: u32,
    pub(crate) times: u32,
    pub(crate) omissions: u32,
}

/// Where bars lie.
#[derive(Clone, Copy)]
pub(crate) struct Bars {
    pub(crate) width: u128,
    // The middle of the first row, and the distance of two.
    pub(crate) first: u128,
    pub(crate) line: u128,
    pub(crate) height: u128,
    // Of a number of the axis.
    pub(crate) room: u128,
    pub(crate) name: &'static str,
}

const LOSS_BARS: Bars = Bars {
    width: 420,
    first: 110,
    line: 62,
    height: 38,
    room: 130,
    name: "lost rounds",
};

const ROUND_BARS: Bars = Bars {
    width: 750,
    first: 160,
    line: 44,
    height: 26,
    room: 118,
    name: "rounds",
};

const EVENT_BARS: Bars = Bars {
    name: "events",
    ..ROUND_BARS
};

impl Layout {
    /// Of no marks.
    pub(crate) fn new() -> Layout {
        Layout {
            title: Title::Registers,
            scale: Scale::Linear,
            least: u128::MAX,
            most: 0,
            columns: 0,
            lines: 0,
            rows: 0,
            times: 0,
            omissions: 0,
        }
    }

    /// One mark more.
    pub(crate) fn add(&mut self, mark: &Mark) {
        match *mark {
            Mark::Title(title) => self.add_title(title),
            Mark::Axis(scale) => self.scale = scale,
            Mark::Tick(value) => {
                self.least = self.least.min(value);
                self.most = self.most.max(value);
            }
            Mark::Column(_) => self.columns = self.columns.saturating_add(1),
            Mark::Line(_) => self.lines = self.lines.saturating_add(1),
            Mark::Times(_) => self.times = self.times.saturating_add(1),
            Mark::Omitted(_) => self.omissions = self.omissions.saturating_add(1),
            Mark::Cause(_) | Mark::Request(_) => self.rows = self.rows.saturating_add(1),
            Mark::Machine(_) if self.is_timeline() => self.rows = self.rows.saturating_add(1),
            _ => {}
        }
    }

    // A note on events takes the place of times.
    fn add_title(&mut self, title: Title) {
        self.title = title;
        if let Title::Events = title {
            self.times = self.times.saturating_add(1);
        }
    }

    /// Whether its rows are requests.
    pub(crate) fn is_timeline(&self) -> bool {
        match self.title {
            Title::Rounds | Title::Events => true,
            Title::Registers | Title::Losses => false,
        }
    }

    /// Where its bars lie.
    pub(crate) fn bars(&self) -> Bars {
        match self.title {
            Title::Registers | Title::Losses => LOSS_BARS,
            Title::Rounds => ROUND_BARS,
            Title::Events => EVENT_BARS,
        }
    }

    /// How far along an axis of this length a value lies.
    pub(crate) fn along(&self, value: u128, length: u128) -> u128
        requires { length < 2 ^ 16 }
        ensures { result ≤ length }
    {
        match self.scale {
            Scale::Linear => share(value, self.most, length),
            Scale::Logarithmic => {
                let least = log2(self.least);
                let whole = log2(self.most).saturating_sub(least);
                share(log2(value).saturating_sub(least), whole, length)
            }
        }
    }

    /// Where a column lies, and its numbers' room.
    pub(crate) fn column(&self, place: u32) -> (u128, u128) {
        if self.columns < 2 {
            return (FIRST_COLUMN + COLUMNS_WIDTH / 2, 160);
        }
        let spaces = u128::from(self.columns) - 1;
        let x = FIRST_COLUMN + COLUMNS_WIDTH * u128::from(place) / spaces;
        (
            x,
            (COLUMNS_WIDTH / spaces).saturating_sub(8).max(8).min(160),
        )
    }

    /// The middle of a row.
    pub(crate) fn row(&self, place: u32) -> u128
        ensures { result < 2 ^ 64 }
    {
        let bars = self.bars();
        bars.first.min(WIDTH) + bars.line.min(WIDTH) * u128::from(place)
    }

    /// Where the axis of bars lies.
    pub(crate) fn axis(&self) -> u128
        ensures { result < 2 ^ 64 }
    {
        self.row(self.rows).saturating_sub(self.bars().line / 4)
    }

    /// The base line of a line of the table; 0 is its head.
    pub(crate) fn table(&self, place: u32) -> u128
        ensures { result < 2 ^ 64 }
    {
        PLOT_BOTTOM + TEXT_LINE + TEXT_LINE * u128::from(place)
    }

    // The base line of the first note.
    fn foot(&self) -> u128
        ensures { result < 2 ^ 65 }
    {
        match self.title {
            Title::Registers => self.table(self.lines) + TEXT_LINE + 16,
            _ => self.axis() + 2 * TEXT_LINE + 8,
        }
    }

    /// The base line of a note, counted from 0.
    pub(crate) fn note(&self, place: u32) -> u128
        ensures { result < 2 ^ 66 }
    {
        self.foot() + TEXT_LINE * u128::from(place)
    }

    // How many notes there are of a machine that has no rows.
    fn machines(&self) -> u32
        ensures { result ≤ 1 }
    {
        if self.is_timeline() { 0 } else { 1 }
    }

    /// Where times of memory are noted.
    pub(crate) fn times_at(&self, place: u32) -> (u128, u128) {
        let x = MARGIN + 304 * u128::from(place % TIMES);
        (x, self.note(self.machines() + place / TIMES))
    }

    /// Which note an omission is.
    pub(crate) fn omission_note(&self, place: u32) -> u32 {
        let full = self.times / TIMES;
        let times = if self.times % TIMES == 0 {
            full
        } else {
            full + 1
        };
        place.saturating_add(self.machines() + times)
    }

    /// How high the figure is.
    pub(crate) fn height(&self) -> u128
        ensures { result < 2 ^ 67 }
    {
        self.note(self.omission_note(self.omissions))
    }
}

// A share of a length.
fn share(part: u128, whole: u128, length: u128) -> u128
    requires { length < 2 ^ 16 }
    ensures { result ≤ length }
{
    let part = part.min(whole).min(MOST);
    (part * length / whole.max(1)).min(length)
}

// No number of an axis is greater.
const MOST: u128 = 1_000_000_000_000_000_000_000;

// 2^40, as the number that a mantissa begins with.
const ONE: u128 = 1_099_511_627_776;

// The logarithm of a number to base 2, in 256ths.
fn log2(value: u128) -> u128 {
    let mut mantissa = value.max(1).min(MOST) * ONE;
    let mut result: u128 = 0;
    for _place in 0..80 {
        if mantissa >= 2 * ONE {
            mantissa /= 2;
            result = result.saturating_add(1);
        }
    }
    for _place in 0..8 {
        mantissa = mantissa.saturating_mul(mantissa) / ONE;
        result = result.saturating_mul(2);
        if mantissa >= 2 * ONE {
            mantissa /= 2;
            result = result.saturating_add(1);
        }
    }
    result
}
