//! Where a drawing has come to.

/// How many marks of each kind were drawn, and the line's last point.
#[derive(Clone, Copy)]
pub(crate) struct Pen {
    pub(crate) heads: u32,
    pub(crate) column: u32,
    pub(crate) line: u32,
    // The rows that were begun.
    pub(crate) rows: u32,
    pub(crate) times: u32,
    pub(crate) omissions: u32,
    pub(crate) counts: u32,
    pub(crate) corner: Option<(u128, u128)>,
    // Where the next line's name may begin, above the axis.
    pub(crate) low: u128,
    // The right end of the row's last bar.
    pub(crate) right: u128,
}

impl Pen {
    pub(crate) fn new() -> Pen {
        Pen {
            heads: 0,
            column: 0,
            line: 0,
            rows: 0,
            times: 0,
            omissions: 0,
            counts: 0,
            corner: None,
            low: 0,
            right: 0,
        }
    }

    /// The row that was begun last.
    pub(crate) fn row(&self) -> u32 {
        self.rows.saturating_sub(1)
    }
}
