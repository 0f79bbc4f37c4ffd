//! Colours and forms, which differ in print too. The colours are Okabe's and Ito's.

use crate::mark::Shade;

// Colours, and forms of points.
const LOOKS: u32 = 8;

/// The colour of a line, counted from 0; from the ninth on they come again.
pub(crate) fn colour_of(line: u32) -> &'static str {
    match line % LOOKS {
        0 => "#0072b2",
        1 => "#d55e00",
        2 => "#009e73",
        3 => "#cc79a7",
        4 => "#000000",
        5 => "#e69f00",
        6 => "#56b4e9",
        _ => "#666666",
    }
}

/// Its points' form: a path round a point.
pub(crate) fn form_of(line: u32) -> &'static str {
    match line % LOOKS {
        0 => "m-12 0a12 12 0 1 0 24 0a12 12 0 1 0-24 0z",
        1 => "m-11-11h22v22h-22z",
        2 => "m0-14l14 24h-28z",
        3 => "m0-15l15 15l-15 15l-15-15z",
        4 => "m0 14l14-24h-28z",
        5 => "m-5-14h10v9h9v10h-9v9h-10v-9h-9v-10h9z",
        6 => "m0-15l13 7v16l-13 7l-13-7v-16z",
        _ => "m-15-9h30v18h-30z",
    }
}

/// The class of a bar.
pub(crate) fn class_of(shade: Shade) -> &'static str {
    match shade {
        Shade::Lost => "lost",
        Shade::Asked => "asked",
        Shade::Hit => "hit",
        Shade::Join => "join",
        Shade::Miss => "miss",
        Shade::Flight => "flight",
    }
}

/// The style. Bars differ in print: white, black, dark and light.
pub(crate) const STYLE: &str = "<style>
text { font: 30px Arial, 'Liberation Sans', Helvetica, sans-serif; fill: #111; paint-order: stroke; stroke: #fff; stroke-width: 6px; }
.end { text-anchor: end; }
.middle { text-anchor: middle; }
.title, .left-out { font-weight: bold; }
.left-out { fill: #900; }
.grid { stroke: #ccc; stroke-width: 2; }
.axis { fill: none; stroke: #111; stroke-width: 3; }
.line { fill: none; stroke-width: 6; }
.tie { stroke-width: 3; stroke-dasharray: 6 6; }
.point { stroke: #fff; stroke-width: 2; }
.asked { fill: #fff; stroke: #111; stroke-width: 2; stroke-dasharray: 6 4; }
.lost, .miss { fill: #0072b2; }
.join { fill: #a6d8f5; stroke: #111; stroke-width: 2; }
.hit { fill: #111; }
.flight { fill: #d55e00; }
</style>
";
