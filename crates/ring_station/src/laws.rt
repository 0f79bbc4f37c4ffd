//! Laws of journals and limits.

pub use station_journal::laws::{
    asks_are_judged, journal_is_flat, loads_are_taken, port_tags_are_bytes, run_is_answered,
    side_is_true,
};
pub use station_parts::laws::limits_of_a_station;
