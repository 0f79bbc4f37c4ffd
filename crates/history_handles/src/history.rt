//! What stands behind an open handle.
use history_sessions::HistorySession;

/// A history that is judged as it goes.
#[derive(Drop)]
pub struct OpenHistory {
    pub(crate) session: HistorySession,
}
