//! What the calls of a session share.

use crate::pair_count::PairCount;
use crate::reason::LastReason;
use crate::renewal::Renewal;
use crate::session_run::SessionSettings;
use std::alloc::Global;

/// What the sessions of a run share, and which session this is.
#[derive(Drop)]
pub(crate) struct SessionContext<'a, R> {
    pub(crate) rt: &'a R,
    pub(crate) alloc: Global,
    pub(crate) settings: &'a SessionSettings,
    pub(crate) pairs: &'a PairCount,
    pub(crate) renewal: &'a Renewal,
    pub(crate) reason: &'a LastReason,
    /// The session's number, from 0.
    pub(crate) session: u32,
}

impl<R> SessionContext<'_, R> {
    /// Counts a pair that a call of the session has added.
    pub(crate) fn count_added(&self) {
        self.pairs.add(self.session, 1);
    }

    /// Counts a pair that a call of the session has removed.
    pub(crate) fn count_removed(&self) {
        self.pairs.add(self.session, -1);
    }
}
