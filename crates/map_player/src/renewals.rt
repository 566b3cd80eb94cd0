//! Maps that are renewed: at each line `renew` all workers leave, and go on over a fresh map.

use crate::looks::fields_said;
use crate::replies::{Said, Stop};
use crate::stage::Stage;
use crate::walk::{Walk, play_lines};
use case_files::Line;
use far_map::{After, Calls, LoadReport, RenewableWork, Value};
use std::alloc::{AllocError, Global};
use std::sync::Wait;
use std::sync::atomic::{AtomicBool, AtomicU64, Ordering};

/// What a line `renew` carried over.
#[derive(Drop)]
pub struct Renewal {
    is_made: AtomicBool,
    pairs: AtomicU64,
    lost_pairs: AtomicU64,
    lost_buckets: AtomicU64,
    far: AtomicU64,
}

impl Renewal {
    fn new() -> Renewal {
        Renewal {
            is_made: AtomicBool::new(false),
            pairs: AtomicU64::new(0),
            lost_pairs: AtomicU64::new(0),
            lost_buckets: AtomicU64::new(0),
            far: AtomicU64::new(0),
        }
    }

    fn keep(&self, load_report: &LoadReport) {
        self.pairs.store(load_report.pairs, Ordering::SeqCst);
        self.lost_pairs
            .store(load_report.lost_pairs, Ordering::SeqCst);
        self.lost_buckets
            .store(load_report.lost_buckets, Ordering::SeqCst);
        self.far.store(load_report.far, Ordering::SeqCst);
        self.is_made.store(true, Ordering::SeqCst);
    }

    /// What the line replies: the numbers that it names, or all that are not 0.
    pub fn said(&self, alloc: Global, line: &Line) -> Said {
        if !self.is_made.load(Ordering::SeqCst) {
            return Err(Stop::Mistake("the map was not renewed: it is opened by map_renewed"));
        }
        let pairs = self.pairs.load(Ordering::SeqCst);
        let lost_pairs = self.lost_pairs.load(Ordering::SeqCst);
        let lost_buckets = self.lost_buckets.load(Ordering::SeqCst);
        let fields = [
            ("pairs", pairs),
            ("lost_pairs", lost_pairs),
            ("lost_buckets", lost_buckets),
            ("far", self.far.load(Ordering::SeqCst)),
            ("lost", lost_pairs.saturating_add(lost_buckets)),
            ("has_pairs", u64::from(pairs > 0)),
        ];
        let shown = if line.count() == 0 { 4 } else { 6 };
        fields_said(alloc, line, fields.get(..shown).unwrap_or(&[]))
    }
}

/// One for each line `renew`.
pub fn renewals_of(alloc: Global, lines: &[Line]) -> Result<Vec<Renewal>, AllocError> {
    let mut renewals = Vec::new(alloc);
    for line in lines {
        if line.call() == "renew" {
            renewals.push(Renewal::new())?;
        }
    }
    Ok(renewals)
}

impl<V: Value> RenewableWork<V> for Stage<'_> {
    type State = Walk;

    fn term<S: Calls<V>, R: Wait>(
        &self,
        rt: &R,
        alloc: Global,
        _worker: u32,
        me: &mut S,
        state: Walk,
    ) -> Walk {
        let mut walk = state;
        play_lines(rt, alloc, self, me, &mut walk);
        walk.at = self.border(walk.at).saturating_add(1);
        walk
    }

    fn begins(&self, load_report: LoadReport) {
        self.has_begun.store(true, Ordering::SeqCst);
        let before = self.generations.fetch_add(1, Ordering::SeqCst);
        let Some(number) = before.checked_sub(1) else {
            return;
        };
        if let Some(renewal) = self.renewals.get(number as usize) {
            renewal.keep(&load_report);
            self.pass();
        }
    }

    fn after(&self, _states: &[Walk]) -> After {
        let begun = self.generations.load(Ordering::SeqCst);
        if begun <= self.renewals.len() as u64 {
            After::Renewed
        } else {
            After::End
        }
    }
}
