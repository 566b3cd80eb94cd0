//! The section of INFO that Redis does not have: of frames and devices.

use crate::device_reason::DEVICE_REASONS;
use crate::facts::Facts;
use crate::page::{push_numbers, push_words};
use crate::sizes::{push_number, push_places};
use crate::statistics::{Statistic, Statistics};
use std::alloc::AllocError;

/// How many of a thousand reads of a bucket found it in a frame, rounded down; 0 where there was none.
fn hit_rate(statistics: &Statistics) -> u64 {
    let hits = statistics.get(Statistic::LocalHits);
    let reads = hits
        .saturating_add(statistics.get(Statistic::SwapIns))
        .saturating_add(statistics.get(Statistic::ReadThroughs));
    if reads == 0 {
        return 0;
    }
    hits.saturating_mul(1000) / reads
}

/// What the devices do.
fn far_state(is_resting: bool) -> &'static str {
    if is_resting { "resting" } else { "ok" }
}

pub(crate) fn push_hit_rate(facts: &Facts, text: &mut Vec<u8>) -> Result<(), AllocError> {
    let rate = hit_rate(&facts.statistics);
    text.extend_from_slice(b"hit_rate:")?;
    push_number(text, rate / 1000)?;
    push_places(text, rate % 1000, 3)?;
    text.extend_from_slice(b"\r\n")
}

/// What may be on devices, and whether one of them rests. A limit of 0 takes no object, so it is not what stands for no limit.
pub(crate) fn push_limit_and_state(facts: &Facts, text: &mut Vec<u8>) -> Result<(), AllocError> {
    match facts.far_limit {
        Some(limit) => push_numbers(text, &[("far_limit", limit)])?,
        None => push_words(text, &[("far_limit", "none")])?,
    }
    let is_resting = facts.statistics.get(Statistic::RestingDevices) > 0;
    push_words(text, &[("far_state", far_state(is_resting))])
}

pub(crate) fn push_sizes(facts: &Facts, text: &mut Vec<u8>) -> Result<(), AllocError> {
    push_numbers(
        text,
        &[
            ("buckets", u64::from(facts.buckets)),
            ("frames", u64::from(facts.frames)),
            ("most_in_frames", facts.most_in_frames),
        ],
    )
}

/// Why a device failed last, when that was in seconds since 1970, and how many failed for each reason.
pub(crate) fn push_device_errors(facts: &Facts, text: &mut Vec<u8>) -> Result<(), AllocError> {
    let last = match facts.last_device_error {
        Some(reason) => reason.text(),
        None => "none",
    };
    push_words(text, &[("last_device_error", last)])?;
    let seconds = facts.last_device_error_time / 1000;
    push_numbers(text, &[("last_device_error_time", seconds)])?;
    for (reason, count) in DEVICE_REASONS.iter().zip(&facts.device_errors) {
        push_numbers(text, &[(reason.count_name(), *count)])?;
    }
    Ok(())
}
