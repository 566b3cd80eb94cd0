//! What the gateway writes to its log: how much has happened since the start, as it asks for once a second.
//!
//! These are sums, so nothing is lost if an answer is late, and no text waits in the server. The gateway
//! compares them with those of the answer before. No contract claims anything about them.

use crate::context::ServerContext;
use itoa::Buffer;
use server_commands::Statistic;
use std::alloc::AllocError;
use std::sync::Wait;

/// Pushes ` NAME=NUMBER`.
pub(crate) fn push_fact(name: &str, number: u64, answer: &mut Vec<u8>) -> Result<(), AllocError> {
    let mut digits = Buffer::new();
    answer.extend_from_slice(b" ")?;
    answer.extend_from_slice(name.as_bytes())?;
    answer.extend_from_slice(b"=")?;
    answer.extend_from_slice(digits.format(number).as_bytes())
}

/// Pushes `news`, and a fact for each sum. None of them has a key, a value or a password.
pub(crate) fn push_news<C, R: Wait>(
    context: &ServerContext<'_, C, R>,
    answer: &mut Vec<u8>,
) -> Result<(), AllocError> {
    let sum = context.shared_statistics.sum();
    let (usage, renewal) = (context.usage, context.renewal);
    // Devices that keep nothing refuse each object, which is no failure.
    let failures = if context.settings.is_far {
        sum.get(Statistic::DeviceFailures)
    } else {
        0
    };
    answer.extend_from_slice(b"news")?;
    for (name, number) in [
        ("evicted", sum.get(Statistic::EvictedKeys)),
        ("device_failures", failures),
        ("resting", usage.resting()),
        ("lost", usage.lost()),
        ("renewals", renewal.count()),
        ("renewal_ms", renewal.pause()),
        ("renewal_lost_pairs", renewal.lost_pairs()),
        ("renewal_lost_buckets", renewal.lost_buckets()),
    ] {
        push_fact(name, number, answer)?;
    }
    context.slow_log.push_news(context.rt, answer)
}
