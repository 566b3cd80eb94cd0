//! The page of INFO, section by section.

use crate::facts::{Facts, REDIS_VERSION, policy};
use crate::far::{push_device_errors, push_hit_rate, push_limit_and_state, push_sizes};
use crate::sizes::{push_number, push_size};
use crate::statistics::{Statistic, StatisticRow, statistic_rows};
use std::alloc::AllocError;

/// What stands under one heading.
#[derive(Clone, Copy, PartialEq, Eq, Debug)]
pub enum Section {
    Server,
    Clients,
    Memory,
    Stats,
    Keyspace,
    Far,
}

/// In the order of the page.
pub(crate) const SECTIONS: [Section; 6] = [
    Section::Server,
    Section::Clients,
    Section::Memory,
    Section::Stats,
    Section::Keyspace,
    Section::Far,
];

const SECOND: u64 = 1000;

const DAY: u64 = 24 * 60 * 60 * SECOND;

impl Section {
    /// Its name, as INFO has it and as a client asks for it.
    pub fn heading(self) -> &'static str {
        match self {
            Section::Server => "Server",
            Section::Clients => "Clients",
            Section::Memory => "Memory",
            Section::Stats => "Stats",
            Section::Keyspace => "Keyspace",
            Section::Far => "Far",
        }
    }

    /// Puts the section behind what is there: its heading, and its statistics between its other lines.
    pub(crate) fn push(self, facts: &Facts, text: &mut Vec<u8>) -> Result<(), AllocError> {
        text.extend_from_slice(b"# ")?;
        text.extend_from_slice(self.heading().as_bytes())?;
        text.extend_from_slice(b"\r\n")?;
        self.push_first(facts, text)?;
        push_rows(text, statistic_rows(), self, facts)?;
        self.push_last(facts, text)
    }

    /// The lines before its statistics.
    fn push_first(self, facts: &Facts, text: &mut Vec<u8>) -> Result<(), AllocError> {
        match self {
            Section::Server => push_server(facts, text),
            Section::Memory => push_used(facts, text),
            Section::Keyspace => push_keys(facts, text),
            Section::Far => push_sizes(facts, text),
            Section::Clients | Section::Stats => Ok(()),
        }
    }

    /// The lines after its statistics.
    fn push_last(self, facts: &Facts, text: &mut Vec<u8>) -> Result<(), AllocError> {
        match self {
            Section::Clients => push_clients(facts, text),
            Section::Memory => push_most(facts, text),
            Section::Far => push_device_errors(facts, text),
            Section::Server | Section::Stats | Section::Keyspace => Ok(()),
        }
    }
}

/// A line for each, in their order.
pub(crate) fn push_numbers(text: &mut Vec<u8>, lines: &[(&str, u64)]) -> Result<(), AllocError> {
    for (name, number) in lines {
        text.extend_from_slice(name.as_bytes())?;
        text.push(b':')?;
        push_number(text, *number)?;
        text.extend_from_slice(b"\r\n")?;
    }
    Ok(())
}

pub(crate) fn push_words(text: &mut Vec<u8>, lines: &[(&str, &str)]) -> Result<(), AllocError> {
    for (name, word) in lines {
        text.extend_from_slice(name.as_bytes())?;
        text.push(b':')?;
        text.extend_from_slice(word.as_bytes())?;
        text.extend_from_slice(b"\r\n")?;
    }
    Ok(())
}

/// Bytes as people read them.
fn push_human(text: &mut Vec<u8>, name: &str, bytes: u64) -> Result<(), AllocError> {
    text.extend_from_slice(name.as_bytes())?;
    text.extend_from_slice(b"_human:")?;
    push_size(text, bytes)?;
    text.extend_from_slice(b"\r\n")
}

/// Bytes as a number, and as people read them.
fn push_bytes(text: &mut Vec<u8>, name: &str, bytes: u64) -> Result<(), AllocError> {
    push_numbers(text, &[(name, bytes)])?;
    push_human(text, name, bytes)
}

/// The lines that are no plain number and come after that of a statistic.
fn push_after(
    text: &mut Vec<u8>,
    row: &StatisticRow,
    number: u64,
    facts: &Facts,
) -> Result<(), AllocError> {
    match row.statistic {
        Statistic::ResidentBytes => push_human(text, row.name, number),
        Statistic::FarBytes => push_limit_and_state(facts, text),
        Statistic::LocalHits => push_hit_rate(facts, text),
        _ => Ok(()),
    }
}

/// A line for each of the rows that are of this section, in their order.
fn push_rows(
    text: &mut Vec<u8>,
    rows: &[StatisticRow],
    section: Section,
    facts: &Facts,
) -> Result<(), AllocError> {
    for row in rows {
        if row.section == Some(section) {
            let number = facts.statistics.get(row.statistic);
            push_numbers(text, &[(row.name, number)])?;
            push_after(text, row, number, facts)?;
        }
    }
    Ok(())
}

fn push_server(facts: &Facts, text: &mut Vec<u8>) -> Result<(), AllocError> {
    push_words(
        text,
        &[
            ("redis_version", REDIS_VERSION),
            ("farserve_version", "0.4.0"),
            ("redis_mode", "standalone"),
            ("os", "Linux x86_64"),
            ("arch_bits", "64"),
            ("process_supervised", "no"),
        ],
    )?;
    let up = facts.now.saturating_sub(facts.started);
    push_numbers(
        text,
        &[
            ("tcp_port", u64::from(facts.port)),
            ("server_time_usec", facts.now.saturating_mul(SECOND)),
            ("uptime_in_seconds", up / SECOND),
            ("uptime_in_days", up / DAY),
            ("io_threads_active", u64::from(facts.workers > 1)),
            ("workers", u64::from(facts.workers)),
        ],
    )
}

/// No command blocks, so no client is blocked.
fn push_clients(facts: &Facts, text: &mut Vec<u8>) -> Result<(), AllocError> {
    push_numbers(
        text,
        &[("maxclients", facts.most_clients), ("blocked_clients", 0)],
    )
}

fn push_used(facts: &Facts, text: &mut Vec<u8>) -> Result<(), AllocError> {
    let used = facts.statistics.get(Statistic::BytesInFrames);
    push_bytes(text, "used_memory", used)
}

fn push_most(facts: &Facts, text: &mut Vec<u8>) -> Result<(), AllocError> {
    push_bytes(text, "maxmemory", facts.most_memory)?;
    push_words(text, &[("maxmemory_policy", policy(facts.evicts))])
}

/// A line for each database that has a key. How many keys have a deadline is not counted.
fn push_keys(facts: &Facts, text: &mut Vec<u8>) -> Result<(), AllocError> {
    for (database, keys) in facts.keys.iter().enumerate() {
        if *keys > 0 {
            text.extend_from_slice(b"db")?;
            push_number(text, database as u64)?;
            text.extend_from_slice(b":keys=")?;
            push_number(text, *keys)?;
            text.extend_from_slice(b",expires=0,avg_ttl=0\r\n")?;
        }
    }
    Ok(())
}
