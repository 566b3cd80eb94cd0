//! What a server knows of itself, set by the names of the fields.

use case_files::Line;
use server_commands::{
    DEVICE_REASONS, Facts, Options, Section, StatisticKind, StatisticRow, Statistics,
    statistic_rows,
};
use std::alloc::{AllocError, Global};

/// A server that knows of nothing.
pub(crate) fn no_facts() -> Facts {
    Facts {
        now: 0,
        started: 0,
        workers: 0,
        port: 0,
        most_clients: 0,
        most_memory: 0,
        evicts: false,
        buckets: 0,
        frames: 0,
        most_in_frames: 0,
        far_limit: None,
        statistics: Statistics::new(),
        last_device_error: None,
        last_device_error_time: 0,
        device_errors: [0; 10],
        keys: [0; 256],
    }
}

pub(crate) const NO_OPTIONS: Options = Options {
    most_memory: 0,
    evicts: false,
    most_clients: 0,
    timeout: 0,
    longest_value: 0,
    port: 0,
    workers: 0,
    databases: 0,
    slow: 0,
};

/// `NAME=NUMBER`.
fn pair_of(word: &[u8]) -> Option<(&str, u64)> {
    let (name, number) = str::from_utf8(word).ok()?.split_once('=')?;
    Some((name, number.parse::<u64>().ok()?))
}

/// Sets the statistic that has this name in the table.
fn set_statistic(statistics: &mut Statistics, name: &str, number: u64) -> Option<()> {
    for row in statistic_rows() {
        if row.name == name {
            statistics.set(row.statistic, number);
            return Some(());
        }
    }
    None
}

/// `device_errorN`: how many calls of devices have failed for the reason with the number N, from 0 to 9.
fn device_error<'f>(facts: &'f mut Facts, name: &str) -> Option<&'f mut u64> {
    let number = name.strip_prefix("device_error")?;
    facts.device_errors.get_mut(number.parse::<usize>().ok()?)
}

/// `dbN`: how many keys the database with the number N has.
fn keys_in<'f>(facts: &'f mut Facts, name: &str) -> Option<&'f mut u64> {
    let number = name.strip_prefix("db")?;
    facts.keys.get_mut(number.parse::<usize>().ok()?)
}

/// Sets a number of a device's errors or of a database's keys, or a statistic.
fn set_numbered(facts: &mut Facts, name: &str, number: u64) -> Option<()> {
    if let Some(count) = device_error(facts, name) {
        *count = number;
        return Some(());
    }
    if let Some(count) = keys_in(facts, name) {
        *count = number;
        return Some(());
    }
    set_statistic(&mut facts.statistics, name, number)
}

fn set_fact(facts: &mut Facts, name: &str, number: u64) -> Option<()> {
    match name {
        "now" => facts.now = number,
        "started" => facts.started = number,
        "workers" => facts.workers = u32::try_from(number).ok()?,
        "port" => facts.port = u32::try_from(number).ok()?,
        "maxclients" => facts.most_clients = number,
        "maxmemory" => facts.most_memory = number,
        "evicts" => facts.evicts = number != 0,
        "buckets" => facts.buckets = u32::try_from(number).ok()?,
        "frames" => facts.frames = u32::try_from(number).ok()?,
        "most_in_frames" => facts.most_in_frames = number,
        "far_limit" => facts.far_limit = Some(number),
        "last_device_error" => {
            let place = usize::try_from(number).ok()?;
            facts.last_device_error = Some(*DEVICE_REASONS.get(place)?);
        }
        "last_device_error_time" => facts.last_device_error_time = number,
        _ => set_numbered(facts, name, number)?,
    }
    Some(())
}

/// `NAME KIND SECTION NUMBER`, after `misplaced` if the row is not at the statistic's place.
fn shown_row(
    alloc: Global,
    place: usize,
    row: &StatisticRow,
    number: u64,
) -> Result<String, AllocError> {
    let kind = match row.kind {
        StatisticKind::Counter => "counter",
        StatisticKind::Gauge => "gauge",
    };
    let section = row.section.map_or("-", Section::heading);
    let before = if row.statistic.index() == place {
        ""
    } else {
        "misplaced "
    };
    let name = row.name;
    format!(in alloc; "{before}{name} {kind} {section} {number}")
}

/// Each row of the table, with the statistic's number.
pub(crate) fn statistics(alloc: Global, facts: &Facts) -> Result<String, AllocError> {
    let all = facts.statistics.with_derived();
    let mut out = String::new(alloc);
    for (place, row) in statistic_rows().iter().enumerate() {
        if place > 0 {
            out.push('\n')?;
        }
        let number = all.get(row.statistic);
        let shown = shown_row(alloc, place, row, number)?;
        out.push_str(shown.as_str())?;
    }
    Ok(out)
}

fn set_option(options: &mut Options, name: &str, number: u64) -> Option<()> {
    match name {
        "most_memory" => options.most_memory = number,
        "evicts" => options.evicts = number != 0,
        "most_clients" => options.most_clients = number,
        "timeout" => options.timeout = number,
        "longest_value" => options.longest_value = number,
        "port" => options.port = u32::try_from(number).ok()?,
        "workers" => options.workers = u32::try_from(number).ok()?,
        "databases" => options.databases = u32::try_from(number).ok()?,
        "slow" => options.slow = i64::try_from(number).ok()?,
        _ => return None,
    }
    Some(())
}

/// Sets what the line names. None where it names what there is not.
pub(crate) fn set_facts(facts: &mut Facts, line: &Line) -> Option<()> {
    for word in line.rest(1) {
        let (name, number) = pair_of(word.as_slice())?;
        set_fact(facts, name, number)?;
    }
    Some(())
}

pub(crate) fn set_options(options: &mut Options, line: &Line) -> Option<()> {
    for word in line.rest(1) {
        let (name, number) = pair_of(word.as_slice())?;
        set_option(options, name, number)?;
    }
    Some(())
}
