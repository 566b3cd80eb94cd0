//! What a server is opened with.

use anyhow::{Result, bail};
use case_files::Line;
use far_map::Settings;
use far_server::{Bounds, ServerSettings};
use resp::Limits;
use server_commands::Options;
use sha2::{Digest, Sha256};
use stored_keys::DigestKeys;

/// The most workers of a server here.
const MOST_WORKERS: u64 = 16;

/// What a server is opened with, and how its clients send.
#[derive(Drop)]
pub struct Opening {
    pub settings: ServerSettings,
    /// How many workers have pipes.
    pub pipes: u32,
    /// What the clock shows first.
    pub clock: u64,
    /// How many bytes of a request go in a packet, with a wake behind each; 0 for no wakes, and as many as a packet holds.
    pub pieces: usize,
}

/// The number behind this name, which is at most so much.
fn number(line: &Line, name: &str, otherwise: u64, most: u64) -> Result<u64> {
    match line.number_named(name, otherwise) {
        Some(number) if number <= most => Ok(number),
        _ => bail!("behind `{name}=` stands a number that is at most {most}"),
    }
}

fn small(line: &Line, name: &str, otherwise: u32) -> Result<u32> {
    let number = number(line, name, u64::from(otherwise), u64::from(u32::MAX))?;
    Ok(number.min(u64::from(u32::MAX)) as u32)
}

fn flag(line: &Line, name: &str, otherwise: bool) -> Result<bool> {
    Ok(number(line, name, u64::from(otherwise), 1)? == 1)
}

/// The limit that INFO shows, if one is given.
fn far_limit(line: &Line) -> Result<Option<u64>> {
    if line.named("far_limit").is_none() {
        return Ok(None);
    }
    Ok(Some(number(line, "far_limit", 0, u64::MAX)?))
}

fn map(line: &Line) -> Result<Settings> {
    let buckets = small(line, "buckets", 16)?;
    let frames = small(line, "frames", 16)?;
    let limit = small(line, "limit", 1 << 20)?;
    let whole = Settings::new(buckets, frames, limit);
    Ok(Settings {
        bytes: number(line, "bytes", whole.bytes, u64::MAX)?,
        names: number(line, "names", whole.names, u64::MAX)?,
        ..whole
    })
}

/// From how many microseconds on a command is a slow one. None is if the line does not say.
fn slow(line: &Line) -> Result<i64> {
    Ok(match line.number_named("slow", u64::MAX) {
        Some(number) => i64::try_from(number).unwrap_or(-1),
        None => bail!("behind `slow=` stands a number"),
    })
}

/// The number of the last database.
fn last_database(line: &Line) -> Result<u8> {
    let databases = number(line, "databases", 16, 256)?.clamp(1, 256);
    Ok((databases - 1) as u8)
}

fn options(line: &Line, workers: u32, longest_value: u32) -> Result<Options> {
    Ok(Options {
        most_memory: number(line, "memory", 1 << 24, u64::MAX)?,
        evicts: flag(line, "evicts", false)?,
        most_clients: number(line, "clients", 10, u64::MAX)?,
        timeout: 0,
        longest_value: u64::from(longest_value),
        port: 0,
        workers,
        databases: u32::from(last_database(line)?) + 1,
        slow: slow(line)?,
    })
}

fn requests(line: &Line) -> Result<Limits> {
    Ok(Limits {
        arguments: small(line, "arguments", 64)?,
        bytes: small(line, "request_bytes", 100_000)?,
        line: small(line, "inline_bytes", 1_000)?,
    })
}

fn settings(line: &Line, workers: u32) -> Result<ServerSettings> {
    let longest_value = small(line, "longest_value", 70_000)?;
    Ok(ServerSettings {
        map: map(line)?,
        is_far: flag(line, "is_far", true)?,
        workers,
        requests: requests(line)?,
        bounds: Bounds {
            longest_value,
            longest_reply: small(line, "longest_reply", 1 << 26)?,
            last_database: last_database(line)?,
        },
        longest_queue: small(line, "longest_queue", 1_000)?,
        large: small(line, "large", 10)?,
        far_limit: far_limit(line)?,
        password: match line.named("password") {
            Some(password) => Some(Sha256::digest(password)),
            None => None,
        },
        digest_keys: DigestKeys {
            first: 1,
            second: 2,
        },
        seed: number(line, "seed", 1, u64::MAX)?,
        options: options(line, workers, longest_value)?,
    })
}

impl Opening {
    /// What a line says. What it does not say is as in tests/cases/server/README.md.
    pub fn of(line: &Line) -> Result<Opening> {
        let workers = number(line, "workers", 1, MOST_WORKERS)?.min(MOST_WORKERS) as u32;
        Ok(Opening {
            settings: settings(line, workers)?,
            pipes: small(line, "pipes", workers)?,
            clock: number(line, "clock", 1_000_000, u64::MAX)?,
            pieces: number(line, "pieces", 0, 60_000)?.min(60_000) as usize,
        })
    }
}
