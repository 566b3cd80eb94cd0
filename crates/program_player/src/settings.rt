//! The settings of a run, from the words of its line.

use crate::mistake::Mistake;
use case_files::Line;
use hash_table::Config;

/// More names than a run draws.
const MANY: u64 = (1 << 40) - 1;

/// The most devices of a run: one more than there may be lanes.
const MOST_DEVICES: u32 = 65;

/// The number behind `NAME=`.
pub fn number(line: &Line, name: &str, otherwise: u64) -> Result<u64, Mistake> {
    match line.number_named(name, otherwise) {
        Some(value) => Ok(value),
        None => Err(Mistake::Call("a setting is a number")),
    }
}

/// The same of 32 bits, or the greatest of those.
pub fn small(line: &Line, name: &str, otherwise: u32) -> Result<u32, Mistake> {
    let value = number(line, name, u64::from(otherwise))?;
    Ok(u32::try_from(value).unwrap_or(u32::MAX))
}

/// The settings: four buckets, two frames, objects of at most 4,096 bytes and one lane, if the line does not name others.
pub fn config_of(line: &Line) -> Result<Config, Mistake> {
    Ok(Config {
        buckets: small(line, "buckets", 4)?,
        frames: small(line, "frames", 2)?,
        limit: small(line, "limit", 4_096)?,
        names: number(line, "names", MANY)?,
        passes: small(line, "passes", 65_535)?,
        lanes: small(line, "lanes", 1)?,
        spares: small(line, "spares", 256)?,
        format: small(line, "format", 2)?,
    })
}

/// How many devices there are: as many as lanes, if the line does not say so.
pub fn devices_of(line: &Line, config: &Config) -> Result<u32, Mistake> {
    let count = small(line, "devices", config.lanes)?;
    if count > MOST_DEVICES {
        return Err(Mistake::Call("there are at most 65 devices"));
    }
    Ok(count)
}
