//! What an opening is given, as words `name=number`.

use crate::stop::Stop;
use case_files::Line;
use hash_table::Config;

/// More names than a case draws.
const MANY: u64 = (1 << 40) - 1;

/// The words that an opening may be given.
const WORDS: &[&str] = &[
    "buckets",
    "frames",
    "limit",
    "names",
    "passes",
    "lanes",
    "spares",
    "format",
    "wide",
    "devices",
    "device",
    "gives",
    "gives_pairs",
    "fails",
    "fails_lane",
    "refuses",
    "spool_fails",
    "evictor",
];

/// The number that a word names.
fn number(line: &Line, name: &str, otherwise: u64) -> Result<u64, Stop> {
    line.number_named(name, otherwise)
        .ok_or(Stop::Mistake("a number stands behind the name's ="))
}

/// The same as a field of the settings, which is bad in any case where it is greater.
fn small(line: &Line, name: &str, otherwise: u64) -> Result<u32, Stop> {
    Ok(u32::try_from(number(line, name, otherwise)?).unwrap_or(u32::MAX))
}

/// Whether the word is one that an opening may be given.
fn is_known(word: &[u8]) -> bool {
    for name in WORDS {
        if let Some(rest) = word.strip_prefix(name.as_bytes()) {
            if rest.starts_with(b"=") {
                return true;
            }
        }
    }
    false
}

/// The settings of the table.
pub fn config(line: &Line) -> Result<Config, Stop> {
    for word in line.words.iter().skip(1) {
        if !is_known(word.as_slice()) {
            return Err(Stop::Mistake("an opening has no such word"));
        }
    }
    Ok(Config {
        buckets: small(line, "buckets", 4)?,
        frames: small(line, "frames", 2)?,
        limit: small(line, "limit", 4_096)?,
        names: number(line, "names", MANY)?,
        passes: small(line, "passes", 65_535)?,
        lanes: small(line, "lanes", 1)?,
        spares: small(line, "spares", 256)?,
        format: small(line, "format", 2)?,
    })
}

/// How the devices of a table fail.
#[derive(Clone, Copy)]
pub struct Failing {
    /// Which write, read or removal of a device fails, counted from 1. 0 is for none.
    fails: u64,
    /// The number of the device that fails, or none where each does.
    lane: Option<u64>,
    /// Which removal meets a growth that is refused.
    refuses: u64,
    /// Which call fails of the device that a drained table is handed over to.
    spool_fails: u64,
}

impl Failing {
    pub fn read(line: &Line) -> Result<Failing, Stop> {
        let lane = match line.named("fails_lane") {
            None => None,
            Some(_) => Some(number(line, "fails_lane", 0)?),
        };
        Ok(Failing {
            fails: number(line, "fails", 0)?,
            lane,
            refuses: number(line, "refuses", 0)?,
            spool_fails: number(line, "spool_fails", 0)?,
        })
    }

    /// Which call fails of the device of this number, or 0.
    pub fn fails(self, number: u64) -> u64 {
        match self.lane {
            Some(lane) if lane != number => 0,
            _ => self.fails,
        }
    }

    /// Which removal of a device meets a growth that is refused, or 0.
    pub fn refuses(self) -> u64 {
        self.refuses
    }

    /// Which call of the spool fails, or 0.
    pub fn spool_fails(self) -> u64 {
        self.spool_fails
    }
}

/// Whether the table is a wide one.
pub fn is_wide(line: &Line) -> Result<bool, Stop> {
    Ok(number(line, "wide", 0)? != 0)
}

/// Whether an evictor has the seat that takes.
pub fn has_evictor(line: &Line) -> Result<bool, Stop> {
    Ok(number(line, "evictor", 0)? != 0)
}

/// How many devices are handed in.
pub fn device_count(line: &Line, lanes: u32) -> Result<u64, Stop> {
    let count = number(line, "devices", u64::from(lanes))?;
    // 100 are more than a table takes.
    Ok(count.min(100))
}

/// How many pairs the object has that a device gives, or 0 where it gives the bytes of a word.
pub fn given_pairs(line: &Line) -> Result<u32, Stop> {
    let count = number(line, "gives_pairs", 0)?;
    u32::try_from(count)
        .ok()
        .filter(|count| *count <= 1 << 20)
        .ok_or(Stop::Mistake("an object has at most 1,048,576 pairs"))
}
