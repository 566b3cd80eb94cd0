//! The command line: which options there are, and what a start asks for.
ghost use Rattle.std.specs.Prelude.{◌≡◌, IfOk};
ghost use Rattle.farcalls.specs.Runs.{has_folders, IsAskedFor};

use crate::fault::FarcallsFault;
use crate::session_run::SessionSettings;
use clap::{Arg, ArgAction, ArgMatches, Command, Error};
use far_map::Settings;
use std::alloc::Global;

/// The most bytes of memory that may be asked for: 1 TiB.
const MOST_MEMORY: u64 = 1 << 40;

/// The most pairs that may be expected. More may be put.
const MOST_PAIRS: u64 = 1 << 40;

/// The most sessions.
const MOST_SESSIONS: i64 = 256;

/// The most folders. A map may have no more devices.
const MOST_FOLDERS: usize = 64;

/// The least `--names` for each bucket.
const LEAST_NAMES: u64 = 16;

/// The largest `--names`: as many version numbers as a table can draw.
const MOST_NAMES: u64 = (1 << 40) - 1;

/// What a command line asks for. Options that it leaves out have their defaults.
#[derive(Drop)]
pub struct CommandLine<'a> {
    /// Bytes of memory.
    pub memory: u64,
    /// How many pairs are expected. None lets `memory_plan` choose the number of buckets.
    pub pairs: Option<u64>,
    /// How many sessions there are.
    pub sessions: u32,
    /// The folders of the devices, 64 at most. If there is none, all objects stay in memory.
    pub folders: Vec<&'a str>,
    /// How many version numbers a map has before it is renewed. None for as many as there can be.
    names: Option<u64>,
    /// The folder of the named pipes.
    pub pipes: &'a str,
}

/// An option whose value is a text.
fn text<'a>(alloc: Global, name: &'a str, value: &'a str, help: &'a str) -> Arg<'a> {
    Arg::new(alloc, name)
        .long(name)
        .value_name(value)
        .help(help)
}

/// The grammar of the command line, by which `clap` reads it and prints `--help`.
pub fn command<'a>(alloc: Global) -> Result<Command<'a>, Error> {
    let sessions = text(alloc, "sessions", "N", "Sessions, 1 to 256 [4]");
    let far = text(
        alloc,
        "far",
        "DIR",
        "A folder for scratch files with what has no room in memory; several take turns [none: it is refused]",
    );
    let pipes = text(
        alloc,
        "pipes",
        "DIR",
        "The folder of the sessions' pipes: requests0 and replies0 are those of session 0",
    );
    let names = text(
        alloc,
        "names",
        "N",
        "Changes and moves of a map before it is renewed, for trials",
    );
    let command = Command::new(alloc, "farcalls")
        .no_binary_name(true)
        .about("A map that is larger than its memory, whose calls come over pipes")
        .arg(text(
            alloc,
            "memory",
            "BYTES",
            "Bytes of memory that the map may take",
        )
        .required(true))?
        .arg(text(
            alloc,
            "pairs",
            "N",
            "How many pairs are expected; more may be put [one for each 512 bytes of memory]",
        ))?
        .arg(sessions.value_parser(clap::value_parser!(u32).range(1..=MOST_SESSIONS)))?
        .arg(far.action(ArgAction::Append))?
        .arg(pipes.required(true))?
        .arg(names.hide(true))?;
    Ok(command)
}

/// The number that is the text of an option. `FarcallsFault::Number` is returned if the text is no number, or
/// if it is below `least` or above `most`.
fn number<'a>(
    option: &'static str,
    text: &'a str,
    least: u64,
    most: u64,
) -> Result<u64, FarcallsFault<'a>> {
    match text.parse::<u64>() {
        Ok(number) if least <= number && number <= most => Ok(number),
        _ => Err(FarcallsFault::Number(option, text, least, most)),
    }
}

impl<'a> CommandLine<'a> {
    /// Reads what the command line asks for, and fills in defaults.
    ///
    /// The first check that fails returns its fault. `FarcallsFault::Memory` is returned if an allocation
    /// fails.
    pub fn of(
        alloc: Global,
        matches: &ArgMatches<'a>,
    ) -> Result<CommandLine<'a>, FarcallsFault<'a>> {
        let memory = matches.get_str("memory").unwrap_or("");
        let pairs = match matches.get_str("pairs") {
            Some(text) => Some(number("pairs", text, 1, MOST_PAIRS)?),
            None => None,
        };
        let names = match matches.get_str("names") {
            Some(text) => Some(number("names", text, 1, MOST_NAMES)?),
            None => None,
        };
        let folders = matches.get_strs("far").unwrap_or(&[]);
        if folders.len() > MOST_FOLDERS {
            return Err(FarcallsFault::Folders);
        }
        let Ok(folders) = Vec::from_slice(alloc, folders) else {
            return Err(FarcallsFault::Memory);
        };
        Ok(CommandLine {
            memory: number("memory", memory, 1, MOST_MEMORY)?,
            pairs,
            sessions: matches.get_one::<u32>("sessions").unwrap_or(4),
            folders,
            names,
            pipes: matches.get_str("pipes").unwrap_or(""),
        })
    }

    /// Whether objects without a frame are stored in files.
    pub fn is_far(&self) -> bool
        ensures { result ≡ has_folders self.now }
    {
        !self.folders.is_empty()
    }

    /// The settings of the run over this map. `FarcallsFault::Names` is returned if `--names` is less than 16 for
    /// each bucket: such a map would be renewed all the time.
    ///
    /// If no device keeps anything, the map has no bound on the bytes in frames: otherwise it would try to
    /// move objects out, in vain. The calls keep to the bound then (`room.rt`).
    pub fn settings(&self, map: Settings) -> Result<SessionSettings, FarcallsFault<'a>>
        ensures { IfOk result (λ settings. IsAskedFor self.now settings) }
    {
        let least = u64::from(map.buckets).saturating_mul(LEAST_NAMES);
        let names = self.names.unwrap_or(MOST_NAMES);
        if names < least {
            return Err(FarcallsFault::Names(names, least));
        }
        let is_far = self.is_far();
        let bytes = if is_far { map.bytes } else { u64::MAX };
        Ok(SessionSettings {
            map: Settings {
                bytes,
                names,
                ..map
            },
            sessions: self.sessions,
            most_in_frames: map.bytes,
            is_far,
        })
    }
}
