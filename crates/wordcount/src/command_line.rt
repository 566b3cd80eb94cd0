//! What the command line asks for.
ghost use Rattle.std.specs.Prelude.{◌≡◌, ◌≤◌, IfOk};
ghost use Rattle.wordcount.specs.Frames.{least_frames};

use clap::{Arg, ArgAction, ArgMatches, Command, Error};
use std::alloc::Global;

/// What the options say.
#[derive(Clone, Copy)]
pub struct CommandLine {
    pub threads: u32,
    pub buckets: u32,
    pub frames: u32,
    pub top: u32,
}

/// An option with a number in this range.
fn number<'a>(alloc: Global, name: &'a str, least: i64, most: i64, help: &'a str) -> Arg<'a> {
    Arg::new(alloc, name)
        .long(name)
        .value_name("N")
        .value_parser(clap::value_parser!(u32).range(least..=most))
        .help(help)
}

/// The command line's grammar.
pub fn command<'a>(alloc: Global) -> Result<Command<'a>, Error> {
    let far = Arg::new(alloc, "far")
        .long("far")
        .value_name("DIR")
        .action(ArgAction::Append)
        .help(
            "A folder for what lies in no frame; of several, devices take the next in turn [none: it stays in the process]",
        );
    let files = Arg::new(alloc, "files")
        .value_name("FILE")
        .action(ArgAction::Append)
        .required(true)
        .help("The files, of which threads take pieces in turn");
    let command = Command::new(alloc, "wordcount")
        .bin_name("wordcount")?
        .about("Counts the words of files in a map over far memory, and prints the most frequent")
        .arg(number(alloc, "threads", 1, 64, "Threads that count, 1 to 64 [4]"))?
        .arg(number(
            alloc,
            "buckets",
            1,
            4_194_304,
            "Buckets of the map, 1 to 4194304 [65536]",
        ))?
        .arg(number(
            alloc,
            "frames",
            1,
            4_194_304,
            "Buckets that lie in memory, 1 to 4194304, and two for each of several threads [4096]",
        ))?
        .arg(number(
            alloc,
            "top",
            0,
            4_294_967_295,
            "Words that are printed [10]",
        ))?
        .arg(far)?
        .arg(files)?;
    Ok(command)
}

/// Frames are fewer than so many threads need.
#[derive(Clone, Copy)]
pub struct TooFew {
    pub threads: u32,
    /// The fewest that are enough.
    pub least: u64,
}

/// The fewest frames for so many threads. One thread does with one. Of several each may hold two at once, of the object that it
/// reads and of the one that it writes: with fewer the others may hold all of them for as long as a call tries.
pub fn least_frames(threads: u32) -> u64
    ensures { result ≡ least_frames threads }
{
    if threads > 1 {
        u64::from(threads) * 2
    } else {
        1
    }
}

impl CommandLine {
    /// What these say, with what is asked for where nothing is said. Frames are enough for the threads, else it is `TooFew`.
    pub fn of(matches: &ArgMatches<'_>) -> Result<CommandLine, TooFew>
        ensures enough { IfOk result (λ asked. least_frames asked.threads ≤ asked.frames) }
    {
        let asked = CommandLine {
            threads: matches.get_one::<u32>("threads").unwrap_or(4),
            buckets: matches.get_one::<u32>("buckets").unwrap_or(65_536),
            frames: matches.get_one::<u32>("frames").unwrap_or(4_096),
            top: matches.get_one::<u32>("top").unwrap_or(10),
        };
        let least = least_frames(asked.threads);
        if u64::from(asked.frames) < least {
            return Err(TooFew {
                threads: asked.threads,
                least,
            });
        }
        Ok(asked)
    }
}
