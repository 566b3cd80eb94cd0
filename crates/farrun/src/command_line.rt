//! What the command line asks for.

use clap::{Arg, ArgAction, ArgMatches, Command, Error};
use std::alloc::{AllocError, Global};

/// How many lanes there are, if nothing else is asked for and no more folders are named.
const LANES: u32 = 4;

/// What the words behind the program's name say.
#[derive(Drop)]
pub struct CommandLine<'a> {
    /// The folders of the devices. Where there is none, and no pipe, the devices lie in the process.
    pub folders: Vec<&'a str>,
    /// The pipes of stores, of each lane one with replies and one for requests.
    pub replies: Vec<&'a str>,
    pub requests: Vec<&'a str>,
    pub lanes: u32,
    /// `BUCKETS FRAMES LIMIT FILE...`.
    pub words: Vec<String>,
}

/// The command line's grammar. What numbers and files there may be `far_driver` says.
pub fn command<'a>(alloc: Global) -> Result<Command<'a>, Error> {
    let far = Arg::new(alloc, "far")
        .long("far")
        .value_name("DIR")
        .action(ArgAction::Append)
        .help(
            "A folder for scratch files, which lanes take in turn [none: devices in the process]",
        );
    let replies = pipe(
        alloc,
        "far-resp-in",
        "A pipe with the replies of a store that speaks the protocol of Redis, for one lane",
    );
    let requests = pipe(
        alloc,
        "far-resp-out",
        "The pipe to that store, in the same order",
    );
    let lanes = Arg::new(alloc, "lanes")
        .long("lanes")
        .value_name("N")
        .value_parser(clap::value_parser!(u32).range(1..=64))
        .help("Lanes, 1 to 64, each with a device [4, or as many as there are folders or pipes]");
    let files = Arg::new(alloc, "files")
        .value_name("FILE")
        .action(ArgAction::Append)
        .required(true)
        .help("1 to 64 command files, of which one may be -, standard input");
    let command = Command::new(alloc, "farrun")
        .no_binary_name(true)
        .about("Runs command files on a table whose devices may lie in scratch files or in a store")
        .arg(far)?
        .arg(replies)?
        .arg(requests)?
        .arg(lanes)?
        .arg(word(alloc, "buckets", "BUCKETS", "Buckets, 1 to 65536"))?
        .arg(word(alloc, "frames", "FRAMES", "Frames in memory, 1 to 65536"))?
        .arg(word(
            alloc,
            "limit",
            "LIMIT",
            "The most bytes of a bucket's object, 4 to 1048576",
        ))?
        .arg(files)?;
    Ok(command)
}

/// The path of a pipe, for a lane.
fn pipe<'a>(alloc: Global, name: &'a str, help: &'a str) -> Arg<'a> {
    Arg::new(alloc, name)
        .long(name)
        .value_name("PIPE")
        .action(ArgAction::Append)
        .help(help)
}

/// A word that has to be there.
fn word<'a>(alloc: Global, name: &'a str, value: &'a str, help: &'a str) -> Arg<'a> {
    Arg::new(alloc, name)
        .value_name(value)
        .required(true)
        .help(help)
}

impl<'a> CommandLine<'a> {
    /// What these say, with what is asked for where nothing is said.
    pub fn of(alloc: Global, matches: &ArgMatches<'a>) -> Result<CommandLine<'a>, AllocError> {
        let mut words = Vec::new(alloc);
        for name in ["buckets", "frames", "limit"] {
            let word = matches.get_str(name).unwrap_or("");
            words.push(String::from_str(alloc, word)?)?;
        }
        for file in matches.get_strs("files").unwrap_or(&[]) {
            words.push(String::from_str(alloc, *file)?)?;
        }
        let folders = Vec::from_slice(alloc, matches.get_strs("far").unwrap_or(&[]))?;
        let replies = Vec::from_slice(alloc, matches.get_strs("far-resp-in").unwrap_or(&[]))?;
        let requests = Vec::from_slice(alloc, matches.get_strs("far-resp-out").unwrap_or(&[]))?;
        let enough = match replies.len() {
            0 => LANES.max(folders.len().min(64) as u32),
            pipes => pipes.min(65) as u32,
        };
        Ok(CommandLine {
            lanes: matches.get_one::<u32>("lanes").unwrap_or(enough),
            folders,
            replies,
            requests,
            words,
        })
    }
}
