//! The command line: which options there are, and what a start asks for.

use crate::fault::FarserveFault;
use crate::memory_plan::Tier;
use crate::sizes::bytes_of;
use clap::{Arg, ArgAction, ArgMatches, Command, Error};
use std::alloc::Global;
use std::net::IpAddr;

/// The longest value, in bytes: half of the largest object that a bucket may have.
const MOST_VALUE: u64 = 8 << 20;

/// The most bytes of memory that may be asked for: 1 TiB.
const MOST_MEMORY: u64 = 1 << 40;

/// The longest path of a Unix socket, in bytes. Linux takes no longer one.
const MOST_PATH: usize = 107;

/// The least `--names` for each bucket.
const LEAST_NAMES: u64 = 16;

/// The largest `--names`: as many version numbers as a table can draw.
const MOST_NAMES: u64 = (1 << 40) - 1;

/// What `--policy` takes: what happens when the memory and the far tier are full.
const POLICIES: [&str; 2] = ["noeviction", "allkeys"];

/// The most connections at once, if `--maxclients` is not given.
const CLIENTS: u32 = 10_000;

/// Seconds in which a client has to give the password, if `--auth-timeout` is not given.
const AUTH_TIMEOUT: u32 = 10;

/// What `--log-level` takes, from few lines to many.
const LOG_LEVELS: [&str; 3] = ["warning", "notice", "debug"];

/// How many databases there are, if `--databases` is not given.
const DATABASES: u32 = 16;

/// The most databases.
const MOST_DATABASES: u32 = 256;

/// From how many microseconds on a command is a slow one, if `--slow` is not given.
const SLOW: i64 = 10_000;

/// The largest `--slow`: an hour.
const MOST_SLOW: i64 = 3_600_000_000;

/// The largest `--maxclients`.
const MOST_CLIENTS: i64 = 1_000_000;

/// The most folders. A map may have no more devices.
const MOST_FOLDERS: usize = 64;

/// A store that speaks the protocol of Redis. It keeps objects in place of scratch files.
#[derive(Clone, Copy, Drop)]
pub struct Store<'a> {
    /// `HOST:PORT`, or the path of a Unix socket.
    pub address: &'a str,
    /// The file whose first line is the store's password. None if the store asks for none.
    pub password_file: Option<&'a str>,
    /// Seconds that a reply of the store may take.
    pub timeout: u32,
}

/// What a command line asks for. Options that it leaves out have their defaults.
#[derive(Drop)]
pub struct CommandLine<'a> {
    /// Bytes of memory.
    pub memory: u64,
    /// The same as it was written, for messages.
    pub memory_text: &'a str,
    /// The folders of the devices, 64 at most. If there is neither a folder nor a store, all objects stay in
    /// memory.
    pub folders: Vec<&'a str>,
    /// The far store, if `--far-resp` is given.
    pub store: Option<Store<'a>>,
    /// The most bytes of scratch files in all folders together. `u64::MAX` if there is no limit.
    pub far_limit: u64,
    /// Whether other keys are evicted when all is full. If not, commands that need room are refused.
    pub evicts: bool,
    /// How many buckets the map has. None lets `sizing` choose.
    pub buckets: Option<u32>,
    /// The most bytes of a value.
    pub value_limit: u32,
    /// Workers, that is threads that answer requests: 1 to 64.
    pub threads: u32,
    /// The port of TCP; 0 for any that is free.
    pub port: u16,
    /// The IP address to listen at.
    pub bind: &'a str,
    /// The path of a Unix socket, if one is asked for.
    pub unix: Option<&'a str>,
    /// The file whose first line is the clients' password. None if clients need none.
    pub password_file: Option<&'a str>,
    /// Seconds after which a silent client is closed; 0 for never.
    pub timeout: u32,
    /// Seconds in which a client has to give the password; 0 for any time.
    pub auth_timeout: u32,
    /// The most connections at once.
    pub most_clients: u32,
    /// The number of the last database, from 0.
    pub last_database: u8,
    /// From how many microseconds on a command is a slow one; -1 if none is.
    pub slow: i64,
    /// Which lines the gateway writes to its log: `warning`, `notice` or `debug`.
    pub log_level: &'a str,
    /// The text of `--names`: how many version numbers a map has before it is renewed. It is not checked yet.
    pub names: Option<&'a str>,
    /// The folder of the named pipes to the gateway.
    pub pipes: &'a str,
}

/// An option whose value is a text.
fn text<'a>(alloc: Global, name: &'a str, value: &'a str, help: &'a str) -> Arg<'a> {
    Arg::new(alloc, name)
        .long(name)
        .value_name(value)
        .help(help)
}

/// An option whose value is a number from `least` to `most`.
fn number<'a>(alloc: Global, name: &'a str, least: i64, most: i64, help: &'a str) -> Arg<'a> {
    text(alloc, name, "N", help)
        .allow_negative_numbers(true)
        .value_parser(clap::value_parser!(u32).range(least..=most))
}

/// Adds the options about memory, the map, folders and eviction.
fn with_sizes<'a>(alloc: Global, command: Command<'a>) -> Result<Command<'a>, Error> {
    let memory = text(
        alloc,
        "memory",
        "SIZE",
        "Bytes of memory that the server may take, as 256m or 2g",
    );
    let far = text(
        alloc,
        "far",
        "DIR",
        "A folder for scratch files with what has no room in memory; several take turns [none: it is refused]",
    );
    let policy = text(
        alloc,
        "policy",
        "NAME",
        "What happens where all is full: what needs room is refused, or with allkeys other keys are taken out [noeviction]",
    );
    let command = command
        .arg(memory.required(true))?
        .arg(far.action(ArgAction::Append))?
        .arg(number(
            alloc,
            "buckets",
            1,
            4_194_304,
            "Buckets of the map, 1 to 4194304 [as many as a third of the memory holds]",
        ))?
        .arg(text(
            alloc,
            "value-limit",
            "SIZE",
            "The most bytes of a value, 1 to 8m [1m]",
        ))?
        .arg(number(alloc, "threads", 1, 64, "Threads that answer, 1 to 64 [4]"))?
        .arg(text(
            alloc,
            "far-limit",
            "SIZE",
            "The most bytes of scratch files; beyond it --policy says what happens [any]",
        ))?
        .arg(policy.value_parser(POLICIES.as_slice()))?;
    Ok(command)
}

/// Adds the options of a far store, which takes the place of folders.
fn with_store<'a>(alloc: Global, command: Command<'a>) -> Result<Command<'a>, Error> {
    let timeout = number(
        alloc,
        "far-timeout",
        1,
        3600,
        "Seconds that a reply of that store may take [5]",
    );
    let command = command
        .arg(text(
            alloc,
            "far-resp",
            "ADDRESS",
            "HOST:PORT, or the path of a Unix socket, of a store that speaks the protocol of Redis, in the place of --far",
        ))?
        .arg(text(
            alloc,
            "far-password-file",
            "FILE",
            "A file whose first line is that store's password [none: it asks for none]",
        ))?
        .arg(timeout.value_name("SECONDS"))?;
    Ok(command)
}

/// Adds the options about clients and addresses.
fn with_addresses<'a>(alloc: Global, command: Command<'a>) -> Result<Command<'a>, Error> {
    let timeout = number(
        alloc,
        "timeout",
        0,
        4_294_967_295,
        "Seconds after which a silent client is closed, 0 for never [0]",
    );
    let auth_timeout = number(
        alloc,
        "auth-timeout",
        0,
        4_294_967_295,
        "Seconds after which a client that has not given the password is closed, 0 for never [10]",
    );
    let most_clients = number(
        alloc,
        "maxclients",
        1,
        MOST_CLIENTS,
        "The most connections at once, 1 to 1000000; more are refused [10000]",
    );
    let command = command
        .arg(number(
            alloc,
            "port",
            0,
            65_535,
            "The port of TCP, 0 for any that is free [6379]",
        ))?
        .arg(text(
            alloc,
            "bind",
            "ADDRESS",
            "The IP address that is listened at; any but loopback needs --password-file [127.0.0.1]",
        ))?
        .arg(text(
            alloc,
            "unix",
            "PATH",
            "A Unix socket beside it, for the owner alone [none]",
        ))?
        .arg(text(
            alloc,
            "password-file",
            "FILE",
            "A file whose first line is the password that AUTH wants [none: no password]",
        ))?
        .arg(timeout.value_name("SECONDS"))?
        .arg(auth_timeout.value_name("SECONDS"))?
        .arg(most_clients)?
        .arg(number(
            alloc,
            "databases",
            1,
            256,
            "How many databases SELECT may pick, 1 to 256 [16]",
        ))?;
    Ok(command)
}

/// Adds the options about slow commands and the log, and two hidden ones, `--pipes` and `--names`.
fn with_log<'a>(alloc: Global, command: Command<'a>) -> Result<Command<'a>, Error> {
    let slow = text(
        alloc,
        "slow",
        "MICROSECONDS",
        "From how long on SLOWLOG has a command, 0 for all commands, -1 for none [10000]",
    );
    let log_level = text(
        alloc,
        "log-level",
        "NAME",
        "Which lines standard error gets while it serves: warning, notice or debug [notice]",
    );
    let pipes = text(
        alloc,
        "pipes",
        "DIR",
        "The folder of the pipes to the gateway",
    );
    let names = text(
        alloc,
        "names",
        "N",
        "Changes and moves of a map before it is renewed, for trials",
    );
    let command = command
        .arg(
            slow.allow_negative_numbers(true)
                .value_parser(clap::value_parser!(i64).range(-1..=MOST_SLOW)),
        )?
        .arg(log_level.value_parser(LOG_LEVELS.as_slice()))?
        .arg(pipes.hide(true))?
        .arg(names.hide(true))?;
    Ok(command)
}

/// The grammar of the command line, by which `clap` reads it and prints `--help`.
pub fn command<'a>(alloc: Global) -> Result<Command<'a>, Error> {
    let command = Command::new(alloc, "farserve").no_binary_name(true).about(
        "A cache that is larger than its memory, which speaks the protocol of Redis",
    );
    let command = with_sizes(alloc, command)?;
    let command = with_store(alloc, command)?;
    let command = with_addresses(alloc, command)?;
    with_log(alloc, command)
}

/// The size in bytes that is the text of an option. `FarserveFault::Size` is returned if the text is no size, or if
/// the size is below `least` or above `most`.
fn size<'a>(
    option: &'static str,
    text: &'a str,
    least: u64,
    most: u64,
) -> Result<u64, FarserveFault<'a>> {
    match bytes_of(text) {
        Some(bytes) if least <= bytes && bytes <= most => Ok(bytes),
        _ => Err(FarserveFault::Size(option, text, least, most)),
    }
}

/// The port of `HOST:PORT`. None if the text has another form, or if the port is 0.
fn port_of(address: &str) -> Option<u16> {
    let (host, port) = address.rsplit_once(':')?;
    match port.parse::<u16>() {
        Ok(port) if !host.is_empty() && port > 0 => Some(port),
        _ => None,
    }
}

/// The far store that is asked for. None if there is no `--far-resp`.
///
/// `FarserveFault::Storeless` is returned for another option of stores if there is no `--far-resp`. `FarserveFault::Stored`
/// is returned for an option of folders next to it. `FarserveFault::Store` is returned if the address has another
/// form.
fn far_store<'a>(matches: &ArgMatches<'a>) -> Result<Option<Store<'a>>, FarserveFault<'a>> {
    let password_file = matches.get_str("far-password-file");
    let timeout = matches.get_one::<u32>("far-timeout");
    let Some(address) = matches.get_str("far-resp") else {
        if password_file.is_some() {
            return Err(FarserveFault::Storeless("far-password-file"));
        }
        if timeout.is_some() {
            return Err(FarserveFault::Storeless("far-timeout"));
        }
        return Ok(None);
    };
    if matches.get_str("far").is_some() {
        return Err(FarserveFault::Stored("far"));
    }
    if matches.get_str("far-limit").is_some() {
        return Err(FarserveFault::Stored("far-limit"));
    }
    let is_path = address.starts_with('/') && address.len() <= MOST_PATH;
    if !is_path && port_of(address).is_none() {
        return Err(FarserveFault::Store(address));
    }
    Ok(Some(Store {
        address,
        password_file,
        timeout: timeout.unwrap_or(5),
    }))
}

/// The number of the last of so many databases, from 0.
fn last_of(databases: u32) -> u8 {
    (databases.clamp(1, MOST_DATABASES) - 1) as u8
}

impl<'a> CommandLine<'a> {
    /// Reads what the command line asks for, and fills in defaults.
    ///
    /// The first check that fails returns its fault. The checks are in the order of this function, not in
    /// that of the words. `FarserveFault::Memory` is returned if an allocation fails.
    pub fn of(
        alloc: Global,
        matches: &ArgMatches<'a>,
    ) -> Result<CommandLine<'a>, FarserveFault<'a>> {
        let memory_text = matches.get_str("memory").unwrap_or("");
        let value_text = matches.get_str("value-limit").unwrap_or("1m");
        let Some(pipes) = matches.get_str("pipes") else {
            return Err(FarserveFault::Pipes);
        };
        let value_limit = size("value-limit", value_text, 1, MOST_VALUE)?;
        let far_limit = match matches.get_str("far-limit") {
            Some(text) => size("far-limit", text, 0, u64::MAX)?,
            None => u64::MAX,
        };
        let folders = matches.get_strs("far").unwrap_or(&[]);
        if folders.len() > MOST_FOLDERS {
            return Err(FarserveFault::Folders);
        }
        let Ok(folders) = Vec::from_slice(alloc, folders) else {
            return Err(FarserveFault::Memory);
        };
        let asked = CommandLine {
            memory: size("memory", memory_text, 1, MOST_MEMORY)?,
            memory_text,
            folders,
            store: far_store(matches)?,
            far_limit,
            evicts: matches.get_str("policy").unwrap_or("noeviction") == "allkeys",
            buckets: matches.get_one::<u32>("buckets"),
            value_limit: value_limit.min(MOST_VALUE) as u32,
            threads: matches.get_one::<u32>("threads").unwrap_or(4),
            port: matches.get_one::<u32>("port").unwrap_or(6379).min(65_535) as u16,
            bind: matches.get_str("bind").unwrap_or("127.0.0.1"),
            unix: matches.get_str("unix"),
            password_file: matches.get_str("password-file"),
            timeout: matches.get_one::<u32>("timeout").unwrap_or(0),
            auth_timeout: matches
                .get_one::<u32>("auth-timeout")
                .unwrap_or(AUTH_TIMEOUT),
            most_clients: matches.get_one::<u32>("maxclients").unwrap_or(CLIENTS),
            last_database: last_of(matches.get_one::<u32>("databases").unwrap_or(DATABASES)),
            slow: matches.get_one::<i64>("slow").unwrap_or(SLOW),
            log_level: matches.get_str("log-level").unwrap_or("notice"),
            names: matches.get_str("names"),
            pipes,
        };
        asked.check_addresses()?;
        Ok(asked)
    }

    /// How many version numbers a map of this many buckets has before it is renewed. It is 2^40 - 1 if
    /// `--names` is not given.
    ///
    /// `FarserveFault::Names` is returned if the text is no number from 16 for each bucket to 2^40 - 1.
    pub fn names(&self, buckets: u32) -> Result<u64, FarserveFault<'a>> {
        let Some(text) = self.names else {
            return Ok(MOST_NAMES);
        };
        let least = u64::from(buckets).saturating_mul(LEAST_NAMES);
        match text.parse::<u64>() {
            Ok(names) if least <= names && names <= MOST_NAMES => Ok(names),
            _ => Err(FarserveFault::Names(text, least, MOST_NAMES)),
        }
    }

    /// Where objects without a frame are stored.
    pub fn tier(&self) -> Tier {
        if self.store.is_some() {
            Tier::Store
        } else if self.folders.is_empty() {
            Tier::Nowhere
        } else {
            Tier::Files
        }
    }

    /// Checks the addresses to listen at.
    ///
    /// `FarserveFault::Bind` is returned if `--bind` is no IP address. `FarserveFault::Open` is returned if it is not
    /// loopback and there is no password. `FarserveFault::Unix` is returned if the path of the Unix socket is empty
    /// or too long.
    fn check_addresses(&self) -> Result<(), FarserveFault<'a>> {
        let Ok(address) = self.bind.parse::<IpAddr>() else {
            return Err(FarserveFault::Bind(self.bind));
        };
        if !address.is_loopback() && self.password_file.is_none() {
            return Err(FarserveFault::Open(self.bind));
        }
        match self.unix {
            Some(path) if path.is_empty() || path.len() > MOST_PATH => Err(FarserveFault::Unix(
                path,
            )),
            _ => Ok(()),
        }
    }
}
