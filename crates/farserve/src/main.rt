//! The program `farserve`, the proved half of the server. `bin/farserve` starts it together with the gateway.
//!
//! All options are read here. If they are good, standard output gets the number of workers and the gateway's
//! arguments. A NUL follows each of them, and one more NUL is the end. Standard error gets a line with what
//! was chosen. Then the program serves until the gateway has ended.
#![tactic(auto)]

ghost use Rattle.std.specs.Prelude.{◌≡◌, ◌≤◌, ◌-◌, true, All, OnOk, vec_len};
ghost use Rattle.std.specs.Option.{is_some};
ghost use Rattle.farserve.specs.Serving.{is_served, IsServed, IsAskedFor, HasServed};

mod bounded_disk;
mod command_line;
mod counted_device;
mod devices;
mod fault;
mod link;
mod memory_plan;
mod password;
mod pipes;
mod reasons;
mod rest;
mod resting_store;
mod sizes;
mod stores;

use anyhow::{Result, bail};
use command_line::{CommandLine, Store, command};
use devices::{DEVICES, open_far, open_none, space_for, usage_over};
use far_device::Device;
use far_map::{MapFault, Settings};
use far_server::{Bounds, FarUsage, ServerSettings, WorkerEnd, run_server};
use fault::FarserveFault;
use memory_plan::{Sizes, Tier, divide, least_memory};
use pipes::{Input, NamedPipes, Output};
use resp::Limits;
use server_commands::Options;
use std::env::Env;
use std::fs::File;
use std::io::ErrorKind;
use std::process::ExitCode;
use std::random::RandomSource;
use std::rt::Files;
use std::sync::Wait;
use std::thread::Threads;
use std::{env, io};
use stored_keys::DigestKeys;
use stores::open_stores;

/// How a worker, or the sweep, has ended.
type End = WorkerEnd<Input, Output>;

/// The least and the greatest limit of a bucket's object, in bytes. Keys that share a bucket share it.
const BUCKET: (u32, u32) = (4 << 20, 16 << 20);

/// The least limit of a request, and of the requests that wait for EXEC on a connection, in bytes.
const REQUEST: u32 = 4 << 20;

/// From this many version numbers for each bucket on, a map is not renewed often.
const MANY_NAMES: u64 = 64;

/// The most arguments of a request, and the most bytes of a line of words.
const ARGUMENTS: u32 = 65_536;

/// The limit of a request, and of the requests that wait for EXEC on a connection, in bytes. `value` is the
/// most bytes of a value.
fn request_for(value: u32) -> u32 {
    value.saturating_mul(2).max(REQUEST)
}

/// Divides the memory that is asked for. `FarserveFault::Little` is returned if it is too little.
fn divided<'a>(asked: &CommandLine<'a>) -> Result<Sizes, FarserveFault<'a>> {
    let (buckets, threads, tier) = (asked.buckets, asked.threads, asked.tier());
    let (value, request) = (asked.value_limit, request_for(asked.value_limit));
    match divide(asked.memory, buckets, threads, tier, value, request) {
        Some(sizes) => Ok(sizes),
        None => Err(FarserveFault::Little(
            asked.memory_text,
            least_memory(buckets, threads, tier, value, request),
        )),
    }
}

/// How many devices there are, besides the one for renewals.
///
/// Each device keeps the memory of the largest objects that it wrote and read. Several devices help only if
/// several requests run at once. So there is one device if all requests take turns.
fn devices_for(sizes: Sizes) -> u32
    ensures { result ≤ 4 }
{
    if sizes.large > 0 { DEVICES } else { 1 }
}

/// The limit of scratch files as INFO reports it.
fn told_limit(limit: u64) -> Option<u64> {
    if limit == u64::MAX { None } else { Some(limit) }
}

/// The settings of the server.
fn settings(
    asked: &CommandLine<'_>,
    sizes: Sizes,
    names: u64,
    password: Option<[u8; 32]>,
    digest_keys: DigestKeys,
    seed: u64,
) -> ServerSettings
    requires { is_some password ≡ is_some asked.now.password_file }
    ensures { IsAskedFor asked.now result }
{
    let value = asked.value_limit;
    let bucket = value.saturating_mul(4).clamp(BUCKET.0, BUCKET.1);
    let map = Settings {
        bytes: sizes.bytes,
        names,
        ..Settings::new(sizes.buckets, sizes.frames, bucket)
    };
    let requests = Limits {
        arguments: ARGUMENTS,
        bytes: request_for(value),
        line: ARGUMENTS,
    };
    ServerSettings {
        map,
        is_far: asked.tier() != Tier::Nowhere,
        workers: asked.threads,
        requests,
        bounds: Bounds {
            longest_value: value,
            longest_reply: sizes.reply,
            last_database: asked.last_database,
        },
        longest_queue: requests.bytes,
        large: sizes.large,
        far_limit: told_limit(asked.far_limit),
        password,
        digest_keys,
        seed,
        options: Options {
            most_memory: asked.memory,
            evicts: asked.evicts,
            most_clients: u64::from(asked.most_clients),
            timeout: u64::from(asked.timeout),
            longest_value: u64::from(value),
            port: u32::from(asked.port),
            workers: asked.threads,
            databases: u32::from(asked.last_database) + 1,
            slow: asked.slow,
        },
    }
}

/// A random number. `FarserveFault::Random` is returned if the system gives none.
fn drawn<'a, R: RandomSource>(rt: &R) -> Result<u64, FarserveFault<'a>> {
    let mut bytes = [0; 8];
    match rt.fill_bytes(&mut bytes) {
        Ok(()) => Ok(u64::from_le_bytes(bytes)),
        Err(fault) => Err(FarserveFault::Random(fault)),
    }
}

/// Writes the gateway's arguments for a store, with the pipes of this many devices and of the one for
/// renewals.
fn tell_links(rt: &impl Print, folder: &str, store: Store<'_>, devices: u32) -> io::Result<()> {
    let (address, timeout) = (store.address, store.timeout);
    print!(rt; "--far-resp\0{address}\0--far-timeout\0{timeout}\0")?;
    if let Some(path) = store.password_file {
        print!(rt; "--far-password-file\0{path}\0")?;
    }
    for lane in 0..=devices {
        print!(rt; "--far-link\0{folder}/far-requests{lane}\0{folder}/far-replies{lane}\0")?;
    }
    Ok(())
}

/// Writes how many workers there are, and the gateway's arguments.
fn tell_gateway(rt: &impl Print, asked: &CommandLine<'_>, sizes: Sizes) -> io::Result<()> {
    let (workers, port, bind, timeout) = (asked.threads, asked.port, asked.bind, asked.timeout);
    let (auth_timeout, clients) = (asked.auth_timeout, asked.most_clients);
    let (memory, reply, level) = (sizes.clients, sizes.reply, asked.log_level);
    print!(rt; "{workers}\0--port\0{port}\0--bind\0{bind}\0--timeout\0{timeout}\0")?;
    print!(rt; "--auth-timeout\0{auth_timeout}\0--connections\0{clients}\0")?;
    print!(rt; "--clients-memory\0{memory}\0--output-limit\0{reply}\0")?;
    print!(rt; "--log-level\0{level}\0")?;
    if let Some(path) = asked.unix {
        print!(rt; "--unix\0{path}\0")?;
    }
    if asked.password_file.is_some() {
        print!(rt; "--guarded\0")?;
    }
    if let Some(store) = asked.store {
        tell_links(rt, asked.pipes, store, devices_for(sizes))?;
    }
    print!(rt; "\0")
}

/// Writes to standard error what was chosen.
fn tell_log(rt: &impl Eprint, asked: &CommandLine<'_>, sizes: Sizes) -> io::Result<()> {
    let (memory, threads, value) = (asked.memory, asked.threads, asked.value_limit);
    let (buckets, bytes) = (sizes.buckets, sizes.bytes);
    eprint!(rt;
        "farserve: {memory} bytes of memory, {bytes} of them for objects, {buckets} buckets, {threads} threads, "
    )?;
    eprint!(rt; "values up to {value} bytes, far in")?;
    for folder in asked.folders.as_slice() {
        eprint!(rt; " {folder}")?;
    }
    if let Some(store) = asked.store {
        let address = store.address;
        eprint!(rt; " the store at {address}")?;
    } else if asked.folders.is_empty() {
        eprint!(rt; " no folder")?;
    } else if asked.far_limit < u64::MAX {
        let most = asked.far_limit;
        eprint!(rt; ", {most} bytes at most")?;
    }
    eprint!(rt; "\n")
}

/// Warns if the map may be renewed every few commands. A renewal draws a version number for each pair that it
/// puts into the next map.
fn warn_of_names(rt: &impl Eprint, names: u64, buckets: u32) -> io::Result<()> {
    let many = u64::from(buckets).saturating_mul(MANY_NAMES);
    if names < many {
        eprintln!(rt;
            "farserve: --names {names}: the map may be renewed often; from {many} on it is not"
        )?;
    }
    Ok(())
}

/// Writes what was chosen, and the gateway's arguments. `FarserveFault::Write` is returned if the arguments can't be
/// written.
fn tell<'a, R: Print + Eprint>(
    rt: &R,
    asked: &CommandLine<'a>,
    sizes: Sizes,
) -> Result<(), FarserveFault<'a>> {
    let _ = tell_log(rt, asked, sizes);
    match tell_gateway(rt, asked, sizes) {
        Ok(()) => Ok(()),
        Err(_) => Err(FarserveFault::Write),
    }
}

/// `FarserveFault::Worker` with the fault that ended the worker, if one did. The sweep is no worker.
fn check_end<'a>(end: &End) -> Result<(), FarserveFault<'a>>
    ensures { OnOk result (is_served end.now ≡ true) }
{
    match end {
        WorkerEnd::Served(Ok(_)) => Ok(()),
        WorkerEnd::Served(Err(fault)) => Err(FarserveFault::Worker(*fault)),
        WorkerEnd::Sweep => Err(FarserveFault::Run(MapFault::Stopped)),
    }
}

/// The same for all workers. The fault is that of the first that has one.
fn check_ends<'a>(ends: &[End]) -> Result<(), FarserveFault<'a>>
    ensures served { OnOk result (All (λ end. is_served end ≡ true) ends.now) }
{
    for end in ends {
        check_end(end)?;
    }
    Ok(())
}

/// Serves over these devices until the gateway has ended. The last device is for renewals.
///
/// `FarserveFault::Run` is returned if the map can't be run or its devices fail, and `FarserveFault::Worker` if a worker ends
/// before its requests do. `FarserveFault::Memory` is returned if there is no device.
fn serve_over<'a, D, R>(
    rt: &R,
    host: HostRuntime,
    asked: &CommandLine<'a>,
    settings: ServerSettings,
    mut devices: Vec<D>,
    usage: &FarUsage,
) -> Result<(), FarserveFault<'a>>
where
    D: Device + Send,
    R: AllocGlobal + Threads + Wait + Sync,
    // What was served is by these settings, over all devices but the last.
    ensures served { OnOk result (IsServed settings (vec_len devices - 1) D.HONEST) }
{
    let Some(spool) = devices.pop() else {
        return Err(FarserveFault::Memory);
    };
    let pipes = NamedPipes {
        rt: host,
        folder: asked.pipes,
    };
    let mut ends = match run_server(
        rt,
        rt.alloc(),
        settings,
        devices,
        spool,
        usage,
        &pipes,
        &host,
    ) {
        Ok(ends) => ends,
        Err(fault) => return Err(FarserveFault::Run(fault)),
    };
    let Some(_sweep) = ends.pop() else {
        return Err(FarserveFault::Run(MapFault::Stopped));
    };
    check_ends(ends.as_slice())
}

/// Serves what the options ask for, until the gateway has ended.
fn serve<'a, R>(rt: &R, host: HostRuntime, asked: &CommandLine<'a>) -> Result<(), FarserveFault<'a>>
where
    R: Files<File = File> + AllocGlobal + Print + Eprint + Threads + Wait + Sync,
    // The answers are those of one history for each map, unless a digest collided.
    ensures served { OnOk result (HasServed asked.now) }
{
    let tier = asked.tier();
    let sizes = divided(asked)?;
    let password = match asked.password_file {
        Some(path) => Some(password::digest_of(rt, rt.alloc(), path)?),
        None => None,
    };
    let names = asked.names(sizes.buckets)?;
    let _ = warn_of_names(rt, names, sizes.buckets);
    let digest_keys = DigestKeys {
        first: drawn(&host)?,
        second: drawn(&host)?,
    };
    let seed = drawn(&host)?;
    let settings = settings(asked, sizes, names, password, digest_keys, seed);
    match tier {
        Tier::Nowhere => {
            let usage = FarUsage::new();
            let devices = open_none(&host, &usage)?;
            tell(rt, asked, sizes)?;
            serve_over(rt, host, asked, settings, devices, &usage)
        }
        Tier::Files => {
            let folders = asked.folders.as_slice();
            let count = devices_for(sizes);
            let space = space_for(&host, folders, count)?;
            let usage = usage_over(&space)?;
            let devices = open_far(host, folders, count, asked.far_limit, &space, &usage)?;
            tell(rt, asked, sizes)?;
            serve_over(rt, host, asked, settings, devices, &usage)
        }
        Tier::Store => {
            // The gateway opens the other ends after it has read its arguments.
            tell(rt, asked, sizes)?;
            let usage = FarUsage::new();
            let devices = open_stores(host, asked.pipes, devices_for(sizes) + 1, &usage)?;
            serve_over(rt, host, asked, settings, devices, &usage)
        }
    }
}

/// Does what these arguments ask for, and returns the exit status: 0, 1 if the system refused something or a
/// part failed, 2 for wrong arguments.
fn run_words<R>(rt: &R, host: HostRuntime, words: &[String]) -> Result<u8>
where
    R: Files<File = File> + AllocGlobal + Print + Eprint + Threads + Wait + Sync,
{
    let command = command(rt.alloc())?;
    let matches = match command.try_get_matches_from(words) {
        Ok(matches) => matches,
        Err(error) => {
            error.print(rt)?;
            return Ok(if error.exit_code() == 0 { 0 } else { 2 });
        }
    };
    let served = match CommandLine::of(rt.alloc(), &matches) {
        Ok(asked) => serve(rt, host, &asked),
        Err(fault) => Err(fault),
    };
    match served {
        Ok(()) => Ok(0),
        Err(fault) => {
            eprintln!(rt; "farserve: {fault}")?;
            Ok(fault.status())
        }
    }
}

/// Does what the program's arguments ask for. Arguments that are not UTF-8 are wrong ones.
fn run<R>(rt: &R, host: HostRuntime) -> Result<u8>
where
    R: Env + Files<File = File> + AllocGlobal + Print + Eprint + Threads + Wait + Sync,
{
    let words = match env::args(rt) {
        Ok(words) => words,
        Err(fault) if fault.kind() == ErrorKind::InvalidData => {
            eprintln!(rt; "farserve: an argument is no UTF-8 text")?;
            return Ok(2);
        }
        Err(fault) => bail!("{fault}"),
    };
    let words: Vec<String> = words.skip(1).collect(rt.alloc())?;
    run_words(rt, host, words.as_slice())
}

fn main(rt: HostRuntime) -> ExitCode {
    let status = match run(&rt, rt) {
        Ok(status) => status,
        Err(fault) => {
            let _ = eprintln!(rt; "farserve: {fault}");
            1
        }
    };
    ExitCode::from(status)
}
