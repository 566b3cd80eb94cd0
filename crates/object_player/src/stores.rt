//! Devices over a store that is in the process, and over one whose replies a case says.

use crate::calls::call;
use crate::devices::{behind_lock, has};
use crate::numbers::Numbers;
use crate::peers::{Peer, PeerFault, Store};
use crate::runs::Wanted;
use crate::world::{World, fault, flag, named, nothing, refused_or, run, shown, text, word};
use anyhow::{Result, bail};
use case_files::{Line, Playing, push_spelled};
use resp::{Limits, Parsed, parse};
use resp_device::RespDevice;
use std::alloc::Global;
use std::hash::RandomState;
use std::io::{ErrorKind, Read, Write};
use std::random::RandomSource;

/// The bytes of a prefix whose next one carries.
const PREFIX: [u8; 16] = [
    0x0f, 0x1e, 0x2d, 0x3c, 0x4b, 0x5a, 0x69, 0x78, 0x87, 0x96, 0xa5, 0xb4, 0xc3, 0xd2, 0xe1, 0xff,
];

/// The lane of the devices.
const LANE: u8 = 10;

/// What a request of a device may have.
const LIMITS: Limits = Limits {
    arguments: 3,
    bytes: 1 << 20,
    line: 0,
};

/// Room for what a peer is asked, so that no growth is refused to it in the midst of a call.
const ROOM: usize = 4096;

/// How many ids a run has.
const IDS: usize = 40;

fn over<P: Read + Write + Drop, R: RandomSource>(
    rt: &R,
    alloc: Global,
    peer: P,
) -> Result<RespDevice<P>> {
    let keys = RandomState::new(rt)?;
    Ok(RespDevice::new(alloc, peer, PREFIX, LANE, keys)?)
}

/// What each device over a store can be asked beside the calls of all devices.
fn look<P: Read + Write + Drop>(
    alloc: Global,
    device: &mut RespDevice<P>,
    line: &Line,
) -> Result<String> {
    match line.call() {
        "last_failure" => match device.last_failure() {
            None => text(alloc, "none"),
            Some(why) => fault(alloc, &why),
        },
        "is_live" => flag(alloc, device.is_live()),
        "len" => shown(alloc, &device.len()),
        _ => call(alloc, device, line),
    }
}

/// A device over a store in the process.
#[derive(Drop)]
struct OverStore {
    alloc: Global,
    device: RespDevice<Store>,
}

/// A device over a peer that replies what a case says.
#[derive(Drop)]
struct OverPeer {
    alloc: Global,
    device: RespDevice<Peer>,
    /// How many calls of the pipes are not told of any more.
    forgotten: u64,
}

pub(crate) fn play_store<R: RandomSource>(
    rt: &R,
    alloc: Global,
    first: &Line,
    playing: &mut Playing<'_>,
) -> Result<()> {
    let fault = match first.named("fault") {
        None | Some(b"refuses") => PeerFault::Refuses,
        Some(b"forgets") => PeerFault::Forgets,
        Some(b"flips") => PeerFault::Flips,
        _ => bail!("fault= is refuses, forgets or flips"),
    };
    let every = u64::from(named(first, "every", 0)?);
    let step = named(first, "step", 1000)? as usize;
    let device = over(rt, alloc, Store::new(alloc, step, fault, every))?;
    if has(first, "locked") {
        run_locked(alloc, device, first, playing);
        return Ok(());
    }
    run(alloc, first, playing, &mut OverStore { alloc, device });
    Ok(())
}

/// Plays the case on a device behind a lock, which threads can share.
fn run_locked(alloc: Global, device: RespDevice<Store>, first: &Line, playing: &mut Playing<'_>) {
    run(alloc, first, playing, &mut behind_lock(alloc, device));
}

/// How a read or a write fails, where the line says so.
fn kind(line: &Line, name: &str) -> Result<Option<ErrorKind>> {
    match line.named(name) {
        None => Ok(None),
        Some(b"broken_pipe") => Ok(Some(ErrorKind::BrokenPipe)),
        Some(b"connection_reset") => Ok(Some(ErrorKind::ConnectionReset)),
        _ => bail!("{name}= is broken_pipe or connection_reset"),
    }
}

/// Adds a reply: to one request, or to each of a name.
fn add_answer(alloc: Global, peer: &mut Peer, line: &Line) -> Result<()> {
    let first = Vec::from_slice(alloc, word(line, 1)?)?;
    match line.word(2) {
        None => peer.replies.push(first)?,
        Some(reply) => peer.named.push((first, Vec::from_slice(alloc, reply)?))?,
    }
    Ok(())
}

/// The peer that the line describes, with the replies that the next lines `answers` say.
fn peer(alloc: Global, line: &Line, playing: &mut Playing<'_>) -> Result<Peer> {
    let mut peer = Peer::new(alloc, named(line, "step", 1000)? as usize);
    peer.asked.reserve(ROOM)?;
    peer.write_fails = kind(line, "write_fails")?;
    peer.read_fails = kind(line, "read_fails")?;
    peer.interrupts = has(line, "interrupts");
    for _ in 0..playing.case().lines.len() {
        match playing.peek() {
            Some(next) if next.call() == "answers" => {
                add_answer(alloc, &mut peer, next)?;
                let _ = playing.next();
            }
            _ => break,
        }
    }
    Ok(peer)
}

pub(crate) fn play_peer<R: RandomSource>(
    rt: &R,
    alloc: Global,
    first: &Line,
    playing: &mut Playing<'_>,
) -> Result<()> {
    let device = over(rt, alloc, peer(alloc, first, playing)?)?;
    let mut world = OverPeer {
        alloc,
        device,
        forgotten: 0,
    };
    playing.tell(first, nothing(alloc));
    for _ in 0..playing.case().lines.len() {
        let Some(line) = playing.next() else {
            break;
        };
        if line.call() == "reconnect" {
            let reply = match peer(alloc, line, playing) {
                Ok(peer) => world.reconnect(peer),
                Err(mistake) => Err(mistake),
            };
            playing.tell(line, reply);
            continue;
        }
        for _ in 0..2 {
            let reply = refused_or(alloc, world.call(line));
            if !playing.tell(line, reply) {
                break;
            }
        }
    }
    Ok(())
}

impl OverPeer {
    /// Gives the device this peer, and replies what the one before was asked.
    fn reconnect(&mut self, peer: Peer) -> Result<String> {
        let before = self.device.reconnect(peer);
        told_requests(self.alloc, before.asked.as_slice())
    }
}

impl World for OverPeer {
    fn call(&mut self, line: &Line) -> Result<String> {
        match line.call() {
            "asked" => told_requests(self.alloc, self.device.pipes().asked.as_slice()),
            "pipe_calls" => {
                let calls = self.device.pipes().calls;
                shown(self.alloc, &calls.saturating_sub(self.forgotten))
            }
            "forget_pipe_calls" => {
                self.forgotten = self.device.pipes().calls;
                nothing(self.alloc)
            }
            _ => look(self.alloc, &mut self.device, line),
        }
    }
}

/// The requests that the bytes are, a line for each.
fn told_requests(alloc: Global, bytes: &[u8]) -> Result<String> {
    let mut out = String::new(alloc);
    let mut rest = bytes;
    let mut spans = Vec::new(alloc);
    for _ in 0..bytes.len() {
        if rest.is_empty() {
            break;
        }
        let size = match parse(rest, LIMITS, &mut spans)? {
            Parsed::Request { consumed } => consumed,
            _ => rest.len(),
        };
        if !out.is_empty() {
            out.push('\n')?;
        }
        let (request, behind) = rest.split_at_checked(size).unwrap_or((rest, &[]));
        push_spelled(&mut out, request)?;
        rest = behind;
    }
    Ok(out)
}

impl World for OverStore {
    fn call(&mut self, line: &Line) -> Result<String> {
        match line.call() {
            "keys" => shown(self.alloc, &self.device.pipes().count()),
            "run" => random_calls(self.alloc, &mut self.device, line),
            _ => look(self.alloc, &mut self.device, line),
        }
    }
}

/// Makes so many random calls, at least so many of which fail, or none where `least=` is 0.
fn random_calls(alloc: Global, device: &mut RespDevice<Store>, line: &Line) -> Result<String> {
    let mut wanted = Wanted::new(alloc, IDS)?;
    let mut numbers = Numbers::new(u64::from(named(line, "seed", 1)?));
    for _ in 0..named(line, "calls", 1)? {
        let (id, turn) = (numbers.below(IDS), numbers.below(4));
        let object = (numbers.small(2000), numbers.next());
        match turn {
            // A write that fails leaves nothing.
            0 => wanted.write(device, (id, object), true)?,
            1 => wanted.remove(device, id)?,
            _ => wanted.read(device, id)?,
        }
    }
    wanted.end(device)?;
    if !device.is_live() {
        bail!("the pipes are broken");
    }
    wanted.told(u64::from(named(line, "least", 0)?))
}
