//! The clients of a case, and the gateway between them and the workers.

use crate::packets::{CLOSE, DATA, OPEN, Packet, WAKE, first_packet, push_packet};
use crate::replies::{Told, first_reply};
use crate::wires::Wires;
use anyhow::{Result, bail};
use std::alloc::Global;
use std::mem;
use std::rt::Clock;
use std::sync::Wait;
use std::time::Duration;

/// The most bytes of data in a packet.
const LARGEST: usize = 60_000;

/// How many seconds a reply may take.
const PATIENCE: u64 = 40;

/// How often it is looked for a reply at most.
const LOOKS: u32 = 10_000_000;

/// A client with a connection of its own.
#[derive(Drop)]
struct Client {
    name: Vec<u8>,
    worker: usize,
    /// The number of its connection among those of the worker.
    number: u64,
    /// What was sent to it, and was not told.
    replies: Vec<u8>,
    /// Whether the gateway has closed the connection, and whether the worker has.
    has_left: bool,
    is_closed: bool,
}

/// The clients of a case, and the gateway between them and the workers.
#[derive(Drop)]
pub struct Gateway<'a, R> {
    rt: &'a R,
    alloc: Global,
    wires: &'a Wires,
    pieces: usize,
    /// Of each worker what it wrote, without whole packets.
    unread: Vec<Vec<u8>>,
    clients: Vec<Client>,
}

impl<'a, R> Gateway<'a, R> {
    /// Before so many workers. Requests go in pieces of so many bytes with a wake behind each, or as a whole where these are none.
    pub fn new(
        rt: &'a R,
        alloc: Global,
        wires: &'a Wires,
        workers: u32,
        pieces: usize,
    ) -> Result<Self> {
        let mut unread = Vec::new(alloc);
        for _ in 0..workers {
            unread.push(Vec::new(alloc))?;
        }
        Ok(Gateway {
            rt,
            alloc,
            wires,
            pieces,
            unread,
            clients: Vec::new(alloc),
        })
    }

    fn at(&self, place: usize) -> Result<&Client> {
        match self.clients.get(place) {
            Some(client) => Ok(client),
            None => bail!("there is no such client"),
        }
    }

    /// What a client was sent and waits to be told: its first reply, where that is whole.
    fn take_reply(&mut self, place: usize) -> Result<Option<Told>> {
        let Some(client) = self.clients.get_mut(place) else {
            bail!("there is no such client");
        };
        let Some(told) = first_reply(self.alloc, client.replies.as_slice())? else {
            return Ok(None);
        };
        let mut rest = Vec::new(self.alloc);
        rest.extend_from_slice(client.replies.get(told.len..).unwrap_or(b""))?;
        client.replies = rest;
        Ok(Some(told))
    }

    /// The client of a connection.
    fn client_of(&mut self, worker: usize, number: u64) -> Option<&mut Client> {
        let place = self.clients.iter().position(|client| client.worker == worker
            && client.number == number)?;
        self.clients.get_mut(place)
    }
}

impl<'a, R: Wait + Clock> Gateway<'a, R> {
    fn send_packet(&self, worker: usize, kind: u8, number: u64) -> Result<()> {
        let mut packet = Vec::new(self.alloc);
        push_packet(&mut packet, kind, number, b"")?;
        self.wires.send(self.rt, worker, packet.as_slice())
    }

    /// The place of the client of this name. A new one connects: clients go to the workers in turn.
    pub fn client(&mut self, name: &[u8]) -> Result<usize> {
        let place = self
            .clients
            .iter()
            .position(|client| client.name.as_slice() == name);
        if let Some(place) = place {
            return Ok(place);
        }
        let place = self.clients.len();
        let worker = place.checked_rem(self.unread.len()).unwrap_or(0);
        let others = self.clients.iter().filter(|client| client.worker == worker);
        let number = others.count() as u64;
        let mut own = Vec::new(self.alloc);
        own.extend_from_slice(name)?;
        self.clients.push(Client {
            name: own,
            worker,
            number,
            replies: Vec::new(self.alloc),
            has_left: false,
            is_closed: false,
        })?;
        self.send_packet(worker, OPEN, number)?;
        Ok(place)
    }

    /// A client sends bytes.
    pub fn send(&mut self, place: usize, bytes: &[u8]) -> Result<()> {
        let client = self.at(place)?;
        if client.has_left {
            return Ok(());
        }
        let (worker, number) = (client.worker, client.number);
        let size = if self.pieces == 0 {
            LARGEST
        } else {
            self.pieces
        };
        let mut packets = Vec::new(self.alloc);
        for piece in bytes.chunks(size.max(1)) {
            push_packet(&mut packets, DATA, number, piece)?;
            if self.pieces > 0 {
                push_packet(&mut packets, WAKE, 0, b"")?;
            }
        }
        self.wires.send(self.rt, worker, packets.as_slice())
    }

    /// Takes a packet of a worker.
    fn take(&mut self, worker: usize, packet: Packet<'_>) -> Result<()> {
        if packet.kind == WAKE {
            for other in 0..self.unread.len() {
                self.send_packet(other, WAKE, 0)?;
            }
            return Ok(());
        }
        let Some(client) = self.client_of(worker, packet.number) else {
            return Ok(());
        };
        if packet.kind == DATA {
            client.replies.extend_from_slice(packet.data)?;
        }
        if packet.kind == CLOSE {
            client.is_closed = true;
            let answers = !client.has_left;
            client.has_left = true;
            if answers {
                self.send_packet(worker, CLOSE, packet.number)?;
            }
        }
        Ok(())
    }

    /// Takes the whole packets that a worker wrote.
    fn take_all(&mut self, worker: usize) -> Result<()> {
        let Some(unread) = self.unread.get_mut(worker) else {
            return Ok(());
        };
        let bytes = mem::replace(unread, Vec::new(self.alloc));
        let mut rest = bytes.as_slice();
        for _ in 0..bytes.len() {
            let Some(packet) = first_packet(rest) else {
                break;
            };
            self.take(worker, packet)?;
            rest = rest.get(packet.len..).unwrap_or(b"");
        }
        if let Some(unread) = self.unread.get_mut(worker) {
            unread.extend_from_slice(rest)?;
        }
        Ok(())
    }

    /// Takes what the workers wrote, and waits where they wrote nothing.
    fn look(&mut self) -> Result<()> {
        let patience = Duration::from_secs(PATIENCE);
        if !self
            .wires
            .receive(self.rt, patience, self.unread.as_mut_slice())?
        {
            bail!("no reply came");
        }
        for worker in 0..self.unread.len() {
            self.take_all(worker)?;
        }
        Ok(())
    }

    /// The next reply to a client. None where its connection is closed.
    pub fn reply(&mut self, place: usize) -> Result<Option<Told>> {
        for _ in 0..LOOKS {
            if let Some(told) = self.take_reply(place)? {
                return Ok(Some(told));
            }
            if self.at(place)?.is_closed {
                return Ok(None);
            }
            let is_ended = self.wires.is_ended(self.rt);
            self.look()?;
            if is_ended {
                return self.take_reply(place);
            }
        }
        bail!("no reply came")
    }

    /// A client closes its connection, and waits until the worker has closed it too.
    pub fn close(&mut self, place: usize) -> Result<()> {
        let client = self.at(place)?;
        let (worker, number) = (client.worker, client.number);
        if !client.has_left {
            self.send_packet(worker, CLOSE, number)?;
        }
        for _ in 0..LOOKS {
            if let Some(client) = self.clients.get_mut(place) {
                client.has_left = true;
            }
            if self.at(place)?.is_closed || self.wires.is_ended(self.rt) {
                return Ok(());
            }
            self.look()?;
        }
        Ok(())
    }

    /// The pipe to the worker of a client breaks off inside a packet.
    pub fn cut(&mut self, place: usize) -> Result<()> {
        let worker = self.at(place)?.worker;
        self.wires.send(self.rt, worker, &[DATA, 0, 0])?;
        self.wires.close(self.rt, worker);
        Ok(())
    }

    /// All clients close their connections, and nothing comes behind that.
    pub fn end(&mut self) -> Result<()> {
        for client in &self.clients {
            if !client.has_left {
                self.send_packet(client.worker, CLOSE, client.number)?;
            }
        }
        for client in &mut self.clients {
            client.has_left = true;
        }
        self.close_pipes();
        Ok(())
    }

    /// Nothing comes any more.
    pub fn close_pipes(&self) {
        for worker in 0..self.unread.len() {
            self.wires.close(self.rt, worker);
        }
    }
}
