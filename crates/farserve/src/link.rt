//! A device's two pipes to the gateway, which has a connection to the far store for each device.
//!
//! The pipes carry packets, which docs/FORMATS.md defines.
//!
//! - To the gateway: `OPEN` asks for another connection, in place of the last one. `DATA` has bytes for the
//!   store. `WAIT` is sent before the device waits for bytes.
//! - From the gateway: `DATA` has bytes of the store. `CLOSE` means that no more arrives by this connection:
//!   the store has ended it, was too late, or isn't there.

use crate::pipes::{Input, Output};
use std::io;
use std::io::{Error, ErrorKind, Read, Write};

const DATA: u8 = 0;

const OPEN: u8 = 1;

const CLOSE: u8 = 2;

const WAIT: u8 = 3;

/// Bytes of a packet's head.
const HEAD: usize = 13;

/// The most bytes that a packet carries.
const MOST: usize = 1 << 20;

/// Bytes that are skipped at once.
const PIECE: usize = 4096;

/// The two pipes. They stay open as long as the server runs.
#[derive(Drop)]
struct Ends {
    replies: Input,
    requests: Output,
    /// Bytes of the last packet that are not read yet.
    left: u32,
}

impl Ends {
    fn put_head(&mut self, kind: u8, number: u64, length: usize) -> io::Result<()> {
        let mut head = [kind; HEAD];
        head[1..9].copy_from_slice(&number.to_be_bytes());
        head[9..].copy_from_slice(&(length.min(MOST) as u32).to_be_bytes());
        self.requests.write_all(&head)
    }

    /// Skips the rest of the last packet.
    fn pass_over(&mut self) -> io::Result<()> {
        let mut room = [0; PIECE];
        for _ in 0..u32::MAX {
            if self.left == 0 {
                break;
            }
            let most = PIECE.min(self.left as usize);
            self.replies.read_exact(&mut room[..most])?;
            self.left -= most as u32;
        }
        Ok(())
    }

    /// Waits for a packet of this connection. True if it has data, false if the connection is over. Packets
    /// of earlier connections are skipped.
    fn next(&mut self, number: u64) -> io::Result<bool> {
        self.put_head(WAIT, number, 0)?;
        self.requests.flush()?;
        for _ in 0..u64::MAX {
            self.pass_over()?;
            let mut head = [0; HEAD];
            self.replies.read_exact(&mut head)?;
            let [kind, a, b, c, d, e, f, g, h, i, j, k, l] = head;
            self.left = u32::from_be_bytes([i, j, k, l]);
            if u64::from_be_bytes([a, b, c, d, e, f, g, h]) == number {
                match kind {
                    DATA if self.left > 0 => return Ok(true),
                    DATA => {}
                    CLOSE => return Ok(false),
                    _ => return Err(Error::from(ErrorKind::InvalidData)),
                }
            }
        }
        Ok(false)
    }
}

/// A connection to the store, or none. It has a number, by which its packets are known.
#[derive(Drop)]
pub struct Link {
    ends: Option<Ends>,
    number: u64,
    /// Whether the gateway was asked for this connection.
    asked: bool,
    /// Whether the last packet that was begun belongs to this connection.
    has_packet: bool,
    /// Whether no more arrives by this connection.
    over: bool,
}

impl Link {
    /// No connection. A device has this one for a moment, while it changes from one to the next.
    pub fn none() -> Link {
        Link {
            ends: None,
            number: 0,
            asked: false,
            has_packet: false,
            over: true,
        }
    }

    /// The first connection over these pipes. The gateway is asked for it at the first write.
    pub fn new(replies: Input, requests: Output) -> Link {
        Link {
            ends: Some(Ends {
                replies,
                requests,
                left: 0,
            }),
            number: 1,
            asked: false,
            has_packet: false,
            over: false,
        }
    }

    /// The next connection over the same pipes. The gateway is asked for it at the first write.
    pub fn next(self) -> Link {
        Link {
            ends: self.ends,
            number: self.number.wrapping_add(1),
            asked: false,
            has_packet: false,
            over: false,
        }
    }
}

impl Read for Link {
    /// Reads bytes of the store, and waits for them. Returns 0 once the connection is over.
    /// `ErrorKind::InvalidData` is returned if the gateway sends another kind of packet.
    fn read(&mut self, buf: &mut [u8]) -> io::Result<usize> {
        let Some(ends) = &mut self.ends else {
            return Ok(0);
        };
        if self.over {
            return Ok(0);
        }
        if !self.has_packet || ends.left == 0 {
            self.has_packet = ends.next(self.number)?;
            self.over = !self.has_packet;
            if self.over {
                return Ok(0);
            }
        }
        let most = buf.len().min(ends.left as usize);
        let count = ends.replies.read(&mut buf[..most])?;
        ends.left = ends.left.saturating_sub(count as u32);
        Ok(count)
    }
}

impl Write for Link {
    /// Writes at most 1 MiB for the store, as one packet. The first write asks the gateway for the
    /// connection. `ErrorKind::BrokenPipe` is returned if there are no pipes.
    fn write(&mut self, buf: &[u8]) -> io::Result<usize> {
        let Some(ends) = &mut self.ends else {
            return Err(Error::from(ErrorKind::BrokenPipe));
        };
        if !self.asked {
            ends.put_head(OPEN, self.number, 0)?;
            self.asked = true;
        }
        let most = buf.len().min(MOST);
        ends.put_head(DATA, self.number, most)?;
        ends.requests.write_all(&buf[..most])?;
        Ok(most)
    }

    fn flush(&mut self) -> io::Result<()> {
        match &mut self.ends {
            Some(ends) => ends.requests.flush(),
            None => Ok(()),
        }
    }
}
