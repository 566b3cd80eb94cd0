//! The packets between the gateway and a worker: as lines of a case, and as bytes.

use crate::mistake::{Mistake, WORDS};
use crate::reply::Reply;
use case_files::Line;
use std::alloc::{AllocError, Global};

pub(crate) const DATA: u8 = 0;

pub(crate) const OPEN: u8 = 1;

const CLOSE: u8 = 2;

const WAKE: u8 = 3;

const LET_IN: u8 = 4;

const LET_OUT: u8 = 5;

const NOTE: u8 = 6;

const HOLDS: u8 = 7;

/// So many equal bytes are shown as `BYTE*NUMBER`.
const LONG_RUN: usize = 64;

/// The most bytes that such a word stands for.
const LONGEST_RUN: usize = 1 << 22;

/// A packet as it is written: its kind, its connection and its bytes.
#[derive(Clone, Copy)]
pub(crate) struct Packet<'a> {
    pub(crate) kind: u8,
    pub(crate) connection: u64,
    pub(crate) bytes: &'a [u8],
}

/// The kind's byte, by its name.
fn named_kind(word: &str) -> Option<u8> {
    match word {
        "data" => Some(DATA),
        "open" => Some(OPEN),
        "close" => Some(CLOSE),
        "wake" => Some(WAKE),
        "let_in" => Some(LET_IN),
        "let_out" => Some(LET_OUT),
        "note" => Some(NOTE),
        "holds" => Some(HOLDS),
        _ => None,
    }
}

fn name_of(kind: u8) -> &'static str {
    match kind {
        DATA => "data",
        OPEN => "open",
        CLOSE => "close",
        WAKE => "wake",
        LET_IN => "let_in",
        LET_OUT => "let_out",
        NOTE => "note",
        HOLDS => "holds",
        _ => "unknown",
    }
}

/// `BYTE*NUMBER`.
fn run_of(word: &[u8]) -> Option<(usize, u8)> {
    let (byte, behind) = word.split_first()?;
    let digits = behind.strip_prefix(b"*")?;
    let count = str::from_utf8(digits).ok()?.parse::<usize>().ok()?;
    if count <= LONGEST_RUN {
        Some((count, *byte))
    } else {
        None
    }
}

fn push_word(out: &mut Vec<u8>, word: &[u8]) -> Result<(), AllocError> {
    match run_of(word) {
        None => out.extend_from_slice(word),
        Some((count, byte)) => {
            for _ in 0..count {
                out.push(byte)?;
            }
            Ok(())
        }
    }
}

/// The bytes that the words from this place on stand for together.
pub(crate) fn bytes_of(alloc: Global, line: &Line, from: usize) -> Result<Vec<u8>, AllocError> {
    let mut out = Vec::new(alloc);
    for word in line.rest(from) {
        push_word(&mut out, word.as_slice())?;
    }
    Ok(out)
}

fn push_head(out: &mut Vec<u8>, kind: u8, connection: u64, len: u32) -> Result<(), AllocError> {
    out.push(kind)?;
    out.extend_from_slice(&connection.to_be_bytes())?;
    out.extend_from_slice(&len.to_be_bytes())
}

pub(crate) fn push_packet(out: &mut Vec<u8>, packet: Packet<'_>) -> Result<(), Mistake> {
    let len = u32::try_from(packet.bytes.len()).ok().ok_or(WORDS)?;
    push_head(out, packet.kind, packet.connection, len)?;
    out.extend_from_slice(packet.bytes)?;
    Ok(())
}

/// `head KIND CONNECTION LENGTH`, and no bytes behind it.
fn push_lone_head(out: &mut Vec<u8>, line: &Line) -> Result<(), Mistake> {
    let word = line.text_at(1).ok_or(WORDS)?;
    let kind = match named_kind(word) {
        Some(kind) => kind,
        None => word.parse::<u8>().ok().ok_or(WORDS)?,
    };
    let connection = line.number_at(2).ok_or(WORDS)?;
    let len = line.number_at(3).ok_or(WORDS)?;
    push_head(out, kind, connection, u32::try_from(len).ok().ok_or(WORDS)?)?;
    Ok(())
}

/// Puts the packet that the line is.
pub(crate) fn push_line(alloc: Global, out: &mut Vec<u8>, line: &Line) -> Result<(), Mistake> {
    let call = line.call();
    if call == "head" {
        return push_lone_head(out, line);
    }
    if call == "bytes" {
        let bytes = bytes_of(alloc, line, 1)?;
        out.extend_from_slice(bytes.as_slice())?;
        return Ok(());
    }
    let kind = named_kind(call).ok_or(Mistake::Said("`packets` has no such call"))?;
    let (connection, from) = match call {
        "wake" | "note" => (0, 1),
        _ => (line.number_at(1).ok_or(WORDS)?, 2),
    };
    let bytes = bytes_of(alloc, line, from)?;
    push_packet(
        out,
        Packet {
            kind,
            connection,
            bytes: bytes.as_slice(),
        },
    )
}

/// The packet at the front, and what stands behind it.
pub(crate) fn split_packet(bytes: &[u8]) -> Option<(Packet<'_>, &[u8])> {
    let (kind, rest) = bytes.split_first()?;
    let (connection, rest) = rest.split_first_chunk::<8>()?;
    let (len, rest) = rest.split_first_chunk::<4>()?;
    let len = u32::from_be_bytes(*len) as usize;
    let packet = Packet {
        kind: *kind,
        connection: u64::from_be_bytes(*connection),
        bytes: rest.get(..len)?,
    };
    Some((packet, rest.get(len..)?))
}

/// How many bytes in front are equal, and whether they are shown as a run.
fn run_at(bytes: &[u8]) -> (usize, bool) {
    let Some((first, rest)) = bytes.split_first() else {
        return (0, false);
    };
    let end = rest.iter().position(|byte| *byte != *first);
    let len = end.unwrap_or(rest.len()).saturating_add(1);
    (len, len >= LONG_RUN && *first > b' ' && *first <= b'~')
}

/// How many bytes stand before the first run.
fn plain_len(bytes: &[u8]) -> usize {
    let mut at = 0usize;
    for _ in 0..bytes.len() {
        let (len, is_run) = run_at(bytes.get(at..).unwrap_or(&[]));
        if len == 0 || is_run {
            break;
        }
        at = at.saturating_add(len);
    }
    at
}

/// Puts bytes as words.
fn put_data(alloc: Global, out: &mut Reply, bytes: &[u8]) -> Result<(), AllocError> {
    let mut rest = bytes;
    for _ in 0..bytes.len() {
        let Some(first) = rest.first() else {
            break;
        };
        let (len, is_run) = run_at(rest);
        let taken = if is_run { len } else { plain_len(rest) };
        if is_run {
            let run = format!(in alloc; "{}*{len}", char::from(*first))?;
            out.put(run.as_str())?;
        } else {
            out.put_bytes(rest.get(..taken).unwrap_or(&[]))?;
        }
        rest = rest.get(taken..).unwrap_or(&[]);
    }
    Ok(())
}

/// Puts a packet as the line that it is.
fn put_packet(alloc: Global, out: &mut Reply, packet: Packet<'_>) -> Result<(), AllocError> {
    out.put(name_of(packet.kind))?;
    if packet.kind != NOTE && packet.kind != WAKE {
        out.put_number(packet.connection)?;
    }
    match packet.bytes.first_chunk::<8>() {
        Some(number) if packet.kind == HOLDS => out.put_number(u64::from_be_bytes(*number)),
        _ => put_data(alloc, out, packet.bytes),
    }
}

/// Puts a line for each packet of the bytes.
pub(crate) fn push_packets(alloc: Global, out: &mut String, bytes: &[u8]) -> Result<(), Mistake> {
    let mut rest = bytes;
    for _ in 0..bytes.len() {
        if rest.is_empty() {
            break;
        }
        let Some((packet, behind)) = split_packet(rest) else {
            return Err(Mistake::Said("the worker wrote what is no packet"));
        };
        let mut line = Reply::new(alloc);
        put_packet(alloc, &mut line, packet)?;
        if !out.is_empty() {
            out.push('\n')?;
        }
        out.push_str(line.into_text().as_str())?;
        rest = behind;
    }
    Ok(())
}
