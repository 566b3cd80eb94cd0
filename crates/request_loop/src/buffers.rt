//! What the loop keeps in memory: its buffers, and the beginnings of requests. The gateway is informed
//! how much that is for a connection.
ghost use Rattle.std.specs.Prelude.{◌≡◌, ◌<◌, ◌≤◌, ◌++◌, List, [], length, drop, vec_len, OnOk, OnErr, IsSome};
ghost use Rattle.request_loop.specs.Workers.{Packet};
ghost use Rattle.request_loop.specs.Slots.{Runs, find_slot, Replaces};
ghost use Rattle.request_loop.specs.Turns.{Hints};

use crate::duplex::Duplex;
use crate::packet::{Head, Kind};
use crate::packet_fault::PacketFault;
use crate::requests::put_signal;
use crate::service::Service;
use crate::slots::{Held, Slot, Slots, State, set_slot};
use std::alloc::AllocError;

/// Up to this length the room for what is held grows as that of any list.
const SMALL: usize = 1 << 16;

/// The gateway is not informed of a smaller change.
const LEAST: u64 = 512;

/// A buffer with room for more bytes than this is given back to the system once it is empty.
pub(crate) const LARGE: usize = 1 << 18;

/// Empties a buffer. One with room for more than `most` items is given back to the system.
pub(crate) fn empty<T: Drop>(buffer: &mut Vec<T>, most: usize)
    ensures { buffer.new.items ≡ [] }
{
    buffer.clear();
    if buffer.capacity() > most {
        buffer.shrink_to_fit();
    }
}

/// Makes room for `more` bytes, if an allocation succeeds.
///
/// Above 64 KiB the room is at most twice what was read. It is at most what the request needs, unless
/// more was read. So a client that only announces a long request takes no memory.
fn make_room(held: &mut Vec<u8>, more: usize, wanted: usize)
    ensures { held.new.items ≡ held.old.items }
{
    let len = held.len().saturating_add(more);
    if len <= SMALL || len <= held.capacity() {
        return;
    }
    let room = wanted.min(len.saturating_mul(2)).max(len);
    let _ = held.reserve_exact(room - held.len());
}

/// Adds bytes to those that are held. `wanted` is the length at which the request may be whole.
pub(crate) fn hold(held: &mut Vec<u8>, bytes: &[u8], wanted: usize) -> Result<(), AllocError>
    ensures held { OnOk result (held.new.items ≡ held.old.items ++ bytes.now) }
    ensures some { OnErr result (0 < length bytes.now) }
{
    if bytes.is_empty() {
        return Ok(());
    }
    make_room(held, bytes.len(), wanted);
    held.extend_from_slice(bytes)
}

/// What follows the requests that were taken. This takes no memory, and gives room back that is not
/// needed any more.
pub(crate) fn rest_of(held: Vec<u8>, at: usize) -> Vec<u8>
    requires { at ≤ vec_len held }
    ensures { result.items ≡ drop at held.items }
{
    let mut rest = held;
    if at > 0 {
        let len = rest.len() - at;
        rest.copy_within(at.., 0);
        rest.truncate(len);
        rest.shrink_to_fit();
    }
    rest
}

/// Informs the gateway how many bytes are kept for a connection, if that changed by `LEAST` or more, or
/// is none now. Returns the number that the gateway has then.
fn tell<D: Duplex>(
    duplex: &mut D,
    connection: u64,
    told: u64,
    kept: u64,
) -> Result<u64, PacketFault>
    ensures told { OnOk result (Hints D.tells duplex.old duplex.new) }
    ensures failed { OnErr result ((start : D) (came sent : List Packet) → D.tells start duplex.old came sent → D.tells start duplex.new came sent) }
    ensures limits { D.limits duplex.new ≡ D.limits duplex.old }
{
    let is_none = kept == 0 && told > 0;
    if kept.abs_diff(told) < LEAST && !is_none {
        return Ok(told);
    }
    let kind = Kind::Holds;
    match put_signal(duplex, Head { kind, connection }, &kept.to_be_bytes()) {
        Ok(()) => Ok(kept),
        Err(fault) => Err(fault),
    }
}

/// Puts what is held of a running connection into its slot, and informs the gateway how much is kept
/// for it.
pub(crate) fn keep<D: Duplex, S: Service>(
    duplex: &mut D,
    service: &S,
    slots: &mut Slots,
    connection: u64,
    held: Held,
    told: u64,
) -> Result<(), PacketFault>
    requires { IsSome (find_slot slots.old connection) }
    ensures kept { OnOk result (Replaces connection (Runs held.bytes.items held.wanted) slots.old slots.new) }
    ensures told { OnOk result (Hints D.tells duplex.old duplex.new) }
    ensures failed { OnErr result ((start : D) (came sent : List Packet) → D.tells start duplex.old came sent → D.tells start duplex.new came sent) }
    ensures limits { D.limits duplex.new ≡ D.limits duplex.old }
{
    let room = held.bytes.capacity() as u64;
    let kept = room.saturating_add(service.keeps(connection));
    match tell(duplex, connection, told, kept) {
        Ok(told) => {
            let state = State::Running;
            set_slot(slots, connection, Slot { state, held, told });
            Ok(())
        }
        Err(fault) => Err(fault),
    }
}
