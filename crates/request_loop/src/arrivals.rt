//! What the loop does when a client has connected, and at a note.
ghost use Rattle.std.specs.Prelude.{◌≡◌, ℕ, List, [], OnOk};
ghost use Rattle.request_loop.specs.Marks.{Mark, Else};
ghost use Rattle.request_loop.specs.Calls.{Exchange};
ghost use Rattle.request_loop.specs.Turns.{Stands, Comes, Faulty};
ghost use Rattle.request_loop.specs.declared.slots.Slots.{Slots};

use crate::duplex::Duplex;
use crate::fault::LoopFault;
use crate::packet::{Head, Kind, most_of};
use crate::requests::{leave, put_signal};
use crate::service::Service;
use crate::slots::{Slots, open};
use resp::Limits;
use std::alloc::Global;

/// A client has connected. If the service takes it as authenticated at once, the gateway is informed.
///
/// If there is no memory for its slot, the loop closes the connection, and informs the service that it
/// is over.
pub(crate) fn take_open<D: Duplex, S: Service>(
    alloc: Global,
    duplex: &mut D,
    service: &mut S,
    limits: Limits,
    slots: &mut Slots,
    connection: u64,
    address: &[u8],
) -> Result<(), LoopFault>
    ensures stands { OnOk result ((start : D) (x : S) (past : List (Mark Exchange)) → Comes D.tells S.does limits past start duplex.old x service.old slots.old Else → Stands D.tells S.does limits past start duplex.new x service.new slots.new) }
    ensures begun { (start : D) (x : S) (past : List (Mark Exchange)) → Comes D.tells S.does limits past start duplex.old x service.old slots.old Else → Faulty D.tells S.does limits past start duplex.new x }
    ensures limits { D.limits duplex.new ≡ D.limits duplex.old }
{
    match open(alloc, slots, connection) {
        Ok(true) => {}
        Ok(false) => return leave(duplex, service, connection),
        Err(fault) => return Err(fault),
    }
    let kind = Kind::LetIn;
    match service.open(connection, address) {
        Ok(true) => match put_signal(duplex, Head { kind, connection }, b"") {
            Ok(()) => Ok(()),
            Err(fault) => Err(LoopFault::Packet(fault)),
        },
        Ok(false) => Ok(()),
        Err(_) => Err(LoopFault::Memory),
    }
}

/// A note was read. What the service pushes is sent back as one note, cut at the most bytes of a note.
pub(crate) fn take_note<D: Duplex, S: Service>(
    duplex: &mut D,
    service: &mut S,
    limits: Limits,
    text: &[u8],
    out: &mut Vec<u8>,
) -> Result<(), LoopFault>
    requires empty { out.old.items ≡ [] }
    ensures stands { OnOk result ((start : D) (x : S) (past : List (Mark Exchange)) (slots : Slots) → Comes D.tells S.does limits past start duplex.old x service.old slots Else → Stands D.tells S.does limits past start duplex.new x service.new slots) }
    ensures begun { (start : D) (x : S) (past : List (Mark Exchange)) (slots : Slots) → Comes D.tells S.does limits past start duplex.old x service.old slots Else → Faulty D.tells S.does limits past start duplex.new x }
    ensures empty { OnOk result (out.new.items ≡ []) }
    ensures limits { D.limits duplex.new ≡ D.limits duplex.old }
{
    match service.note(text, out) {
        Ok(()) => {}
        Err(_) => return Err(LoopFault::Memory),
    }
    if out.is_empty() {
        return Ok(());
    }
    let kind = Kind::Note;
    let connection = 0;
    let len = out.len().min(most_of(kind) as usize);
    match put_signal(duplex, Head { kind, connection }, &out[..len]) {
        Ok(()) => {
            out.clear();
            Ok(())
        }
        Err(fault) => Err(LoopFault::Packet(fault)),
    }
}
