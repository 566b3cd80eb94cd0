//! What the loop does with each packet.
ghost use Rattle.std.specs.Prelude.{◌≡◌, List, [], ◌∷◌, ◌++◌, Some, None, IfOk, OnOk, OnErr, IsSome};
ghost use Rattle.request_loop.specs.declared.slots.Slots.{Slots};
ghost use Rattle.request_loop.specs.Marks.{Mark, Piece, Stop};
ghost use Rattle.request_loop.specs.Calls.{Exchange, Left, Awake};
ghost use Rattle.request_loop.specs.Workers.{Packet, mark_of};
ghost use Rattle.request_loop.specs.Slots.{Runs, seen_left, state_of, slot_at, find_slot, Replaces, IsAnswered};
ghost use Rattle.request_loop.specs.Turns.{Stands, Comes, Turns, Faulty, closing};

use crate::arrivals::{take_note, take_open};
use crate::buffers::{hold, keep, rest_of};
use crate::duplex::Duplex;
use crate::fault::LoopFault;
use crate::packet::{Head, Kind};
use crate::requests::{Turned, answer, leave};
use crate::service::{Service, Woken};
use crate::slots::{
    Held, Slot, Slots, State, pass_over, remove_slot, set_slot, state_at, take_held,
};
use resp::{Limits, Span};
use std::alloc::Global;

/// Closes a connection whose bytes can't be kept. The replies to its earlier requests were sent.
fn shed<D: Duplex, S: Service>(
    duplex: &mut D,
    service: &mut S,
    connection: u64,
) -> Result<Option<Held>, LoopFault>
    ensures closes { IfOk result (λ left. left ≡ None) }
    ensures left { OnOk result (S.does service.old (Left connection) service.new × ((start : D) (came sent : List Packet) → D.tells start duplex.old came sent → D.tells start duplex.new came (sent ++ closing connection ∷ []))) }
    ensures failed { OnErr result ((start : D) (came sent : List Packet) → D.tells start duplex.old came sent → D.tells start duplex.new came sent) }
    ensures limits { D.limits duplex.new ≡ D.limits duplex.old }
{
    match leave(duplex, service, connection) {
        Ok(()) => Ok(None),
        Err(fault) => Err(fault),
    }
}

/// Answers the requests of a packet when nothing is held of the connection. The bytes of whole requests
/// are not copied.
///
/// Returns what is held afterwards, or None if the loop has closed the connection.
fn answer_packet<D: Duplex, S: Service>(
    duplex: &mut D,
    service: &mut S,
    limits: Limits,
    connection: u64,
    packet: &[u8],
    held: Vec<u8>,
    spans: &mut Vec<Span>,
    out: &mut Vec<u8>,
) -> Result<Option<Held>, LoopFault>
    requires nothing { held.items ≡ [] }
    requires empty { out.old.items ≡ [] }
    ensures stands { IfOk result (λ left. (start : D) (x : S) (past : List (Mark Exchange)) (slots after : Slots) → Turns (IsAnswered limits packet.now) D.tells S.does limits past connection start duplex.old x service.old slots [] → Replaces connection (seen_left left) slots after → Stands D.tells S.does limits past start duplex.new x service.new after) }
    ensures begun { (start : D) (x : S) (past : List (Mark Exchange)) (slots : Slots) → Turns (IsAnswered limits packet.now) D.tells S.does limits past connection start duplex.old x service.old slots [] → Faulty D.tells S.does limits past start duplex.new x }
    ensures empty { OnOk result (out.new.items ≡ []) }
    ensures limits { D.limits duplex.new ≡ D.limits duplex.old }
{
    match answer(duplex, service, limits, connection, packet, spans, out) {
        Ok(Turned::Holds { at, wanted }) => {
            let mut bytes = held;
            match hold(&mut bytes, &packet[at..], wanted) {
                Ok(()) => Ok(Some(Held { bytes, wanted })),
                Err(_) => shed(duplex, service, connection),
            }
        }
        Ok(Turned::Closes) => Ok(None),
        Err(fault) => Err(fault),
    }
}

/// The same for bytes that were held, followed by those of the packet.
fn answer_held<D: Duplex, S: Service>(
    duplex: &mut D,
    service: &mut S,
    limits: Limits,
    connection: u64,
    held: Vec<u8>,
    spans: &mut Vec<Span>,
    out: &mut Vec<u8>,
) -> Result<Option<Held>, LoopFault>
    requires empty { out.old.items ≡ [] }
    ensures stands { IfOk result (λ left. (start : D) (x : S) (past : List (Mark Exchange)) (slots after : Slots) → Turns (IsAnswered limits held.items) D.tells S.does limits past connection start duplex.old x service.old slots [] → Replaces connection (seen_left left) slots after → Stands D.tells S.does limits past start duplex.new x service.new after) }
    ensures begun { (start : D) (x : S) (past : List (Mark Exchange)) (slots : Slots) → Turns (IsAnswered limits held.items) D.tells S.does limits past connection start duplex.old x service.old slots [] → Faulty D.tells S.does limits past start duplex.new x }
    ensures empty { OnOk result (out.new.items ≡ []) }
    ensures limits { D.limits duplex.new ≡ D.limits duplex.old }
{
    match answer(
        duplex,
        service,
        limits,
        connection,
        held.as_slice(),
        spans,
        out,
    ) {
        Ok(Turned::Holds { at, wanted }) => {
            let bytes = rest_of(held, at);
            Ok(Some(Held { bytes, wanted }))
        }
        Ok(Turned::Closes) => Ok(None),
        Err(fault) => Err(fault),
    }
}

/// Takes bytes of a running connection, which follow those that are held. They are looked at once there
/// are as many as a whole request may have.
///
/// Returns what is held afterwards, or None if the loop has closed the connection.
fn take_turn<D: Duplex, S: Service>(
    duplex: &mut D,
    service: &mut S,
    limits: Limits,
    connection: u64,
    held: Held,
    packet: &[u8],
    spans: &mut Vec<Span>,
    out: &mut Vec<u8>,
) -> Result<Option<Held>, LoopFault>
    requires empty { out.old.items ≡ [] }
    ensures stands { IfOk result (λ left. (start : D) (x : S) (past : List (Mark Exchange)) (slots after : Slots) → slot_at slots connection ≡ Runs held.bytes.items held.wanted → Comes D.tells S.does limits past start duplex.old x service.old slots (Piece connection packet.now) → Replaces connection (seen_left left) slots after → Stands D.tells S.does limits past start duplex.new x service.new after) }
    ensures begun { (start : D) (x : S) (past : List (Mark Exchange)) (slots : Slots) → slot_at slots connection ≡ Runs held.bytes.items held.wanted → Comes D.tells S.does limits past start duplex.old x service.old slots (Piece connection packet.now) → Faulty D.tells S.does limits past start duplex.new x }
    ensures empty { OnOk result (out.new.items ≡ []) }
    ensures limits { D.limits duplex.new ≡ D.limits duplex.old }
{
    let Held { mut bytes, wanted } = held;
    if bytes.is_empty() {
        return answer_packet(
            duplex, service, limits, connection, packet, bytes, spans, out,
        );
    }
    match hold(&mut bytes, packet, wanted) {
        Ok(()) => {}
        Err(_) => return shed(duplex, service, connection),
    }
    if bytes.len() < wanted {
        return Ok(Some(Held { bytes, wanted }));
    }
    answer_held(duplex, service, limits, connection, bytes, spans, out)
}

/// Takes bytes of a running connection, and keeps what is held of it afterwards. If the connection goes
/// on, the gateway is informed how much that is.
fn take_bytes<D: Duplex, S: Service>(
    alloc: Global,
    duplex: &mut D,
    service: &mut S,
    limits: Limits,
    slots: &mut Slots,
    connection: u64,
    packet: &[u8],
    spans: &mut Vec<Span>,
    out: &mut Vec<u8>,
) -> Result<(), LoopFault>
    requires room { IsSome (find_slot slots.old connection) }
    requires runs { state_of (slot_at slots.old connection) ≡ Some State.Running }
    requires empty { out.old.items ≡ [] }
    ensures stands { OnOk result ((start : D) (x : S) (past : List (Mark Exchange)) → Comes D.tells S.does limits past start duplex.old x service.old slots.old (Piece connection packet.now) → Stands D.tells S.does limits past start duplex.new x service.new slots.new) }
    ensures begun { (start : D) (x : S) (past : List (Mark Exchange)) → Comes D.tells S.does limits past start duplex.old x service.old slots.old (Piece connection packet.now) → Faulty D.tells S.does limits past start duplex.new x }
    ensures empty { OnOk result (out.new.items ≡ []) }
    ensures limits { D.limits duplex.new ≡ D.limits duplex.old }
{
    let (held, told) = take_held(alloc, slots, connection);
    match take_turn(
        duplex, service, limits, connection, held, packet, spans, out,
    ) {
        Ok(Some(left)) => match keep(duplex, service, slots, connection, left, told) {
            Ok(()) => Ok(()),
            Err(fault) => Err(LoopFault::Packet(fault)),
        },
        Ok(None) => {
            set_slot(slots, connection, Slot::new(alloc, State::Over, 0));
            Ok(())
        }
        Err(fault) => Err(fault),
    }
}

/// The client closes its connection, which is gone afterwards.
///
/// It may be gone already: it was given up when it was opened.
fn take_close<D: Duplex, S: Service>(
    duplex: &mut D,
    service: &mut S,
    limits: Limits,
    slots: &mut Slots,
    connection: u64,
) -> Result<(), LoopFault>
    ensures stands { OnOk result ((start : D) (x : S) (past : List (Mark Exchange)) → Comes D.tells S.does limits past start duplex.old x service.old slots.old (Stop connection) → Stands D.tells S.does limits past start duplex.new x service.new slots.new) }
    ensures begun { (start : D) (x : S) (past : List (Mark Exchange)) → Comes D.tells S.does limits past start duplex.old x service.old slots.old (Stop connection) → Faulty D.tells S.does limits past start duplex.new x }
    ensures limits { D.limits duplex.new ≡ D.limits duplex.old }
{
    match state_at(slots, connection) {
        None => pass_over(slots, connection),
        Some(State::Running) => match leave(duplex, service, connection) {
            Ok(()) => {
                remove_slot(slots, connection);
                Ok(())
            }
            Err(fault) => Err(fault),
        },
        Some(State::Over) => {
            remove_slot(slots, connection);
            Ok(())
        }
    }
}

/// Takes a packet of bytes. After the loop's own close they are passed over, also once the connection
/// is gone.
fn take_data<D: Duplex, S: Service>(
    alloc: Global,
    duplex: &mut D,
    service: &mut S,
    limits: Limits,
    slots: &mut Slots,
    connection: u64,
    packet: &[u8],
    spans: &mut Vec<Span>,
    out: &mut Vec<u8>,
) -> Result<(), LoopFault>
    requires empty { out.old.items ≡ [] }
    ensures stands { OnOk result ((start : D) (x : S) (past : List (Mark Exchange)) → Comes D.tells S.does limits past start duplex.old x service.old slots.old (Piece connection packet.now) → Stands D.tells S.does limits past start duplex.new x service.new slots.new) }
    ensures begun { (start : D) (x : S) (past : List (Mark Exchange)) → Comes D.tells S.does limits past start duplex.old x service.old slots.old (Piece connection packet.now) → Faulty D.tells S.does limits past start duplex.new x }
    ensures empty { OnOk result (out.new.items ≡ []) }
    ensures limits { D.limits duplex.new ≡ D.limits duplex.old }
{
    match state_at(slots, connection) {
        None => pass_over(slots, connection),
        Some(State::Over) => Ok(()),
        Some(State::Running) => take_bytes(
            alloc, duplex, service, limits, slots, connection, packet, spans, out,
        ),
    }
}

/// Does what a packet asks for. Returns whether the service leaves.
pub(crate) fn take_packet<D: Duplex, S: Service>(
    alloc: Global,
    duplex: &mut D,
    service: &mut S,
    limits: Limits,
    slots: &mut Slots,
    head: Head,
    packet: &[u8],
    spans: &mut Vec<Span>,
    out: &mut Vec<u8>,
) -> Result<Woken, LoopFault>
    requires empty { out.old.items ≡ [] }
    ensures stands { OnOk result ((start : D) (x : S) (past : List (Mark Exchange)) → Comes D.tells S.does limits past start duplex.old x service.old slots.old (mark_of head.kind head.connection packet.now) → Stands D.tells S.does limits past start duplex.new x service.new slots.new) }
    ensures begun { (start : D) (x : S) (past : List (Mark Exchange)) → Comes D.tells S.does limits past start duplex.old x service.old slots.old (mark_of head.kind head.connection packet.now) → Faulty D.tells S.does limits past start duplex.new x }
    ensures leaves { IfOk result (λ w. w ≡ Woken.Leave → duplex.new ≡ duplex.old) }
    ensures woken { IfOk result (λ w. w ≡ Woken.Leave → S.does service.old (Awake Woken.Leave) service.new) }
    ensures empty { OnOk result (out.new.items ≡ []) }
    ensures limits { D.limits duplex.new ≡ D.limits duplex.old }
{
    let connection = head.connection;
    match head.kind {
        Kind::Data => match take_data(
            alloc, duplex, service, limits, slots, connection, packet, spans, out,
        ) {
            Ok(()) => Ok(Woken::Stay),
            Err(fault) => Err(fault),
        },
        Kind::Open => {
            match take_open(alloc, duplex, service, limits, slots, connection, packet) {
                Ok(()) => Ok(Woken::Stay),
                Err(fault) => Err(fault),
            }
        }
        Kind::Close => match take_close(duplex, service, limits, slots, connection) {
            Ok(()) => Ok(Woken::Stay),
            Err(fault) => Err(fault),
        },
        Kind::Wake => match service.wake() {
            Ok(woken) => Ok(woken),
            Err(_) => Err(LoopFault::Memory),
        },
        Kind::Note => match take_note(duplex, service, limits, packet, out) {
            Ok(()) => Ok(Woken::Stay),
            Err(fault) => Err(fault),
        },
        Kind::LetIn | Kind::LetOut | Kind::Holds => Err(LoopFault::OutOfTurn),
    }
}
