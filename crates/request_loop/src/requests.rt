//! Answers the requests at the front of a connection's bytes, and sends the replies.
ghost use Rattle.std.specs.Prelude.{◌≡◌, ℕ, true, List, [], ◌∷◌, ◌++◌, length, IfOk, OnOk, OnErr};
ghost use Rattle.request_loop.specs.declared.slots.Slots.{Slots};
ghost use Rattle.request_loop.specs.Workers.{Packet};
ghost use Rattle.request_loop.specs.Slots.{IsAnswered};
ghost use Rattle.request_loop.specs.Marks.{Mark};
ghost use Rattle.request_loop.specs.Calls.{Exchange, Left};
ghost use Rattle.request_loop.specs.Turns.{Sends, Signals, IsSignal, Turns, Faulty, AnswersSo, EndsSo, goes_on, closing, IsWithin};

use crate::duplex::Duplex;
use crate::fault::LoopFault;
use crate::one_request::{Taken, take_one};
use crate::packet::{Head, Kind, most_of};
use crate::packet_fault::PacketFault;
use crate::service::{Next, Service};
use crate::slots::FIRST;
use resp::{Limits, Span};

/// Replies with more bytes than this are sent before the next request is answered.
const MOST: usize = 1 << 16;

/// How the answering of a connection's bytes ended.
#[derive(Clone, Copy)]
pub(crate) enum Turned {
    /// The bytes from `at` on are no whole request. There may be a whole one once they are `wanted`
    /// bytes.
    Holds { at: usize, wanted: usize },
    /// The connection is over.
    Closes,
}

/// Writes bytes of a connection, in as many packets as they need.
fn put_pieces<D: Duplex>(duplex: &mut D, connection: u64, bytes: &[u8]) -> Result<(), PacketFault>
    ensures put { OnOk result (Sends D.tells connection duplex.old duplex.new bytes.now []) }
    ensures part { OnErr result ((rest : List ℕ) × Sends D.tells connection duplex.old duplex.new bytes.now rest) }
    ensures limits { D.limits duplex.new ≡ D.limits duplex.old }
{
    let kind = Kind::Data;
    let most = most_of(kind) as usize;
    let mut at = 0;
    while at < bytes.len() {
        let end = at + (bytes.len() - at).min(most);
        duplex.write(Head { kind, connection }, &bytes[at..end])?;
        at = end;
    }
    Ok(())
}

/// Writes the replies, and empties `out`.
fn put<D: Duplex>(duplex: &mut D, connection: u64, out: &mut Vec<u8>) -> Result<(), PacketFault>
    ensures put { OnOk result (Sends D.tells connection duplex.old duplex.new out.old.items []) }
    ensures part { OnErr result ((rest : List ℕ) × Sends D.tells connection duplex.old duplex.new out.old.items rest) }
    ensures empty { OnOk result (out.new.items ≡ []) }
    ensures limits { D.limits duplex.new ≡ D.limits duplex.old }
{
    put_pieces(duplex, connection, out.as_slice())?;
    out.clear();
    Ok(())
}

/// Writes a packet that has no bytes for a client.
pub(crate) fn put_signal<D: Duplex>(
    duplex: &mut D,
    head: Head,
    text: &[u8],
) -> Result<(), PacketFault>
    requires { IsSignal head.kind }
    ensures put { OnOk result (Signals D.tells duplex.old duplex.new) }
    ensures failed { OnErr result ((start : D) (came sent : List Packet) → D.tells start duplex.old came sent → D.tells start duplex.new came sent) }
    ensures limits { D.limits duplex.new ≡ D.limits duplex.old }
{
    duplex.write(head, text)
}

/// Writes a packet without bytes, which a service asked for. Returns that the connection goes on.
fn signal<D: Duplex>(duplex: &mut D, kind: Kind, connection: u64) -> Result<bool, PacketFault>
    requires { IsSignal kind }
    ensures put { OnOk result (Signals D.tells duplex.old duplex.new) }
    ensures next { IfOk result (λ goes. goes ≡ true) }
    ensures failed { OnErr result ((start : D) (came sent : List Packet) → D.tells start duplex.old came sent → D.tells start duplex.new came sent) }
    ensures limits { D.limits duplex.new ≡ D.limits duplex.old }
{
    put_signal(duplex, Head { kind, connection }, b"")?;
    Ok(true)
}

/// Does what the service asked for after a request. Returns whether the connection goes on.
///
/// A packet that the service asked for is written at once, before replies that wait. If the service
/// asked for nothing, the replies are written if they have more than `MOST` bytes.
fn go_on<D: Duplex>(
    duplex: &mut D,
    connection: u64,
    next: Next,
    out: &mut Vec<u8>,
) -> Result<bool, PacketFault>
    ensures goes { OnOk result (Sends D.tells connection duplex.old duplex.new out.old.items out.new.items) }
    ensures next { IfOk result (λ goes. goes ≡ goes_on next) }
    ensures part { OnErr result ((rest : List ℕ) × Sends D.tells connection duplex.old duplex.new out.old.items rest) }
    ensures limits { D.limits duplex.new ≡ D.limits duplex.old }
{
    match next {
        Next::End => Ok(false),
        Next::WakeAll => signal(duplex, Kind::Wake, 0),
        Next::LetIn => signal(duplex, Kind::LetIn, connection),
        Next::LetOut => signal(duplex, Kind::LetOut, connection),
        Next::GoOn => {
            if out.len() <= MOST {
                return Ok(true);
            }
            match put(duplex, connection, out) {
                Ok(()) => Ok(true),
                Err(fault) => Err(fault),
            }
        }
    }
}

/// Answers the whole requests at the front of a connection's bytes. The connection is over too if an
/// allocation fails for a request.
fn answer_all<D: Duplex, S: Service>(
    duplex: &mut D,
    service: &mut S,
    limits: Limits,
    connection: u64,
    bytes: &[u8],
    spans: &mut Vec<Span>,
    out: &mut Vec<u8>,
) -> Result<Turned, LoopFault>
    ensures answered { IfOk result (λ t. (start : D) (x : S) (past : List (Mark Exchange)) (slots : Slots) → Turns (IsAnswered limits bytes.now) D.tells S.does limits past connection start duplex.old x service.old slots out.old.items → AnswersSo D.tells S.does limits past connection start duplex.new x service.new slots bytes.now out.new.items t) }
    ensures begun { OnErr result ((start : D) (x : S) (past : List (Mark Exchange)) (slots : Slots) → Turns (IsAnswered limits bytes.now) D.tells S.does limits past connection start duplex.old x service.old slots out.old.items → Faulty D.tells S.does limits past start duplex.new x) }
    ensures within { IfOk result (λ t. IsWithin (length bytes.now) t) }
    ensures limits { D.limits duplex.new ≡ D.limits duplex.old }
{
    let mut at = 0;
    'requests: loop {
        if at == bytes.len() {
            return Ok(Turned::Holds { at, wanted: FIRST });
        }
        match take_one(service, limits, connection, &bytes[at..], spans, out) {
            Ok(Taken::Whole { consumed, next }) => {
                match go_on(duplex, connection, next, out) {
                    Ok(true) => at += consumed,
                    Ok(false) => return Ok(Turned::Closes),
                    Err(fault) => return Err(LoopFault::Packet(fault)),
                }
            }
            Ok(Taken::Short { missing }) => {
                let wanted = bytes.len() - at + missing;
                return Ok(Turned::Holds { at, wanted });
            }
            Ok(Taken::Bad) => return Ok(Turned::Closes),
            Ok(Taken::Refused) => return Ok(Turned::Closes),
            Err(_) => return Err(LoopFault::Memory),
        }
    }
}

/// Closes a connection: informs the service, and sends a close.
pub(crate) fn leave<D: Duplex, S: Service>(
    duplex: &mut D,
    service: &mut S,
    connection: u64,
) -> Result<(), LoopFault>
    ensures left { OnOk result (S.does service.old (Left connection) service.new × ((start : D) (came sent : List Packet) → D.tells start duplex.old came sent → D.tells start duplex.new came (sent ++ closing connection ∷ []))) }
    ensures failed { OnErr result ((start : D) (came sent : List Packet) → D.tells start duplex.old came sent → D.tells start duplex.new came sent) }
    ensures limits { D.limits duplex.new ≡ D.limits duplex.old }
{
    match service.leave(connection) {
        Ok(()) => {}
        Err(_) => return Err(LoopFault::Memory),
    }
    let kind = Kind::Close;
    match duplex.write(Head { kind, connection }, b"") {
        Ok(()) => Ok(()),
        Err(fault) => Err(LoopFault::Packet(fault)),
    }
}

/// Answers the whole requests at the front of a connection's bytes, and writes the replies. Closes the
/// connection if it is over.
pub(crate) fn answer<D: Duplex, S: Service>(
    duplex: &mut D,
    service: &mut S,
    limits: Limits,
    connection: u64,
    bytes: &[u8],
    spans: &mut Vec<Span>,
    out: &mut Vec<u8>,
) -> Result<Turned, LoopFault>
    requires { out.old.items ≡ [] }
    ensures ends { IfOk result (λ t. (start : D) (x : S) (past : List (Mark Exchange)) (slots : Slots) → Turns (IsAnswered limits bytes.now) D.tells S.does limits past connection start duplex.old x service.old slots [] → EndsSo D.tells S.does limits past connection start duplex.new x service.new slots bytes.now t) }
    ensures begun { (start : D) (x : S) (past : List (Mark Exchange)) (slots : Slots) → Turns (IsAnswered limits bytes.now) D.tells S.does limits past connection start duplex.old x service.old slots [] → Faulty D.tells S.does limits past start duplex.new x }
    ensures within { IfOk result (λ t. IsWithin (length bytes.now) t) }
    ensures empty { OnOk result (out.new.items ≡ []) }
    ensures limits { D.limits duplex.new ≡ D.limits duplex.old }
{
    let turned = match answer_all(duplex, service, limits, connection, bytes, spans, out) {
        Ok(turned) => turned,
        Err(fault) => return Err(fault),
    };
    match put(duplex, connection, out) {
        Ok(()) => {}
        Err(fault) => return Err(LoopFault::Packet(fault)),
    }
    match turned {
        Turned::Holds { at: _, wanted: _ } => Ok(turned),
        Turned::Closes => match leave(duplex, service, connection) {
            Ok(()) => Ok(turned),
            Err(fault) => Err(fault),
        },
    }
}
