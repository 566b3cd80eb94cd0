//! The request loop.
ghost use Rattle.std.specs.Prelude.{◌≡◌, ℕ, List, [], IfOk, OnOk, OnErr};
ghost use Rattle.request_loop.specs.Marks.{Mark};
ghost use Rattle.request_loop.specs.Calls.{Exchange, Awake};
ghost use Rattle.request_loop.specs.Workers.{Packet};
ghost use Rattle.request_loop.specs.Served.{Served, Begun};
ghost use Rattle.request_loop.specs.Standing.{Standing, GoesOnBy};
ghost use Rattle.request_loop.specs.Turns.{Faulty};

use crate::buffers::{LARGE, empty};
use crate::dispatch::take_packet;
use crate::duplex::Duplex;
use crate::fault::LoopFault;
use crate::pause::{Holds, Pause};
use crate::service::{Service, Woken};
use resp::Span;
use std::alloc::Global;

/// Packets of the gateway have no more bytes than this. The loop ends if a packet has no room, so there
/// is room from the beginning. If that allocation fails, it is made again when packets are read.
const ROOM: usize = 1 << 16;

/// The loop of `serve_on`. The last replies may not have been handed on.
fn serve_packets<D: Duplex, S: Service>(
    alloc: Global,
    duplex: &mut D,
    service: &mut S,
    holds: Holds,
) -> Result<(Pause, Holds), LoopFault>
    requires { (start : D) × (past : List (Mark Exchange)) × Standing D.tells (D.limits duplex.old) start duplex.old holds past }
    ensures stood { IfOk result (λ left. GoesOnBy D.tells S.does (D.limits duplex.old) duplex.old duplex.new service.old service.new holds left.1) }
    ensures woken { IfOk result (λ left. left.0 ≡ Pause.Wake → (before : S) × S.does before (Awake Woken.Leave) service.new) }
    ensures whole { OnOk result (D.whole duplex.new) }
    // If no more packets come, all were read.
    ensures ended { IfOk result (λ left. left.0 ≡ Pause.End → (start : D) (past : List (Mark Exchange)) → Standing D.tells (D.limits duplex.old) start duplex.old holds past → D.ended start duplex.new) }
    ensures fault { OnErr result ((start : D) (past : List (Mark Exchange)) → Standing D.tells (D.limits duplex.old) start duplex.old holds past → Faulty D.tells S.does (D.limits duplex.old) past start duplex.new service.old) }
    ensures limits { D.limits duplex.new ≡ D.limits duplex.old }
{
    let limits = duplex.limits();
    let Holds { mut slots } = holds;
    let mut packet = Vec::new(alloc);
    let _ = packet.reserve(ROOM);
    let mut spans = Vec::new(alloc);
    let mut out = Vec::new(alloc);
    for round in 0..u64::MAX {
        let _ = round;
        let head = match duplex.read(&mut packet) {
            Ok(Some(head)) => head,
            Ok(None) => return Ok((Pause::End, Holds { slots })),
            Err(fault) => return Err(LoopFault::Packet(fault)),
        };
        match take_packet(
            alloc,
            duplex,
            service,
            limits,
            &mut slots,
            head,
            packet.as_slice(),
            &mut spans,
            &mut out,
        ) {
            Ok(Woken::Stay) => {
                empty(&mut packet, LARGE);
                empty(&mut spans, LARGE / size_of::<Span>());
                empty(&mut out, LARGE);
            }
            Ok(Woken::Leave) => return Ok((Pause::Wake, Holds { slots })),
            Err(fault) => return Err(fault),
        }
    }
    Err(LoopFault::Counted)
}

/// Serves packets until there are no more, or the service leaves at a wake. It begins where an earlier
/// service left (`holds`).
///
/// The requests of each connection are answered in order. All replies are written before the next
/// packet is read, and handed on before it is waited for and when the loop ends. If the service leaves, another one may go on over the same packets, with the `Holds`
/// that are returned.
///
/// An error ends the loop (`LoopFault`). What was sent up to then is a beginning of the replies to a
/// beginning of what was read.
pub fn serve_on<D: Duplex, S: Service>(
    alloc: Global,
    duplex: &mut D,
    service: &mut S,
    holds: Holds,
) -> Result<(Pause, Holds), LoopFault>
    requires { (start : D) × (past : List (Mark Exchange)) × Standing D.tells (D.limits duplex.old) start duplex.old holds past }
    ensures stood { IfOk result (λ left. GoesOnBy D.tells S.does (D.limits duplex.old) duplex.old duplex.new service.old service.new holds left.1) }
    ensures woken { IfOk result (λ left. left.0 ≡ Pause.Wake → (before : S) × S.does before (Awake Woken.Leave) service.new) }
    ensures sent { OnOk result (D.handed_on duplex.new) }
    ensures whole { OnOk result (D.whole duplex.new) }
    // If no more packets come, all were read.
    ensures ended { IfOk result (λ left. left.0 ≡ Pause.End → (start : D) (past : List (Mark Exchange)) → Standing D.tells (D.limits duplex.old) start duplex.old holds past → D.ended start duplex.new) }
    ensures fault { OnErr result ((start : D) (past : List (Mark Exchange)) → Standing D.tells (D.limits duplex.old) start duplex.old holds past → Faulty D.tells S.does (D.limits duplex.old) past start duplex.new service.old) }
    ensures limits { D.limits duplex.new ≡ D.limits duplex.old }
{
    let served = serve_packets(alloc, duplex, service, holds);
    // After a fault the replies to earlier requests still go out.
    let sent = duplex.send();
    match served {
        Ok(left) => match sent {
            Ok(()) => Ok(left),
            Err(fault) => Err(LoopFault::Packet(fault)),
        },
        Err(fault) => Err(fault),
    }
}

/// Serves all packets, or those before the service leaves at a wake. What is held then is dropped.
///
/// Errors are those of `serve_on`.
pub fn serve<D: Duplex, S: Service>(
    alloc: Global,
    duplex: &mut D,
    service: &mut S,
) -> Result<(), LoopFault>
    requires { D.tells duplex.old duplex.old [] [] }
    ensures served { OnOk result ((came : List Packet) × (sent : List Packet) × D.tells duplex.old duplex.new came sent × Served S.does (D.limits duplex.old) service.old service.new came sent × D.whole duplex.new × D.handed_on duplex.new) }
    ensures fault { OnErr result ((came : List Packet) × (sent : List Packet) × D.tells duplex.old duplex.new came sent × Begun S.does (D.limits duplex.old) service.old came sent) }
{
    let _left = serve_on(alloc, duplex, service, Holds::none(alloc))?;
    Ok(())
}
