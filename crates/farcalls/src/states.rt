//! What a session keeps from one map to the next.

use crate::service::Kept;
use crate::session_end::SessionEnd;
use request_loop::{Holds, PacketInput, PacketOutput, Wire};
use std::marker::Model;

/// A session that has left a map, and goes on in the next one. Contracts see its packets (`wire`), and what the
/// request loop holds of its connections (`holds`).
#[derive(Drop)]
pub(crate) struct PausedSession<I: PacketInput + Drop, O: PacketOutput + Drop> {
    pub(crate) wire: Wire<I, O>,
    pub(crate) holds: Holds,
    pub(crate) kept: Kept,
}

impl<I: PacketInput + Drop, O: PacketOutput + Drop> Model for PausedSession<I, O> {
    ghost use Rattle.farcalls.specs.Left.{LeftView, HasStood};

    ghost Value = { LeftView I O };

    ghost view = { λ l. record { wire = l.wire; views = l.holds } };

    ghost invariant = { λ l. HasStood I.remaining O.contents l.wire l.holds };
}

/// What a session keeps from one map to the next.
#[derive(Drop)]
pub(crate) enum SessionState<I: PacketInput + Drop, O: PacketOutput + Drop> {
    /// It has not begun.
    Fresh,
    /// It goes on in the next map.
    Left(PausedSession<I, O>),
    Ended(SessionEnd<I, O>),
}
