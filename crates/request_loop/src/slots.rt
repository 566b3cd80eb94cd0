//! What the loop keeps of each connection, by its number.
ghost use Rattle.std.specs.Prelude.{◌≡◌, ◌+◌, ◌<◌, [], Some, None, IfSome, IsSome, IfOk, OnOk};
ghost use Rattle.request_loop.specs.Slots.{Fresh, Runs, Gone, seen, seen_so, seen_opened, state_of, slot_at, find_slot, views_of, none_seen, Replaces, OthersSame};

use crate::fault::LoopFault;
use std::alloc::Global;
use std::collections::BTreeMap;

/// How many bytes a request may have at least. That many are waited for if none is held.
pub(crate) const FIRST: usize = 1;

/// The state of a connection that is not gone.
#[derive(Clone, Copy, PartialEq, Eq)]
pub(crate) enum State {
    Running,
    /// The loop has closed the connection, and the client has not yet.
    Over,
}

/// The beginning of a request.
#[derive(Drop)]
pub(crate) struct Held {
    /// The bytes that were read and are no whole request.
    pub(crate) bytes: Vec<u8>,
    /// The number of bytes with which the request may be whole.
    pub(crate) wanted: usize,
}

#[derive(Drop)]
pub(crate) struct Slot {
    pub(crate) state: State,
    pub(crate) held: Held,
    /// How many bytes are kept for the connection, as last reported to the gateway.
    pub(crate) told: u64,
}

/// The connections that are not gone, by their numbers.
#[derive(Drop)]
pub(crate) struct Slots {
    pub(crate) map: BTreeMap<u64, Slot, Global>,
    /// The number of the next connection. All smaller ones were used.
    pub(crate) next: u64,
}

impl Slot {
    /// A slot without held bytes, of which nothing was reported to the gateway.
    pub(crate) fn new(alloc: Global, state: State, wanted: usize) -> Self
        ensures { seen result ≡ seen_so state [] wanted }
    {
        let bytes = Vec::new(alloc);
        Slot {
            state,
            held: Held { bytes, wanted },
            told: 0,
        }
    }
}

impl Slots {
    /// No connections: no number was used.
    pub(crate) fn new(alloc: Global) -> Self
        ensures { views_of result ≡ none_seen }
    {
        Slots {
            map: BTreeMap::new(alloc),
            next: 0,
        }
    }
}

/// The state of a connection, if it was opened and is not gone.
pub(crate) fn state_at(slots: &Slots, connection: u64) -> Option<State>
    ensures state { IfSome result (λ state. state_of (slot_at slots.now connection) ≡ Some state) }
    ensures within { IsSome result → IsSome (find_slot slots.now connection) }
    ensures used { IsSome result → connection < slots.now.next }
    ensures gone { result ≡ None → connection < slots.now.next → slot_at slots.now connection ≡ Gone }
{
    if connection >= slots.next {
        return None;
    }
    match slots.map.get(&connection) {
        Some(slot) => Some(slot.state),
        None => None,
    }
}

/// Passes over a packet of a connection that is gone. If the connection was never opened, it is a
/// fault.
pub(crate) fn pass_over(slots: &Slots, connection: u64) -> Result<(), LoopFault>
    ensures { OnOk result (connection < slots.now.next) }
{
    if connection < slots.next {
        Ok(())
    } else {
        Err(LoopFault::OutOfTurn)
    }
}

/// Replaces the connection's slot, and returns the old one. It takes no memory.
pub(crate) fn replace_slot(slots: &mut Slots, connection: u64, slot: Slot) -> Slot
    requires { IsSome (find_slot slots.old connection) }
    ensures old { seen result ≡ slot_at slots.old connection }
    ensures new { Replaces connection (seen slot) slots.old slots.new }
    ensures within { IsSome (find_slot slots.new connection) }
{
    match slots.map.insert(connection, slot) {
        Ok(Some(old)) => old,
        Ok(None) => unreachable!(),
        Err(_) => unreachable!(),
    }
}

/// Takes out what is held, and returns it with the number that was last reported to the gateway.
pub(crate) fn take_held(alloc: Global, slots: &mut Slots, connection: u64) -> (Held, u64)
    requires { IsSome (find_slot slots.old connection) }
    ensures held { state_of (slot_at slots.old connection) ≡ Some State.Running → slot_at slots.old connection ≡ Runs result.0.bytes.items result.0.wanted }
    ensures others { OthersSame connection slots.old slots.new }
    ensures within { IsSome (find_slot slots.new connection) }
{
    let Slot {
        state: _,
        held,
        told,
    } = replace_slot(slots, connection, Slot::new(alloc, State::Running, FIRST));
    (held, told)
}

pub(crate) fn set_slot(slots: &mut Slots, connection: u64, slot: Slot)
    requires { IsSome (find_slot slots.old connection) }
    ensures { Replaces connection (seen slot) slots.old slots.new }
{
    let _old = replace_slot(slots, connection, slot);
}

/// The connection is gone. Its number is not used again.
pub(crate) fn remove_slot(slots: &mut Slots, connection: u64)
    requires { connection < slots.old.next }
    ensures { Replaces connection Gone slots.old slots.new }
{
    let _old = slots.map.remove(&connection);
}

/// Opens a connection, and returns whether there is memory for its slot. If not, the connection is
/// gone.
///
/// It is a fault if its number is not the next one, or is the last of all. So no number is used twice.
pub(crate) fn open(alloc: Global, slots: &mut Slots, connection: u64) -> Result<bool, LoopFault>
    ensures fresh { OnOk result (slot_at slots.old connection ≡ Fresh) }
    ensures opened { IfOk result (λ is_made. Replaces connection (seen_opened is_made) slots.old slots.new) }
    ensures turn { OnOk result ((slots.old.next ≡ connection) × (slots.new.next ≡ connection + 1)) }
{
    if connection != slots.next || connection == u64::MAX {
        return Err(LoopFault::OutOfTurn);
    }
    match slots
        .map
        .insert(connection, Slot::new(alloc, State::Running, FIRST))
    {
        Ok(None) => {
            slots.next = connection + 1;
            Ok(true)
        }
        Ok(Some(_)) => Err(LoopFault::OutOfTurn),
        Err(_) => {
            slots.next = connection + 1;
            Ok(false)
        }
    }
}
