//! What is kept of the connections between two services.
ghost use Rattle.std.specs.Prelude.{◌≡◌};
ghost use Rattle.request_loop.specs.Slots.{none_seen};

use crate::slots::Slots;
use std::alloc::Global;
use std::marker::Model;

/// Why `serve_on` returned.
#[derive(Clone, Copy, Debug, PartialEq, Eq)]
pub enum Pause {
    /// There are no more packets.
    End,
    /// The service left at a wake.
    Wake,
}

/// What the loop keeps of its connections when a service leaves, for the next service.
///
/// - Of each connection that is not gone: whether the loop has closed it before the client did, and the
///   bytes that were read and are no whole request.
/// - Which numbers were used.
#[derive(Drop)]
pub struct Holds {
    pub(crate) slots: Slots,
}

impl Model for Holds {
    ghost use Rattle.request_loop.specs.Slots.{Views, views_of};

    ghost Value = { Views };

    ghost view = { λ h. views_of h.slots };
}

impl Holds {
    /// Nothing: no packet was read yet.
    pub fn none(alloc: Global) -> Self
        ensures { result ≡ none_seen }
    {
        Holds {
            slots: Slots::new(alloc),
        }
    }
}
