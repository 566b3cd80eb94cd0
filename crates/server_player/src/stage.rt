//! What a server and who plays the case share.

use crate::opening::Opening;
use crate::wires::Wires;
use anyhow::Result;
use far_server::FarUsage;
use std::alloc::Global;
use std::sync::atomic::AtomicU64;

/// What a server and who plays the case share.
#[derive(Drop)]
pub struct Stage {
    pub wires: Wires,
    /// The time of day, in milliseconds since 1970.
    pub clock: AtomicU64,
    /// How many of the next calls of the device fail, and of the one by which a map is renewed.
    pub device: AtomicU64,
    pub spool: AtomicU64,
    /// What devices told.
    pub usage: FarUsage,
}

impl Stage {
    pub fn new(alloc: Global, opening: &Opening) -> Result<Stage> {
        Ok(Stage {
            wires: Wires::new(alloc, opening.settings.workers)?,
            clock: AtomicU64::new(opening.clock),
            device: AtomicU64::new(0),
            spool: AtomicU64::new(0),
            usage: FarUsage::new(),
        })
    }
}
