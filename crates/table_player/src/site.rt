//! What the threads of a case share.

use crate::datum::Datum;
use far_device::Device;
use hash_table::FarTable;
use std::alloc::Global;
use std::sync::Mutex;
use std::sync::atomic::AtomicU64;
use swapper::{Evictor, QueueNaming, SpareQueue};
use version_words::Naming;

pub type Table<T, J, D> = FarTable<T, T, J, D>;

pub type Queue<T, J, B> = SpareQueue<T, T, J, B>;

pub type Evicting<T, J, B> = Mutex<Evictor<T, T, J, B>>;

/// How many spares were handed over by calls of `settle`, and how many were reclaimed by the evictor.
#[derive(Drop)]
pub struct Spares {
    pub handed_over: AtomicU64,
    pub reclaimed: AtomicU64,
}

impl Spares {
    pub fn new() -> Spares {
        Spares {
            handed_over: AtomicU64::new(0),
            reclaimed: AtomicU64::new(0),
        }
    }
}

/// A table, its queue and its evictor, which threads share.
#[derive(Drop)]
pub struct Site<'s, T: Datum, J: Naming, B: QueueNaming, D: Device> {
    pub alloc: Global,
    pub table: &'s Table<T, J, D>,
    pub queue: &'s Queue<T, J, B>,
    pub evictor: Option<&'s Evicting<T, J, B>>,
    pub spares: &'s Spares,
    /// How many frames the table has.
    pub frames: u32,
    /// How many buckets the table has.
    pub buckets: u32,
}
