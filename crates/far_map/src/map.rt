//! What the sessions of a map share.
ghost use Rattle.std.specs.Prelude.{◌≡◌};

use crate::bytes::FrameBytes;
use crate::values::Value;
use far_device::Device;
use far_object::Text;
use hash_table::FarTable;
use std::sync::Mutex;
use std::sync::atomic::AtomicBool;
use std::thread::Parker;
use swapper::{Evictor, QueueNaming, SpareQueue};
use version_words::Naming;

/// A table, its queue of retired words and its evictor. `J` and `B` are their names in types, which a run
/// picks.
#[derive(Drop)]
pub struct FarMap<V: Value, J: Naming, B: QueueNaming, D: Device> {
    pub(crate) table: FarTable<Text, V, J, D>,
    pub(crate) queue: SpareQueue<Text, V, J, B>,
    // While one thread has the evictor, others wait for it.
    pub(crate) evictor: Mutex<Evictor<Text, V, J, B>>,
    pub(crate) buckets: u32,
    // How many frames the evictor's thread keeps free.
    pub(crate) reserve: u32,
    // The bytes in frames, as the sessions and the evictor report them.
    pub(crate) bytes: FrameBytes,
    // Whether the evictor may keep retired words: some came back to it, or a turn was refused.
    pub(crate) keeps: AtomicBool,
    // Whether the evictor's thread has started.
    pub(crate) started: AtomicBool,
    // On this the evictor's thread sleeps while it has nothing to do.
    pub(crate) bed: Parker,
    // Whether all workers have ended.
    pub(crate) ended: AtomicBool,
    ghost all_buckets: { buckets ≡ J.limits.buckets },
}
