//! A map is made over a table and a queue that are open.
ghost use Rattle.std.specs.Prelude.{◌≡◌, ◌<◌, ◌^◌, IfOk, IfErr, vec_len};
ghost use Rattle.far_map.specs.Faults.{IsOfEntering};

use crate::bytes::FrameBytes;
use crate::fault::MapFault;
use crate::map::FarMap;
use crate::pending_session::{PendingSession, enter, enter_all};
use crate::values::Value;
use far_device::Device;
use far_object::Text;
use hash_table::{Config, FarTable};
use std::alloc::Global;
use std::sync::atomic::AtomicBool;
use std::sync::{Mutex, Wait};
use std::thread::Parker;
use swapper::{Evictor, QueueNaming, QueueOpening};
use version_words::Naming;

/// How many frames the evictor's thread keeps free: a quarter of all, and at least one.
fn reserve_of(frames: u32) -> u32 {
    (frames / 4).max(1)
}

/// How many frames there have to be for each session, so that each may own one between its calls.
const FRAMES_TO_OWN: u32 = 4;

/// The map, and a newcomer for each worker. They enter before the evictor does.
pub(crate) fn map_over<V: Value, J: Naming, B: QueueNaming, D: Device, R: Wait>(
    rt: &R,
    alloc: Global,
    config: Config,
    bytes: u64,
    table: FarTable<Text, V, J, D>,
    queue: QueueOpening<Text, V, J>,
    workers: u32,
) -> Result<(FarMap<V, J, B, D>, Vec<PendingSession<V, J, B>>), MapFault>
    requires queue { queue.table ≡ B.table }
    requires buckets { config.buckets ≡ J.limits.buckets }
    requires frames { 0 < config.frames }
    ensures limit { IfOk result (λ r. r.0.table.limit ≡ table.limit) }
    ensures lanes { IfOk result (λ r. r.0.table.lanes ≡ table.lanes) }
    ensures each { IfOk result (λ r. vec_len r.1 ≡ workers) }
    ensures fault { IfErr result IsOfEntering }
{
    let (queue, taker, seats) = match queue.named::<B>(alloc, workers) {
        Ok(named) => named,
        Err(_) => return Err(MapFault::Memory),
    };
    let Ok(bytes) = FrameBytes::open(alloc, bytes, workers) else {
        return Err(MapFault::Memory);
    };
    let recycles = config.frames / FRAMES_TO_OWN >= workers;
    let all_pending = enter_all(rt, alloc, &table, config.frames, recycles, seats)?;
    let own = enter(rt, &table)?;
    let evictor = match Evictor::open(alloc, own, taker, config.frames, config.spares) {
        Ok(evictor) => evictor,
        Err(_) => return Err(MapFault::Memory),
    };
    let map = FarMap {
        table,
        queue,
        evictor: Mutex::new(evictor),
        buckets: config.buckets,
        reserve: reserve_of(config.frames),
        bytes,
        keeps: AtomicBool::new(false),
        started: AtomicBool::new(false),
        bed: Parker::new(),
        ended: AtomicBool::new(false),
    };
    Ok((map, all_pending))
}
