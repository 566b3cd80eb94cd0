//! A run: it opens a map from settings and devices, has workers work on it, and ends it. The names in types
//! are picked here.
ghost use Rattle.std.specs.Prelude.{◌≡◌, ◌<◌, None, IfOk, IfErr, vec_len};
ghost use Rattle.version_words.specs.Rows.{limits_of};
ghost use Rattle.hash_table.specs.Configs.{sizes_of};
ghost use Rattle.hash_table.specs.Openings.{WasOpened};
ghost use Rattle.far_map.specs.Faults.{IsEarlyFault, IsRunFault};
ghost use Rattle.far_map.specs.Settings.{config_of, first_bad};
ghost use Rattle.far_map.specs.Runs.{EndsSo, EndsBundled, EndsThrough, IsRun, IsRunApart};

use crate::fault::MapFault;
use crate::opening::map_over;
use crate::run_end::{End, Given, NoTaker};
use crate::settings::{Settings, setting_of};
use crate::single_term::serve;
use crate::values::Value;
use crate::work::Work;
use far_device::Device;
use far_object::Text;
use far_pairs::Bundle;
use hash_table::{Config, FarTable, Opening, TakesPairs};
use std::alloc::Global;
use std::marker::Brand;
use std::sync::Wait;
use std::thread::Threads;
use swapper::{QueueNaming, QueueOpening};
use version_words::Naming;

/// A run over a table and a queue that were just opened.
fn over_queue<V, J, B, D, W, T, R>(
    rt: &R,
    alloc: Global,
    config: Config,
    bytes: u64,
    table: FarTable<Text, V, J, D>,
    queue: QueueOpening<Text, V, J>,
    count: u32,
    work: &W,
    end: End,
    taker: &mut T,
) -> Result<(Vec<W::Out>, Result<Given<V>, MapFault>), MapFault>
where
    V: Value + Send + Sync,
    J: Naming + Send + Sync,
    B: QueueNaming + Send + Sync,
    D: Device + Send,
    W: Work<V>,
    T: TakesPairs<Text, V>,
    R: Threads + Wait + Sync,
    requires queue { queue.table ≡ B.table }
    requires buckets { config.buckets ≡ J.limits.buckets }
    requires frames { 0 < config.frames }
    ensures ran { IfOk result (λ r. EndsSo V.enc (W.done work.now) J.limits table.limit count r.0.items T.takes T.stops taker.old taker.new end r.1) }
    ensures fault { IfErr result (IsEarlyFault None) }
    ensures untold { IfErr result (λ _. taker.new ≡ taker.old) }
{
    let (far, all_pending) = match map_over::<V, J, B, D, R>(
        rt, alloc, config, bytes, table, queue, count,
    ) {
        Ok(opened) => opened,
        Err(fault) => return Err(fault),
    };
    let (callers, outs) = match serve(rt, alloc, &far, work, all_pending) {
        Ok(ended) => ended,
        Err(fault) => return Err(fault),
    };
    match end {
        End::Pairs => match far.close(rt, alloc, callers) {
            Ok(pairs) => Ok((outs, Ok(Given::Pairs(pairs)))),
            Err(fault) => Ok((outs, Err(fault))),
        },
        End::Bundles => match far.close_on_threads(rt, alloc, callers) {
            Ok(bundles) => Ok((outs, Ok(Given::Bundles(bundles)))),
            Err(fault) => Ok((outs, Err(fault))),
        },
        End::Buckets => match far.close_through(rt, alloc, callers, taker) {
            Ok(()) => Ok((outs, Ok(Given::Nothing))),
            Err(fault) => Ok((outs, Err(fault))),
        },
        End::Nothing => {
            far.abandon(&callers);
            Ok((outs, Ok(Given::Nothing)))
        }
    }
}

/// A run over a row of words that was just opened.
fn over_row<V, J, D, W, T, R>(
    rt: &R,
    alloc: Global,
    config: Config,
    bytes: u64,
    opening: Opening<Text, V, D>,
    count: u32,
    work: &W,
    end: End,
    taker: &mut T,
) -> Result<(Vec<W::Out>, Result<Given<V>, MapFault>), MapFault>
where
    V: Value + Send + Sync,
    J: Naming + Send + Sync,
    D: Device + Send,
    W: Work<V>,
    T: TakesPairs<Text, V>,
    R: Threads + Wait + Sync,
    requires book { opening.row.book ≡ J.book }
    requires boards { opening.row.names ≡ J.names }
    requires limits { limits_of (sizes_of opening.config) D.HONEST ≡ J.limits }
    requires config { opening.config ≡ config }
    requires frames { 0 < config.frames }
    requires spares { 0 < config.spares }
    ensures ran { IfOk result (λ r. EndsSo V.enc (W.done work.now) (limits_of (sizes_of config) D.HONEST) config.limit count r.0.items T.takes T.stops taker.old taker.new end r.1) }
    ensures opened { IfOk result (λ _. WasOpened config) }
    ensures fault { IfErr result (IsEarlyFault None) }
    ensures untold { IfErr result (λ _. taker.new ≡ taker.old) }
{
    let table = opening.named::<J>(alloc)?;
    let queue = match QueueOpening::open(alloc, config.spares) {
        Ok(queue) => queue,
        Err(_) => return Err(MapFault::Memory),
    };
    over_queue::<V, J, Brand, D, W, T, R>(
        rt, alloc, config, bytes, table, queue, count, work, end, taker,
    )
}

/// A run over these devices, one for each lane.
fn over_devices<V, D, W, T, R>(
    rt: &R,
    alloc: Global,
    settings: Settings,
    devices: Vec<D>,
    workers: u32,
    work: &W,
    end: End,
    taker: &mut T,
) -> Result<(Vec<W::Out>, Result<Given<V>, MapFault>), MapFault>
where
    V: Value + Send + Sync,
    D: Device + Send,
    W: Work<V>,
    T: TakesPairs<Text, V>,
    R: Threads + Wait + Sync,
    ensures ran { IfOk result (λ r. EndsSo V.enc (W.done work.now) (limits_of (sizes_of (config_of settings (vec_len devices))) D.HONEST) settings.limit workers r.0.items T.takes T.stops taker.old taker.new end r.1) }
    ensures opened { IfOk result (λ _. WasOpened (config_of settings (vec_len devices))) }
    ensures within { IfOk result (λ _. first_bad settings (vec_len devices) ≡ None) }
    ensures fault { IfErr result (IsEarlyFault (first_bad settings (vec_len devices))) }
    ensures untold { IfErr result (λ _. taker.new ≡ taker.old) }
{
    let config = settings.config(devices.len());
    if let Some(number) = config.first_bad_wide_with(devices.len()) {
        return Err(MapFault::BadSetting(setting_of(number)));
    }
    let opening = Opening::open_wide(alloc, config, devices)?;
    over_row::<V, Brand, D, W, T, R>(
        rt,
        alloc,
        config,
        settings.bytes,
        opening,
        workers,
        work,
        end,
        taker,
    )
}

/// Opens a map, has workers work on it, and closes it. It returns what each worker returned, in the order of
/// the workers' numbers, and all pairs in key order.
///
/// Each device becomes a lane of the map, and is made empty first. `workers` is the number of workers. They
/// are counted from 0, and each does `work` once. Key order means that shorter keys come first, and keys of
/// one length in the order of their bytes.
///
/// Each worker has its own thread, which is the caller's for worker 0. If there are several, one more thread
/// keeps frames free. If a thread can't be started, its worker works after others on their thread. So a
/// worker that waits for another one may wait forever.
///
/// # Errors
///
/// - `BadSetting`: a setting is outside its limits, and this is the first one. It is returned before anything
///   is done.
/// - `Device`: a device failed when it was made empty, or when it was read at the end.
/// - `PassesSpent`: `settings.passes` is less than `workers` + 1. It is returned before any worker begins.
/// - `Damaged`: at the end, bytes from a device are no object of their bucket and version.
/// - `Missed`: at the end, a frame or a lane did not have the version that the word of a bucket names.
/// - `Memory`: an allocation failed.
///
/// After each of these the map and the workers' results are gone. The devices are dropped.
///
/// # What is proved
///
/// There is one lawful history with the calls of the workers' sessions and no others. Over an honest device,
/// the pairs are the map of that history. Each worker's `done` holds for what it returned. A bad setting is
/// named exactly if there is one.
///
/// # Cost
///
/// At the end all pairs are copied, and are in memory together. `run_through` and `run_apart` are for larger
/// maps.
pub fn run<V, D, W, R>(
    rt: &R,
    alloc: Global,
    settings: Settings,
    devices: Vec<D>,
    workers: u32,
    work: &W,
) -> Result<(Vec<W::Out>, Vec<(Text, V)>), MapFault>
where
    V: Value + Send + Sync,
    D: Device + Send,
    W: Work<V>,
    R: Threads + Wait + Sync,
    ensures ran { IfOk result (λ r. IsRun V.enc (W.done work.now) (limits_of (sizes_of (config_of settings (vec_len devices))) D.HONEST) settings.limit workers r.0.items r.1.items) }
    ensures opened { IfOk result (λ _. WasOpened (config_of settings (vec_len devices))) }
    ensures within { IfOk result (λ _. first_bad settings (vec_len devices) ≡ None) }
    ensures fault { IfErr result (IsRunFault D.HONEST (first_bad settings (vec_len devices))) }
{
    match over_devices(
        rt,
        alloc,
        settings,
        devices,
        workers,
        work,
        End::Pairs,
        &mut NoTaker,
    ) {
        Ok((outs, given)) => match given {
            Ok(Given::Pairs(pairs)) => Ok((outs, pairs)),
            Ok(_) => unreachable!(),
            Err(fault) => Err(fault),
        },
        Err(fault) => Err(fault),
    }
}

/// As `run`, for a map of many pairs: they are returned in bundles, as the bytes that they are written as.
///
/// The bundles are in no order. `far_pairs::in_key_order` lends their pairs in key order. If the map has more
/// than 16,384 buckets, up to four threads read them.
///
/// # Errors
///
/// `BadSetting`, `PassesSpent`, and `Device` and `Memory` before the end are returned as by `run`. A fault at
/// the end is returned with what the workers returned, in place of the bundles: `Device`, `Damaged`, `Missed`
/// or `Memory`, as by `run`. `Missed` is returned only after 1,000 tries.
pub fn run_bundled<V, D, W, R>(
    rt: &R,
    alloc: Global,
    settings: Settings,
    devices: Vec<D>,
    workers: u32,
    work: &W,
) -> Result<(Vec<W::Out>, Result<Vec<Bundle<Text, V>>, MapFault>), MapFault>
where
    V: Value + Send + Sync,
    D: Device + Send,
    W: Work<V>,
    R: Threads + Wait + Sync,
    ensures ran { IfOk result (λ r. EndsBundled V.enc (W.done work.now) (limits_of (sizes_of (config_of settings (vec_len devices))) D.HONEST) settings.limit workers r.0.items r.1) }
    ensures opened { IfOk result (λ _. WasOpened (config_of settings (vec_len devices))) }
    ensures within { IfOk result (λ _. first_bad settings (vec_len devices) ≡ None) }
    ensures fault { IfErr result (IsEarlyFault (first_bad settings (vec_len devices))) }
{
    match over_devices(
        rt,
        alloc,
        settings,
        devices,
        workers,
        work,
        End::Bundles,
        &mut NoTaker,
    ) {
        Ok((outs, given)) => match given {
            Ok(Given::Bundles(bundles)) => Ok((outs, Ok(bundles))),
            Ok(_) => unreachable!(),
            Err(fault) => Ok((outs, Err(fault))),
        },
        Err(fault) => Err(fault),
    }
}

/// As `run`, for a map that has more pairs than fit in memory: at the end they are handed to `taker`, bucket
/// after bucket.
///
/// `taker` gets the pairs of each bucket once, in the order of the buckets' numbers, and in key order within
/// a bucket. For a bucket without pairs it gets an empty list. The pairs of one bucket at a time are copied.
///
/// # Errors
///
/// `BadSetting`, `PassesSpent`, and `Device` and `Memory` before the end are returned as by `run`, and
/// `taker` is as before. A fault at the end is returned with what the workers returned: `Device`, `Damaged`,
/// `Missed` or `Memory`, as by `run`, or `Stopped` if `taker` stopped. No further bucket is handed over then,
/// and `taker` keeps what it took.
pub fn run_through<V, D, W, T, R>(
    rt: &R,
    alloc: Global,
    settings: Settings,
    devices: Vec<D>,
    workers: u32,
    work: &W,
    taker: &mut T,
) -> Result<(Vec<W::Out>, Result<(), MapFault>), MapFault>
where
    V: Value + Send + Sync,
    D: Device + Send,
    W: Work<V>,
    T: TakesPairs<Text, V>,
    R: Threads + Wait + Sync,
    ensures ran { IfOk result (λ r. EndsThrough V.enc (W.done work.now) (limits_of (sizes_of (config_of settings (vec_len devices))) D.HONEST) settings.limit workers r.0.items T.takes T.stops taker.old taker.new r.1) }
    ensures opened { IfOk result (λ _. WasOpened (config_of settings (vec_len devices))) }
    ensures within { IfOk result (λ _. first_bad settings (vec_len devices) ≡ None) }
    ensures fault { IfErr result (IsEarlyFault (first_bad settings (vec_len devices))) }
    ensures untold { IfErr result (λ _. taker.new ≡ taker.old) }
{
    match over_devices(
        rt,
        alloc,
        settings,
        devices,
        workers,
        work,
        End::Buckets,
        taker,
    ) {
        Ok((outs, given)) => match given {
            Ok(Given::Nothing) => Ok((outs, Ok(()))),
            Ok(_) => unreachable!(),
            Err(fault) => Ok((outs, Err(fault))),
        },
        Err(fault) => Err(fault),
    }
}

/// As `run`, without the pairs: it returns only what each worker returned, in the order of the workers'
/// numbers.
///
/// The map is dropped at the end, and no bucket is read. Errors: `BadSetting`, `Device`, `PassesSpent` and
/// `Memory`, as by `run` before the end.
pub fn run_apart<V, D, W, R>(
    rt: &R,
    alloc: Global,
    settings: Settings,
    devices: Vec<D>,
    workers: u32,
    work: &W,
) -> Result<Vec<W::Out>, MapFault>
where
    V: Value + Send + Sync,
    D: Device + Send,
    W: Work<V>,
    R: Threads + Wait + Sync,
    ensures ran { IfOk result (λ outs. IsRunApart V.enc (W.done work.now) (limits_of (sizes_of (config_of settings (vec_len devices))) D.HONEST) settings.limit workers outs.items) }
    ensures opened { IfOk result (λ _. WasOpened (config_of settings (vec_len devices))) }
    ensures within { IfOk result (λ _. first_bad settings (vec_len devices) ≡ None) }
    ensures fault { IfErr result (IsEarlyFault (first_bad settings (vec_len devices))) }
{
    match over_devices(
        rt,
        alloc,
        settings,
        devices,
        workers,
        work,
        End::Nothing,
        &mut NoTaker,
    ) {
        Ok((outs, given)) => match given {
            Ok(Given::Nothing) => Ok(outs),
            _ => unreachable!(),
        },
        Err(fault) => Err(fault),
    }
}
