//! A run of many generations. Before version numbers run out, the workers leave the map, and its pairs go
//! into a fresh one. There numbers are counted from 1 again, and the workers go on.
//!
//! # Why one loop makes all generations
//!
//! The types of a map name its row of words, and each generation picks a row of its own. A call that picks
//! one can't be in a cycle of calls, so no generation can begin the next one. And a loop can't keep a value
//! whose type names a row. So a generation ends as a `Migration`, whose type names none, and the loop hands
//! that to the next generation.
//!
//! # Devices
//!
//! A map that is drained leaves its devices. The next map is opened over them, and they are made empty then.
//! Meanwhile the objects that were stored there wait on a device of the migration, the spool.
ghost use Rattle.std.specs.Prelude.{◌≡◌, ◌<◌, ◌+◌, ◌^◌, None, IfOk, IfErr, IfSome, vec_len};
ghost use Rattle.version_words.specs.Rows.{limits_of};
ghost use Rattle.hash_table.specs.Configs.{sizes_of, first_bad_wide_with};
ghost use Rattle.hash_table.specs.Openings.{WasOpened};
ghost use Rattle.far_map.specs.Faults.{IsEarlyFault, IsLater, IsRunFault};
ghost use Rattle.far_map.specs.Settings.{config_of, first_bad};
ghost use Rattle.far_map.specs.Loads.{lost_of};
ghost use Rattle.far_map.specs.Generations.{IsTurn, IsRenewed};

use crate::close::with_own;
use crate::fault::MapFault;
use crate::load::load;
use crate::opening::map_over;
use crate::renewable_work::{After, LoadReport, RenewableWork};
use crate::settings::{Settings, setting_of};
use crate::values::Value;
use crate::workers::serve_terms;
use far_device::Device;
use far_object::Text;
use hash_table::{Config, Drained, FarTable, Opening};
use migration::Migration;
use std::alloc::Global;
use std::marker::Brand;
use std::sync::Wait;
use std::thread::Threads;
use swapper::{QueueNaming, QueueOpening};
use version_words::Naming;

/// What `run_renewed` returns.
#[derive(Drop)]
pub struct Renewals<T> {
    /// What each worker returned from its last term, in the order of the workers' numbers.
    pub kept: Vec<T>,
    /// How much was lost between the generations: buckets that could not be read, parts that could not be
    /// taken, and pairs whose put was refused. A count of 2^64 - 1 stays.
    pub lost: u64,
}

/// A generation that has ended: what its workers kept, and how much was lost on the way into it. `next` is
/// what is left of its map, if another generation follows.
#[derive(Drop)]
struct Generation<D, T> {
    kept: Vec<T>,
    lost: u64,
    next: Option<Drained<D>>,
}

/// A generation over a table and a queue that were just opened.
fn over_queue<V, J, B, D, W, R>(
    rt: &R,
    alloc: Global,
    config: Config,
    bytes: u64,
    table: FarTable<Text, V, J, D>,
    queue: QueueOpening<Text, V, J>,
    rest: &mut Migration<Text, V, D>,
    before: LoadReport,
    work: &W,
    states: Vec<W::State>,
) -> Result<Generation<D, W::State>, MapFault>
where
    V: Value + Send + Sync,
    J: Naming + Send + Sync,
    B: QueueNaming + Send + Sync,
    D: Device + Send,
    W: RenewableWork<V>,
    R: Threads + Wait + Sync,
    requires queue { queue.table ≡ B.table }
    requires buckets { config.buckets ≡ J.limits.buckets }
    requires frames { 0 < config.frames }
    requires honest { J.limits.honest ≡ D.HONEST }
    requires few { vec_len states + 1 < 2 ^ 32 }
    ensures ran { IfOk result (λ g. IsTurn V.enc (W.done work.now) J.limits table.limit rest.old rest.new g.lost states.items g.kept.items g.next) }
    ensures counted { IfOk result (λ g. g.lost ≡ 0 → lost_of before ≡ 0) }
    ensures devices { IfOk result (λ g. IfSome g.next (λ left. vec_len left.devices ≡ table.lanes)) }
    ensures fault { IfErr result (IsLater J.limits.honest) }
{
    let sessions = states.len() as u32 + 1;
    let (far, mut all_pending) = match map_over::<V, J, B, D, R>(
        rt, alloc, config, bytes, table, queue, sessions,
    ) {
        Ok(opened) => opened,
        Err(fault) => return Err(fault),
    };
    let Some(pending) = all_pending.pop() else {
        unreachable!();
    };
    let (loader, load_report) = load(rt, alloc, &far, pending, rest, before);
    work.begins(load_report);
    let mark = loader.mark();
    let (callers, kept) = match serve_terms(rt, alloc, &far, &mark, work, all_pending, states) {
        Ok(ended) => ended,
        Err(fault) => return Err(fault),
    };
    let Ok(all) = with_own(callers, loader) else {
        return Err(MapFault::Memory);
    };
    let lost = load_report.lost();
    match work.after(&kept) {
        After::End => match far.end(alloc, all) {
            Ok(_mark) => Ok(Generation {
                kept,
                lost,
                next: None,
            }),
            Err(fault) => Err(fault),
        },
        After::Renewed => match far.drain(rt, alloc, all, rest) {
            Ok(left) => Ok(Generation {
                kept,
                lost,
                next: Some(left),
            }),
            Err(fault) => Err(fault),
        },
    }
}

/// A generation over a row of words that was just opened.
fn over_row<V, J, D, W, R>(
    rt: &R,
    alloc: Global,
    config: Config,
    bytes: u64,
    opening: Opening<Text, V, D>,
    rest: &mut Migration<Text, V, D>,
    before: LoadReport,
    work: &W,
    states: Vec<W::State>,
) -> Result<Generation<D, W::State>, MapFault>
where
    V: Value + Send + Sync,
    J: Naming + Send + Sync,
    D: Device + Send,
    W: RenewableWork<V>,
    R: Threads + Wait + Sync,
    requires book { opening.row.book ≡ J.book }
    requires boards { opening.row.names ≡ J.names }
    requires limits { limits_of (sizes_of opening.config) D.HONEST ≡ J.limits }
    requires config { opening.config ≡ config }
    requires frames { 0 < config.frames }
    requires spares { 0 < config.spares }
    requires few { vec_len states + 1 < 2 ^ 32 }
    ensures ran { IfOk result (λ g. IsTurn V.enc (W.done work.now) (limits_of (sizes_of config) D.HONEST) config.limit rest.old rest.new g.lost states.items g.kept.items g.next) }
    ensures counted { IfOk result (λ g. g.lost ≡ 0 → lost_of before ≡ 0) }
    ensures devices { IfOk result (λ g. IfSome g.next (λ left. vec_len left.devices ≡ config.lanes)) }
    ensures opened { IfOk result (λ _. WasOpened config) }
    ensures fault { IfErr result (IsRunFault D.HONEST None) }
{
    let table = opening.named::<J>(alloc)?;
    let queue = match QueueOpening::open(alloc, config.spares) {
        Ok(queue) => queue,
        Err(_) => return Err(MapFault::Memory),
    };
    over_queue::<V, J, Brand, D, W, R>(
        rt, alloc, config, bytes, table, queue, rest, before, work, states,
    )
}

/// A generation over these devices, one for each lane.
fn over_devices<V, D, W, R>(
    rt: &R,
    alloc: Global,
    config: Config,
    bytes: u64,
    devices: Vec<D>,
    rest: &mut Migration<Text, V, D>,
    before: LoadReport,
    work: &W,
    states: Vec<W::State>,
) -> Result<Generation<D, W::State>, MapFault>
where
    V: Value + Send + Sync,
    D: Device + Send,
    W: RenewableWork<V>,
    R: Threads + Wait + Sync,
    requires good { first_bad_wide_with (vec_len devices) config ≡ None }
    requires few { vec_len states + 1 < 2 ^ 32 }
    ensures ran { IfOk result (λ g. IsTurn V.enc (W.done work.now) (limits_of (sizes_of config) D.HONEST) config.limit rest.old rest.new g.lost states.items g.kept.items g.next) }
    ensures counted { IfOk result (λ g. g.lost ≡ 0 → lost_of before ≡ 0) }
    ensures devices { IfOk result (λ g. IfSome g.next (λ left. vec_len left.devices ≡ vec_len devices)) }
    ensures opened { IfOk result (λ _. WasOpened config) }
    ensures fault { IfErr result (IsRunFault D.HONEST None) }
{
    let opening = Opening::open_wide(alloc, config, devices)?;
    over_row::<V, Brand, D, W, R>(
        rt, alloc, config, bytes, opening, rest, before, work, states,
    )
}

/// The table's settings over these devices, if none is bad.
fn good_config<D: Device>(settings: Settings, devices: &Vec<D>) -> Result<Config, MapFault>
    ensures config { IfOk result (λ config. config ≡ config_of settings (vec_len devices.now)) }
    ensures good { IfOk result (λ config. first_bad_wide_with (vec_len devices.now) config ≡ None) }
    ensures within { IfOk result (λ _. first_bad settings (vec_len devices.now) ≡ None) }
    ensures fault { IfErr result (IsEarlyFault (first_bad settings (vec_len devices.now))) }
{
    let config = settings.config(devices.len());
    match config.first_bad_wide_with(devices.len()) {
        None => Ok(config),
        Some(number) => Err(MapFault::BadSetting(setting_of(number))),
    }
}

/// Runs workers on a map that is renewed. It returns what each worker kept from its last term, and how much
/// was lost.
///
/// There is a worker for each of `states`, which is what it begins its first term with. A generation is one
/// map, and a term is what a worker does in it (`RenewableWork::term`). Once all workers have returned from their
/// terms, `RenewableWork::after` decides. After `After::Renewed`, the map's pairs are put into a fresh one over the
/// same devices, and each worker begins another term with the state that it returned. After `After::End` the
/// run ends, and the last map is dropped.
///
/// `spool` is a device on which objects wait between two generations, if they were stored on a device. It is
/// made empty first.
///
/// What can't be read or put on the way into the next generation is left out and counted, in `LoadReport` and
/// `Renewals`.
///
/// # Errors
///
/// - `BadSetting`: a setting is outside its limits, and this is the first one. It is returned before anything
///   is done.
/// - `Device`: a device failed when it was made empty, at the beginning of any generation, or `spool` did.
/// - `PassesSpent`: `settings.passes` is less than the workers + 2. One more session puts the pairs, and the
///   map itself needs one.
/// - `Memory`: an allocation failed, in any generation.
///
/// After each of these the map and the states are gone. A bucket that can't be read is no error here.
///
/// # What is proved
///
/// Each generation has one lawful history with the calls of its sessions and no others. It begins with puts
/// only, before any worker's session begins. Over an honest device these are of the pairs that the generation
/// before left: of all of them if nothing was lost, and otherwise of a part. Each worker's `done` holds for
/// each term.
///
/// # Cost
///
/// Between two generations no worker works. Each pair is read once and put once. An object that was in a
/// frame stays in memory meanwhile, and one that was on a device is written to the spool and read again.
pub fn run_renewed<V, D, W, R>(
    rt: &R,
    alloc: Global,
    settings: Settings,
    devices: Vec<D>,
    spool: D,
    work: &W,
    states: Vec<W::State>,
) -> Result<Renewals<W::State>, MapFault>
where
    V: Value + Send + Sync,
    D: Device + Send,
    W: RenewableWork<V>,
    R: Threads + Wait + Sync,
    ensures ran { IfOk result (λ r. IsRenewed V.enc (W.done work.now) (limits_of (sizes_of (config_of settings (vec_len devices))) D.HONEST) settings.limit states.items r.kept.items r.lost) }
    ensures opened { IfOk result (λ _. WasOpened (config_of settings (vec_len devices))) }
    ensures within { IfOk result (λ _. first_bad settings (vec_len devices) ≡ None) }
    ensures fault { IfErr result (IsRunFault D.HONEST (first_bad settings (vec_len devices))) }
{
    let config = match good_config(settings, &devices) {
        Ok(config) => config,
        Err(fault) => return Err(fault),
    };
    if states.len() >= u32::MAX as usize {
        return Err(MapFault::PassesSpent);
    }
    let mut rest = match Migration::over(alloc, spool) {
        Ok(rest) => rest,
        Err(_) => return Err(MapFault::Device),
    };
    let mut left = Drained {
        devices,
        lost: 0,
        far: 0,
    };
    let mut states = states;
    let mut lost = 0u64;
    for _ in rt.forever() {
        let Drained {
            devices,
            lost: buckets,
            far,
        } = left;
        let before = LoadReport::behind(buckets, far);
        let Generation {
            kept,
            lost: more,
            next,
        } = match over_devices(
            rt,
            alloc,
            config,
            settings.bytes,
            devices,
            &mut rest,
            before,
            work,
            states,
        ) {
            Ok(generation) => generation,
            Err(fault) => return Err(fault),
        };
        lost = lost.saturating_add(more);
        match next {
            None => return Ok(Renewals { kept, lost }),
            Some(next) => {
                left = next;
                states = kept;
            }
        }
    }
    unreachable!()
}
