//! A server's run, from its settings to the ends of its workers.
ghost use Rattle.std.specs.Prelude.{◌≡◌, ◌+◌, ℕ, None, IfOk, vec_len};
ghost use Rattle.far_blob.specs.Encodings.{enc_blob};
ghost use Rattle.version_words.specs.Rows.{limits_of};
ghost use Rattle.hash_table.specs.Configs.{sizes_of};
ghost use Rattle.far_map.specs.Settings.{config_of, first_bad};
ghost use Rattle.far_map.specs.Generations.{IsRenewed};
ghost use Rattle.far_server.specs.Serving.{IsTerm, all_fresh, all_ended};

use crate::context::milliseconds;
use crate::pipes::Pipes;
use crate::renewal::Renewal;
use crate::settings::ServerSettings;
use crate::slow_log::SlowLog;
use crate::states::WorkerState;
use crate::statistics::SharedStatistics;
use crate::turns::Turns;
use crate::usage::FarUsage;
use crate::worker::Workers;
use crate::worker_end::WorkerEnd;
use far_blob::Blob;
use far_device::Device;
use far_map::{MapFault, Settings, run_renewed};
use request_loop::{PacketInput, PacketOutput};
use std::alloc::{AllocError, Global};
use std::rt::Clock;
use std::sync::Wait;
use std::thread::Threads;

/// The settings of the map itself. If no device keeps anything, they have no bound on the bytes in frames:
/// otherwise the map would try to swap objects out, in vain. The commands (`room.rt`) and the sweep
/// (`sweep.rt`) keep to the bound then.
fn map_of(settings: &ServerSettings) -> Settings
    ensures config { (devices : ℕ) → config_of result devices ≡ config_of settings.now.map devices }
    ensures within { (devices : ℕ) → first_bad result devices ≡ first_bad settings.now.map devices }
    ensures limit { result.limit ≡ settings.now.map.limit }
{
    let map = settings.map;
    let bytes = if settings.is_far { map.bytes } else { u64::MAX };
    Settings { bytes, ..map }
}

/// The states of workers that have not begun, as many as `all_workers` says.
fn fresh<I: PacketInput + Drop, O: PacketOutput + Drop>(
    alloc: Global,
    all_workers: u32,
) -> Result<Vec<WorkerState<I, O>>, AllocError>
    ensures { IfOk result (λ states. states.items ≡ all_fresh all_workers) }
{
    let mut states = Vec::new(alloc);
    for made in 0..all_workers {
        let _ = made;
        states.push(WorkerState::Fresh)?;
    }
    Ok(states)
}

/// How the workers have ended. `Stopped` is returned if one has not, which no run leaves.
fn ends_of<I: PacketInput + Drop, O: PacketOutput + Drop>(
    alloc: Global,
    states: Vec<WorkerState<I, O>>,
) -> Result<Vec<WorkerEnd<I, O>>, MapFault>
    ensures { IfOk result (λ ends. states.items ≡ all_ended ends.items) }
{
    let mut ends = Vec::new(alloc);
    for state in states {
        let WorkerState::Ended(end) = state else {
            return Err(MapFault::Stopped);
        };
        if ends.push(end).is_err() {
            return Err(MapFault::Memory);
        }
    }
    Ok(ends)
}

/// Runs a server until all its workers have ended, and returns how each of them ended.
///
/// The server is one map of blobs over `devices`, and these threads:
/// - one for each of the `settings.workers` workers: it opens its pipes by `pipes`, and answers requests until
///   no more packets come, or until a fault ends it;
/// - one for the sweep, which removes expired values and may evict keys;
/// - one for the evictor, which keeps frames free.
///
/// When few version numbers are left, a fresh map takes the old one's place, with what the old one held.
/// Requests wait meanwhile, and objects that were on the devices are kept on `spool`. A FLUSHALL that met a
/// bucket which can't be read asks for this too.
///
/// INFO reports what the devices have told `usage`. A fault of one worker doesn't end the others: it is in
/// the result, which has the ends of the workers in their order, and then that of the sweep. The map is gone
/// then. If the run itself fails, no ends are returned.
///
/// The faults are those of `far_map::run_renewed`, among them:
/// - `BadSetting` if a setting of `settings.map` is outside its limits.
/// - `PassesSpent` if `settings.map.passes` is below `settings.workers` + 3: one for each worker, the sweep,
///   the loader of a fresh map and the map itself.
/// - `Memory` if an allocation fails for the statistics, the states of the workers, a map or a fresh map.
/// - `Device` if a device or the spool fails as it is made empty.
pub fn run_server<D, P, C, R>(
    rt: &R,
    alloc: Global,
    settings: ServerSettings,
    devices: Vec<D>,
    spool: D,
    usage: &FarUsage,
    pipes: &P,
    clock: &C,
) -> Result<Vec<WorkerEnd<P::Input, P::Output>>, MapFault>
where
    D: Device + Send,
    P: Pipes + Sync,
    P::Input: Send,
    P::Output: Send,
    C: Clock + Sync,
    R: Threads + Wait + Sync,
    // On each connection of each worker that ends without a fault, the replies are those to its requests,
    // term by term. All calls of a term are in one history, which begins with what the term before it left.
    // The sweep's calls are removals and gets.
    ensures served { IfOk result (λ ends. (lost : ℕ) × IsRenewed enc_blob (λ worker l begun ended before after. IsTerm P.Input.remaining P.Output.contents (P.opens pipes.now worker) l settings worker begun ended before after) (limits_of (sizes_of (config_of settings.map (vec_len devices))) D.HONEST) settings.map.limit (all_fresh (settings.workers + 1)) (all_ended ends.items) lost) }
    ensures within { IfOk result (λ _. first_bad settings.map (vec_len devices) ≡ None) }
{
    let Some(all_workers) = settings.workers.checked_add(1) else {
        return Err(MapFault::PassesSpent);
    };
    let databases = usize::from(settings.bounds.last_database) + 1;
    let shared_statistics = match SharedStatistics::new(alloc, settings.workers, databases) {
        Ok(shared_statistics) => shared_statistics,
        Err(_) => return Err(MapFault::Memory),
    };
    let renewal = Renewal::new(&settings);
    let turns = Turns::new();
    let slow_log = SlowLog::new(alloc, settings.options.slow);
    let workers = Workers {
        settings: &settings,
        shared_statistics: &shared_statistics,
        usage,
        renewal: &renewal,
        turns: &turns,
        slow_log: &slow_log,
        pipes,
        clock,
        started: milliseconds(clock),
    };
    let states = match fresh(alloc, all_workers) {
        Ok(states) => states,
        Err(_) => return Err(MapFault::Memory),
    };
    let map = map_of(&settings);
    match run_renewed::<Blob, D, _, R>(rt, alloc, map, devices, spool, &workers, states) {
        Ok(ended) => ends_of(alloc, ended.kept),
        Err(fault) => Err(fault),
    }
}
