//! A run of the sessions, from its settings to their ends.
ghost use Rattle.std.specs.Prelude.{◌≡◌, ℕ, None, IfOk, vec_len};
ghost use Rattle.far_blob.specs.Encodings.{enc_blob};
ghost use Rattle.version_words.specs.Rows.{limits_of};
ghost use Rattle.hash_table.specs.Configs.{sizes_of};
ghost use Rattle.far_map.specs.Settings.{config_of, first_bad};
ghost use Rattle.far_map.specs.Generations.{IsRenewed};
ghost use Rattle.farcalls.specs.Serving.{ServesOn, all_fresh, all_ended};

use crate::pair_count::PairCount;
use crate::pipes::Pipes;
use crate::reason::LastReason;
use crate::renewal::Renewal;
use crate::session_end::SessionEnd;
use crate::states::SessionState;
use crate::worker::Sessions;
use far_blob::Blob;
use far_device::Device;
use far_map::{MapFault, Settings, run_renewed};
use request_loop::{PacketInput, PacketOutput};
use std::alloc::{AllocError, Global};
use std::sync::Wait;
use std::thread::Threads;

/// The settings of a run.
#[derive(Clone, Copy)]
pub struct SessionSettings {
    pub map: Settings,
    /// How many sessions there are.
    pub sessions: u32,
    /// The most bytes of the objects in frames, which `room.rt` keeps to.
    pub most_in_frames: u64,
    /// Whether a device keeps objects.
    pub is_far: bool,
}

/// The states of sessions that have not begun.
fn fresh<I: PacketInput + Drop, O: PacketOutput + Drop>(
    alloc: Global,
    sessions: u32,
) -> Result<Vec<SessionState<I, O>>, AllocError>
    ensures { IfOk result (λ states. states.items ≡ all_fresh sessions) }
{
    let mut states = Vec::new(alloc);
    for made in 0..sessions {
        let _ = made;
        states.push(SessionState::Fresh)?;
    }
    Ok(states)
}

/// How the sessions have ended. `Stopped` is returned if one has not, which no run leaves.
fn ends_of<I: PacketInput + Drop, O: PacketOutput + Drop>(
    alloc: Global,
    states: Vec<SessionState<I, O>>,
) -> Result<Vec<SessionEnd<I, O>>, MapFault>
    ensures { IfOk result (λ ends. states.items ≡ all_ended ends.items) }
{
    let mut ends = Vec::new(alloc);
    for state in states {
        let SessionState::Ended(end) = state else {
            return Err(MapFault::Stopped);
        };
        if ends.push(end).is_err() {
            return Err(MapFault::Memory);
        }
    }
    Ok(ends)
}

/// Answers the requests of all sessions until each has ended, and returns how each of them ended.
///
/// The map is one of blobs over `devices`. Each session has a thread, and one more keeps frames free. When few
/// version numbers are left, a fresh map takes the old one's place, with what the old one held. Requests wait
/// meanwhile, and objects that were on the devices are kept on `spool`.
///
/// A fault of one session doesn't end the others. If the run itself fails, no ends are returned. The faults
/// are those of `far_map::run_renewed`.
pub fn run_sessions<D, P, R>(
    rt: &R,
    alloc: Global,
    settings: SessionSettings,
    devices: Vec<D>,
    spool: D,
    reason: &LastReason,
    pipes: &P,
) -> Result<Vec<SessionEnd<P::Input, P::Output>>, MapFault>
where
    D: Device + Send,
    P: Pipes + Sync,
    P::Input: Send,
    P::Output: Send,
    R: Threads + Wait + Sync,
    // On each connection of each session that ends without a fault, the replies are those to its requests,
    // term by term. All calls of a term are in one history, which begins with what the term before it left.
    ensures served { IfOk result (λ ends. (lost : ℕ) × IsRenewed enc_blob (λ worker l begun ended before after. ServesOn P.Input.remaining P.Output.contents (P.opens pipes.now worker) l settings.is_far begun ended before after) (limits_of (sizes_of (config_of settings.map (vec_len devices))) D.HONEST) settings.map.limit (all_fresh settings.sessions) (all_ended ends.items) lost) }
    ensures within { IfOk result (λ _. first_bad settings.map (vec_len devices) ≡ None) }
{
    let pairs = match PairCount::new(alloc, settings.sessions) {
        Ok(pairs) => pairs,
        Err(_) => return Err(MapFault::Memory),
    };
    let renewal = Renewal::new(&settings.map, settings.sessions);
    let sessions = Sessions {
        settings: &settings,
        pairs: &pairs,
        renewal: &renewal,
        reason,
        pipes,
    };
    let states = match fresh(alloc, settings.sessions) {
        Ok(states) => states,
        Err(_) => return Err(MapFault::Memory),
    };
    let map = settings.map;
    match run_renewed::<Blob, D, _, R>(rt, alloc, map, devices, spool, &sessions, states) {
        Ok(ended) => ends_of(alloc, ended.kept),
        Err(fault) => Err(fault),
    }
}
