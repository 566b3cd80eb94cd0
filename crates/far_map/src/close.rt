//! The end of a map.
ghost use Rattle.std.specs.Prelude.{◌≡◌, ◌++◌, ◌∷◌, [], ℕ, IfOk, OnOk, IfErr, map, vec_len};
ghost use Rattle.far_object.specs.Encodings.{enc_text};
ghost use Rattle.far_pairs.specs.Bundles.{all_of};
ghost use Rattle.table_core.specs.Lawful.{IsLawful};
ghost use Rattle.version_words.specs.Views.{Goes};
ghost use Rattle.hash_table.specs.Closes.{ClosesSorted, Hands, IsCloseFault};
ghost use Rattle.far_map.specs.Ends.{IsClosedBy, IsBundledBy, IsHandedBy};
ghost use Rattle.far_map.specs.Faults.{IsLater, IsHandingFault};
ghost use Rattle.far_map.specs.Runs.{AreSeen, IsLeft};
ghost use Rattle.far_map.specs.Generations.{IsFrontBy, IsDrainedBy};

use crate::fault::{MapFault, of_closing, of_handing};
use crate::map::FarMap;
use crate::values::Value;
use far_device::Device;
use far_object::Text;
use far_pairs::Bundle;
use hash_table::{Caller, CloseFault, Drained, FarTable, TakesPairs};
use migration::Migration;
use std::alloc::{AllocError, Global};
use std::sync::Wait;
use std::thread::Threads;
use swapper::QueueNaming;
use version_words::{Mark, Naming};

/// How many times a map is closed before a version that a frame or a lane did not return counts as missed. No
/// thread works any more, so only a device whose bytes come late can return it still.
const MOST_CLOSES: u32 = 1_000;

/// The callers, and then one of the map's own.
pub(crate) fn with_own<V: Value, J: Naming>(
    mut callers: Vec<Caller<Text, V, J>>,
    own: Caller<Text, V, J>,
) -> Result<Vec<Caller<Text, V, J>>, AllocError>
    ensures all { IfOk result (λ all. all.items ≡ callers.items ++ own ∷ []) }
{
    callers.push(own)?;
    Ok(callers)
}

/// Closes the table, and tries again after `Missed`.
fn close_again<V, J, D, R>(
    rt: &R,
    alloc: Global,
    mut table: FarTable<Text, V, J, D>,
    mut callers: Vec<Caller<Text, V, J>>,
) -> Result<Vec<Bundle<Text, V>>, CloseFault<Text, V, J>>
where
    V: Value + Send + Sync,
    J: Naming + Send + Sync,
    D: Device + Send,
    R: Threads + Wait + Sync,
    ensures closed { IfOk result (λ bundles. ClosesSorted enc_text V.enc J.limits callers.items (all_of bundles.items)) }
    ensures fault { IfErr result (λ e. (n : ℕ) × IsCloseFault enc_text V.enc J.limits n e) }
{
    for _ in 0..MOST_CLOSES {
        match table.close_on_threads(rt, alloc, callers) {
            Ok(bundles) => return Ok(bundles),
            Err((CloseFault::Missed, same, back)) => {
                table = same;
                callers = back;
            }
            Err((fault, _, _)) => return Err(fault),
        }
    }
    Err(CloseFault::Missed)
}

/// Has the map's own caller learn what each of the others has seen.
fn tell_all<V: Value, J: Naming, D: Device>(
    table: &FarTable<Text, V, J, D>,
    own: &mut Caller<Text, V, J>,
    callers: &[Caller<Text, V, J>],
)
    ensures goes { Goes own.old.pass own.new.pass }
    ensures lawful { IsLawful enc_text V.enc J.limits own.new.pass.front }
    ensures told { AreSeen own.new.pass.front (map (λ c. c.pass) callers.now) }
{
    let Some((first, rest)) = callers.split_first() else {
        let _front = own.mark();
        return;
    };
    table.learn(own, &first.mark());
    tell_all(table, own, rest);
}

impl<V: Value, J: Naming, B: QueueNaming, D: Device> FarMap<V, J, B, D> {
    /// Ends the map after all sessions have left, and returns all pairs in key order. After a fault the map
    /// is dropped.
    ///
    /// `PassesSpent` is returned if the caller of a session is not handed in. The others are those of
    /// `FarTable::close`.
    pub(crate) fn close<R: Wait>(
        self,
        rt: &R,
        alloc: Global,
        callers: Vec<Caller<Text, V, J>>,
    ) -> Result<Vec<(Text, V)>, MapFault>
        ensures closed { IfOk result (λ v. IsClosedBy V.enc J.limits callers.items v.items) }
        ensures fault { IfErr result (IsLater J.limits.honest) }
    {
        let FarMap { table, evictor, .. } = self;
        let all = with_own(callers, evictor.into_inner().into_caller())?;
        match table.close(rt, alloc, all) {
            Ok(pairs) => Ok(pairs),
            Err((fault, _table, _callers)) => Err(of_closing(fault)),
        }
    }

    /// The same for a map whose pairs don't fit in memory together: the taker is handed them, bucket after
    /// bucket.
    pub(crate) fn close_through<R: Wait, T: TakesPairs<Text, V>>(
        self,
        rt: &R,
        alloc: Global,
        callers: Vec<Caller<Text, V, J>>,
        taker: &mut T,
    ) -> Result<(), MapFault>
        ensures closed { OnOk result (Hands T.takes (IsHandedBy V.enc J.limits callers.items) taker.old taker.new) }
        ensures fault { IfErr result (IsHandingFault T.takes T.stops J.limits.honest taker.old taker.new) }
    {
        let FarMap { table, evictor, .. } = self;
        let Ok(all) = with_own(callers, evictor.into_inner().into_caller()) else {
            return Err(MapFault::Memory);
        };
        match table.close_through(rt, alloc, all, taker) {
            Ok(()) => Ok(()),
            Err((fault, _table, _callers)) => Err(of_handing::<V, J, T>(fault)),
        }
    }

    /// Ends the map after all sessions have left, and drops what it holds. It returns a mark whose front has
    /// just the calls of these callers. After a fault the map is dropped too.
    pub(crate) fn end(
        self,
        alloc: Global,
        callers: Vec<Caller<Text, V, J>>,
    ) -> Result<Mark<Text, V, J>, MapFault>
        ensures front { IfOk result (λ m. IsFrontBy V.enc J.limits callers.items m) }
        ensures fault { IfErr result (IsLater J.limits.honest) }
    {
        let FarMap { table, evictor, .. } = self;
        let mut all = with_own(callers, evictor.into_inner().into_caller())?;
        match table.gather(alloc, &mut all) {
            Ok(mark) => Ok(mark),
            Err(fault) => Err(of_closing(fault)),
        }
    }

    /// Ends the map after all sessions have left, and hands over its pairs. Buckets that can't be read are
    /// left out and counted. After a fault the map is dropped.
    pub(crate) fn drain<R: Wait>(
        self,
        rt: &R,
        alloc: Global,
        callers: Vec<Caller<Text, V, J>>,
        rest: &mut Migration<Text, V, D>,
    ) -> Result<Drained<D>, MapFault>
        ensures drained { IfOk result (λ left. IsDrainedBy V.enc J.limits callers.items rest.old rest.new left.lost) }
        ensures devices { IfOk result (λ left. vec_len left.devices ≡ self.table.lanes) }
        ensures fault { IfErr result (IsLater J.limits.honest) }
    {
        let FarMap { table, evictor, .. } = self;
        let Ok(all) = with_own(callers, evictor.into_inner().into_caller()) else {
            return Err(MapFault::Memory);
        };
        match table.drain(rt, alloc, all, rest) {
            Ok(left) => Ok(left),
            Err(fault) => Err(of_closing(fault)),
        }
    }

    /// Ends the map after all sessions have left, and drops what it holds. One caller learns what each of
    /// them has seen, so their fronts are prefixes of one log.
    pub(crate) fn abandon(self, callers: &[Caller<Text, V, J>])
        ensures { IsLeft V.enc J.limits (map (λ c. c.pass) callers.now) }
    {
        let FarMap { table, evictor, .. } = self;
        let mut own = evictor.into_inner().into_caller();
        tell_all(&table, &mut own, callers);
    }
}

impl<V, J, B, D> FarMap<V, J, B, D>
where
    V: Value + Send + Sync,
    J: Naming + Send + Sync,
    B: QueueNaming,
    D: Device + Send,
{
    /// As `close`, for a map of many pairs: they are returned as the bytes that they are written as, and
    /// several threads read the buckets. After `Missed` the map is closed again, 1,000 times in all.
    pub(crate) fn close_on_threads<R: Threads + Wait + Sync>(
        self,
        rt: &R,
        alloc: Global,
        callers: Vec<Caller<Text, V, J>>,
    ) -> Result<Vec<Bundle<Text, V>>, MapFault>
        ensures closed { IfOk result (λ v. IsBundledBy V.enc J.limits callers.items (all_of v.items)) }
        ensures fault { IfErr result (IsLater J.limits.honest) }
    {
        let FarMap { table, evictor, .. } = self;
        let all = with_own(callers, evictor.into_inner().into_caller())?;
        match close_again(rt, alloc, table, all) {
            Ok(bundles) => Ok(bundles),
            Err(fault) => Err(of_closing(fault)),
        }
    }
}
