//! The end of a table: all passes are handed in, and all pairs are returned.
//!
//! # Why one look at each bucket is enough
//!
//! A pass is a caller's identity, and its front is the prefix of the log that it has seen. The passes are
//! brought to one front before any bucket is read, and again after the last. Each pass has the same calls at
//! both fronts, because nobody could make one in between. No other pass was drawn.
//!
//! So the history is the same at both, although moves may be between them. What a look finds in a bucket is
//! what the map of that history has there.
ghost use Rattle.std.specs.Prelude.{◌≡◌, ◌<◌, ℕ, IsTrue, IfOk, IfErr, length, vec_len};
ghost use Rattle.std.specs.List.Sorted.{IsPermutation, IsSortedBy};
ghost use Rattle.std.specs.Ordering.{is_lt};
ghost use Rattle.far_object.specs.Buckets.{key_cmp};
ghost use Rattle.far_pairs.specs.Bundles.{all_of};
ghost use Rattle.hash_table.specs.Closes.{IsClosed, ClosesSorted, IsCloseFault, IsFrontOf, AreBack, AreTold};
ghost use Rattle.hash_table.specs.Stages.{IsUnreadFar};

use crate::caller::Caller;
use crate::refusal::Refusal;
use crate::table::FarTable;
use far_device::Device;
use far_object::FarObject;
use far_pairs::Bundle;
use std::alloc::Global;
use std::fmt::{Debug, Display, Formatter};
use std::sync::Wait;
use std::thread::Threads;
use std::{error, fmt};
use table_core::buckets_make_map;
use version_words::{GatherFault, Mark, Naming, same_history};

/// Why a table was not closed.
#[derive(Drop)]
pub enum CloseFault<K: FarObject, V: FarObject, J: Naming> {
    /// More passes (callers' identities) were drawn than callers are handed in, as the mark shows.
    PassMissing(Mark<K, V, J>),
    /// An allocation failed.
    Memory,
    /// The device failed in this call.
    Device,
    /// The bytes that were read are no object of their bucket and name (version number). It is never returned
    /// over an honest device.
    Damaged,
    /// A frame or a lane did not return the version that a word names. Another try may find it.
    Missed,
}

impl<K: FarObject, V: FarObject, J: Naming> CloseFault<K, V, J> {
    pub(crate) fn text(&self) -> &'static str {
        match self {
            CloseFault::PassMissing(_) => "pass missing",
            CloseFault::Memory => "memory",
            CloseFault::Device => "device",
            CloseFault::Damaged => "damaged",
            CloseFault::Missed => "missed",
        }
    }
}

impl<K: FarObject, V: FarObject, J: Naming> Debug for CloseFault<K, V, J> {
    fn fmt<W: fmt::Write>(&self, f: &mut Formatter<W>) -> fmt::Result {
        f.write_str(self.text())
    }
}

impl<K: FarObject, V: FarObject, J: Naming> Display for CloseFault<K, V, J> {
    fn fmt<W: fmt::Write>(&self, f: &mut Formatter<W>) -> fmt::Result {
        f.write_str(self.text())
    }
}

impl<K: FarObject, V: FarObject, J: Naming> error::Error for CloseFault<K, V, J> {}

// The fault of a bucket that could not be read.
pub(crate) fn unread<K: FarObject, V: FarObject, J: Naming>(refusal: Refusal) -> CloseFault<K, V, J>
    requires { IsUnreadFar J.limits.honest refusal }
    ensures { (n : ℕ) → IsCloseFault K.enc V.enc J.limits n result }
{
    match refusal {
        Refusal::Memory => CloseFault::Memory,
        Refusal::Device => CloseFault::Device,
        Refusal::Damaged => CloseFault::Damaged,
        _ => CloseFault::Missed,
    }
}

// The pairs in key order.
fn sorted<K: FarObject, V: FarObject>(mut pairs: Vec<(K, V)>) -> Vec<(K, V)>
    ensures permutation { IsPermutation pairs.items result.items }
    ensures rising { IsSortedBy (λ a b. is_lt (key_cmp K.enc a.0 b.0)) result.items }
{
    pairs.sort_unstable_by(|one, other| one.0.compare(&other.0));
    pairs
}

impl<K: FarObject, V: FarObject, J: Naming, D: Device> FarTable<K, V, J, D> {
    /// Brings all passes to one front (a prefix of the log), and returns its mark. `callers` has to be all
    /// callers of the table. At that front the log has exactly the calls that they made.
    ///
    /// It waits for nobody and reads no bucket. Whatever is returned, the callers have made no further call.
    ///
    /// Errors:
    ///
    /// - `PassMissing` if a pass was drawn whose caller is not handed in
    /// - `Memory` if the room for a number for each pass can't be allocated
    pub fn gather(
        &self,
        alloc: Global,
        callers: &mut [Caller<K, V, J>],
    ) -> Result<Mark<K, V, J>, CloseFault<K, V, J>>
        ensures front { IfOk result (λ m. IsFrontOf K.enc V.enc J.limits callers.old m) }
        ensures told { IfOk result (λ m. AreTold m callers.new) }
        ensures fault { IfErr result (λ e. IsCloseFault K.enc V.enc J.limits (length callers.old) e) }
        ensures back { AreBack callers.old callers.new }
    {
        match self.words.gather(alloc, callers) {
            Ok(mark) => Ok(mark),
            Err(GatherFault::Missing(mark)) => Err(CloseFault::PassMissing(mark)),
            Err(GatherFault::Memory) => Err(CloseFault::Memory),
        }
    }

    // All pairs in any order. `callers` has to be all callers of the table.
    fn close_callers<R: Wait>(
        &self,
        rt: &R,
        alloc: Global,
        callers: &mut [Caller<K, V, J>],
    ) -> Result<Vec<(K, V)>, CloseFault<K, V, J>>
        ensures closed { IfOk result (λ v. ClosesSorted K.enc V.enc J.limits callers.old v.items) }
        ensures fault { IfErr result (λ e. IsCloseFault K.enc V.enc J.limits (length callers.old) e) }
        ensures back { AreBack callers.old callers.new }
    {
        buckets_make_map::<K, V>();
        same_history::<K, V>();
        let first = match self.gather(alloc, callers) {
            Ok(mark) => mark,
            Err(fault) => return Err(fault),
        };
        if callers.len() == 0 {
            return Ok(Vec::new(alloc));
        }
        let buckets = self.words.buckets();
        let pairs = match self.gather_by_first(rt, alloc, callers, &first, 0, buckets) {
            Ok(pairs) => pairs,
            Err(refusal) => return Err(unread(refusal)),
        };
        match self.gather(alloc, callers) {
            Ok(_) => Ok(pairs),
            Err(fault) => Err(fault),
        }
    }

    /// Ends the table, and returns all pairs in key order. `callers` has to be all callers of the table.
    ///
    /// Errors, with which the table and the callers are returned:
    ///
    /// - `PassMissing` if a pass was drawn whose caller is not handed in. It is returned before any bucket is
    ///   read.
    /// - `Memory` if an allocation fails
    /// - `Device` if the device fails
    /// - `Damaged` if what the device returns is no object of its bucket and name (version number)
    /// - `Missed` if a frame or a lane does not return the version that a word names
    ///
    /// Of several buckets' faults the first one in the order of the buckets is returned.
    pub fn close<R: Wait>(
        self,
        rt: &R,
        alloc: Global,
        mut callers: Vec<Caller<K, V, J>>,
    ) -> Result<
        Vec<(K, V)>,
        (
            CloseFault<K, V, J>,
            FarTable<K, V, J, D>,
            Vec<Caller<K, V, J>>,
        ),
    >
        ensures closed { IfOk result (λ v. IsClosed K.enc V.enc J.limits callers.items v.items) }
        ensures fault { IfErr result (λ e. IsCloseFault K.enc V.enc J.limits (vec_len callers) e.0) }
        ensures table { IfErr result (λ e. e.1 ≡ self) }
        ensures back { IfErr result (λ e. AreBack callers.items e.2.items) }
    {
        match self.close_callers(rt, alloc, &mut callers) {
            Ok(pairs) => Ok(sorted(pairs)),
            Err(fault) => Err((fault, self, callers)),
        }
    }
}

impl<K, V, J, D> FarTable<K, V, J, D>
where
    K: FarObject + Send + Sync,
    V: FarObject + Send + Sync,
    J: Naming + Send + Sync,
    D: Device + Send,
{
    // The same, read by several threads at once.
    fn close_callers_on_threads<R: Threads + Wait + Sync>(
        &self,
        rt: &R,
        alloc: Global,
        callers: &mut [Caller<K, V, J>],
    ) -> Result<Vec<Bundle<K, V>>, CloseFault<K, V, J>>
        ensures closed { IfOk result (λ v. ClosesSorted K.enc V.enc J.limits callers.old (all_of v.items)) }
        ensures fault { IfErr result (λ e. IsCloseFault K.enc V.enc J.limits (length callers.old) e) }
        ensures back { AreBack callers.old callers.new }
    {
        buckets_make_map::<K, V>();
        same_history::<K, V>();
        let first = match self.gather(alloc, callers) {
            Ok(mark) => mark,
            Err(fault) => return Err(fault),
        };
        if callers.len() == 0 {
            return Ok(Vec::new(alloc));
        }
        let buckets = self.words.buckets();
        let bundles = match self.read_parts(rt, alloc, callers, &first, 0, buckets) {
            Ok(bundles) => bundles,
            Err(refusal) => return Err(unread(refusal)),
        };
        match self.gather(alloc, callers) {
            Ok(_) => Ok(bundles),
            Err(fault) => Err(fault),
        }
    }

    /// As `close`, for a large table: it reads with several threads, and returns the pairs as they are
    /// written.
    ///
    /// If there are more than 16,384 buckets, the callers share them, each on a thread. At most four threads
    /// read up to 65,536 buckets, and at most as many as callers read more. If a thread can't be started, the
    /// one that should start it reads its part.
    ///
    /// No order of the pairs is promised: `far_pairs::in_key_order` lends them in key order. The table is
    /// dropped in this call, each object by itself, which takes a while. Its faults are those of `close`.
    pub fn close_on_threads<R: Threads + Wait + Sync>(
        self,
        rt: &R,
        alloc: Global,
        mut callers: Vec<Caller<K, V, J>>,
    ) -> Result<
        Vec<Bundle<K, V>>,
        (
            CloseFault<K, V, J>,
            FarTable<K, V, J, D>,
            Vec<Caller<K, V, J>>,
        ),
    >
        ensures closed { IfOk result (λ v. ClosesSorted K.enc V.enc J.limits callers.items (all_of v.items)) }
        ensures fault { IfErr result (λ e. IsCloseFault K.enc V.enc J.limits (vec_len callers) e.0) }
        ensures table { IfErr result (λ e. e.1 ≡ self) }
        ensures back { IfErr result (λ e. AreBack callers.items e.2.items) }
    {
        match self.close_callers_on_threads(rt, alloc, &mut callers) {
            Ok(bundles) => Ok(bundles),
            Err(fault) => Err((fault, self, callers)),
        }
    }
}
