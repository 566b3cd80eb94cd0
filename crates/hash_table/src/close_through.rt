//! The end of a table whose pairs don't fit into memory together: they are handed over bucket by bucket.
//! `close.rt` explains why one look at each bucket is enough.
ghost use Rattle.std.specs.Prelude.{◌≡◌, ◌<◌, ℕ, IsTrue, IfErr, OnOk, List, length, vec_len};
ghost use mathlib.Core.List.{IsPrefix};
ghost use Rattle.table_core.specs.declared.event.Event.{Event};
ghost use Rattle.table_core.specs.Maps.{at_bucket, map_of};
ghost use Rattle.table_core.specs.Logs.{history};
ghost use Rattle.version_words.specs.Views.{Goes};
ghost use Rattle.hash_table.specs.Closes.{ClosesInOrder, Hands, IsHandFault, AreBack, AreTold, AreInOrder, HistoryStays, pairs_from};

use crate::caller::Caller;
use crate::close::{CloseFault, unread};
use crate::table::FarTable;
use far_device::Device;
use far_object::FarObject;
use std::alloc::Global;
use std::fmt::{Debug, Display, Formatter};
use std::sync::Wait;
use std::{error, fmt};
use table_core::buckets_make_map;
use version_words::{Mark, Naming, same_history};

/// The error of a taker that takes no more pairs.
#[derive(Clone, Copy, Debug, PartialEq, Eq)]
pub struct Stopped;

/// Takes the pairs of a table that `FarTable::close_through` ends. An implementation chooses what its
/// contract states. For example, one that writes pairs out states in `takes` what was written.
pub trait TakesPairs<K: FarObject, V: FarObject> {
    ghost use Rattle.std.specs.Prelude.{List, [], ◌++◌, MatchResult, ⊤};

    /// Relates the taker before and after it took these pairs. Nothing is stated if it is left out, and then
    /// the two laws are `λ _. tt` and `λ _ _ _ _ _ _ _. tt`.
    ghost takes: { Self → List (K × V) → Self → Type 0 } = { λ _ _ _. ⊤ };

    /// Relates the taker before and after it stopped. Nothing is stated if it is left out.
    ghost stops: { Self → Self → Type 0 } = { λ _ _. ⊤ };

    /// Takes the pairs of one bucket, in key order. An empty bucket has none.
    ///
    /// It returns `Stopped` if it takes no more, for example if a disk is full. The taker itself has to keep
    /// the reason.
    fn take(&mut self, pairs: Vec<(K, V)>) -> Result<(), Stopped>
        ensures { MatchResult result (λ _. takes self.old pairs.items self.new) (λ _. stops self.old self.new) };

    ghost takes_none: { (x : Self) → takes x [] x };

    ghost takes_both: { (x y z : Self) (first last : List (K × V)) → takes x first y → takes y last z → takes x (first ++ last) z };
}

/// Why not all pairs were handed over.
#[derive(Drop)]
pub enum HandFault<K: FarObject, V: FarObject, J: Naming> {
    /// The table was not closed.
    Close(CloseFault<K, V, J>),
    /// The taker stopped.
    Stopped,
}

impl<K: FarObject, V: FarObject, J: Naming> HandFault<K, V, J> {
    fn text(&self) -> &'static str {
        match self {
            HandFault::Close(fault) => fault.text(),
            HandFault::Stopped => "stopped",
        }
    }
}

impl<K: FarObject, V: FarObject, J: Naming> Debug for HandFault<K, V, J> {
    fn fmt<W: fmt::Write>(&self, f: &mut Formatter<W>) -> fmt::Result {
        f.write_str(self.text())
    }
}

impl<K: FarObject, V: FarObject, J: Naming> Display for HandFault<K, V, J> {
    fn fmt<W: fmt::Write>(&self, f: &mut Formatter<W>) -> fmt::Result {
        f.write_str(self.text())
    }
}

impl<K: FarObject, V: FarObject, J: Naming> error::Error for HandFault<K, V, J> {}

impl<K: FarObject, V: FarObject, J: Naming, D: Device> FarTable<K, V, J, D> {
    // Hands over the pairs of a bucket, read by one try.
    fn hand_bucket<R: Wait, T: TakesPairs<K, V>>(
        &self,
        rt: &R,
        alloc: Global,
        caller: &mut Caller<K, V, J>,
        bucket: u32,
        taker: &mut T,
    ) -> Result<(), HandFault<K, V, J>>
        requires bucket { bucket < J.limits.buckets }
        ensures goes { Goes caller.old.pass caller.new.pass }
        ensures limbo { caller.new.limbo ≡ caller.old.limbo }
        ensures pairs { OnOk result (Hands T.takes (λ pairs. IsTrue J.limits.honest → pairs ≡ at_bucket K.enc J.limits.buckets bucket (map_of K.enc V.enc (history caller.new.pass.front)))
            taker.old taker.new) }
        ensures fault { IfErr result (λ e. (n : ℕ) → IsHandFault K.enc V.enc J.limits T.takes T.stops taker.old taker.new n e) }
    {
        let mut pairs = Vec::new(alloc);
        match self.gather_bucket(rt, alloc, caller, bucket, &mut pairs) {
            Ok(()) => {}
            Err(refusal) => return Err(HandFault::Close(unread(refusal))),
        }
        match taker.take(pairs) {
            Ok(()) => Ok(()),
            Err(Stopped) => Err(HandFault::Stopped),
        }
    }

    // Hands over the pairs of all buckets to the taker, by a caller that has seen the mark. In each later log
    // that has the mark's history, they are its map's.
    fn hand_buckets<R: Wait, T: TakesPairs<K, V>>(
        &self,
        rt: &R,
        alloc: Global,
        caller: &mut Caller<K, V, J>,
        mark: &Mark<K, V, J>,
        taker: &mut T,
    ) -> Result<(), HandFault<K, V, J>>
        requires told { IsPrefix mark.now caller.old.pass.front }
        ensures goes { Goes caller.old.pass caller.new.pass }
        ensures limbo { caller.new.limbo ≡ caller.old.limbo }
        ensures pairs { OnOk result (Hands T.takes (λ pairs. IsTrue J.limits.honest → (log : List (Event K V)) → IsPrefix caller.new.pass.front log → HistoryStays mark.now log
            → pairs ≡ pairs_from K.enc V.enc J.limits log 0 J.limits.buckets) taker.old taker.new) }
        ensures fault { IfErr result (λ e. (n : ℕ) → IsHandFault K.enc V.enc J.limits T.takes T.stops taker.old taker.new n e) }
    {
        let buckets = self.words.buckets();
        for bucket in 0..buckets {
            match self.hand_bucket(rt, alloc, caller, bucket, taker) {
                Ok(()) => {}
                Err(fault) => return Err(fault),
            }
        }
        Ok(())
    }

    // The same, read by the first of the callers.
    fn hand_by_first<R: Wait, T: TakesPairs<K, V>>(
        &self,
        rt: &R,
        alloc: Global,
        callers: &mut [Caller<K, V, J>],
        mark: &Mark<K, V, J>,
        taker: &mut T,
    ) -> Result<(), HandFault<K, V, J>>
        requires some { 0 < length callers.old }
        requires told { AreTold mark.now callers.old }
        ensures back { AreBack callers.old callers.new }
        ensures pairs { OnOk result (Hands T.takes (λ pairs. AreInOrder K.enc V.enc J.limits mark.now callers.new pairs) taker.old taker.new) }
        ensures fault { IfErr result (λ e. (n : ℕ) → IsHandFault K.enc V.enc J.limits T.takes T.stops taker.old taker.new n e) }
    {
        match self.hand_buckets(rt, alloc, &mut callers[0], mark, taker) {
            Ok(()) => Ok(()),
            Err(fault) => Err(fault),
        }
    }

    // Hands over all pairs. `callers` has to be all callers of the table.
    fn close_callers_through<R: Wait, T: TakesPairs<K, V>>(
        &self,
        rt: &R,
        alloc: Global,
        callers: &mut [Caller<K, V, J>],
        taker: &mut T,
    ) -> Result<(), HandFault<K, V, J>>
        ensures closed { OnOk result (Hands T.takes (λ pairs. ClosesInOrder K.enc V.enc J.limits callers.old pairs) taker.old taker.new) }
        ensures fault { IfErr result (λ e. IsHandFault K.enc V.enc J.limits T.takes T.stops taker.old taker.new (length callers.old) e) }
        ensures back { AreBack callers.old callers.new }
    {
        buckets_make_map::<K, V>();
        same_history::<K, V>();
        let first = match self.gather(alloc, callers) {
            Ok(mark) => mark,
            Err(fault) => return Err(HandFault::Close(fault)),
        };
        if callers.len() == 0 {
            return Ok(());
        }
        let _buckets = self.words.buckets();
        match self.hand_by_first(rt, alloc, callers, &first, taker) {
            Ok(()) => {}
            Err(fault) => return Err(fault),
        }
        match self.gather(alloc, callers) {
            Ok(_) => Ok(()),
            Err(fault) => Err(HandFault::Close(fault)),
        }
    }

    /// As `close`, for a table whose pairs don't fit into memory together. It hands the taker the pairs of
    /// each bucket once, in the order of the buckets' numbers. At most one bucket's pairs are in memory
    /// twice: in its object, and as they are handed over.
    ///
    /// Errors, with which the table and the callers are returned:
    ///
    /// - `Close` with a fault of `close`
    /// - `Stopped` if the taker stopped. No further bucket is read then.
    ///
    /// The taker keeps what it took until then, and a further `close_through` hands it over again.
    pub fn close_through<R: Wait, T: TakesPairs<K, V>>(
        self,
        rt: &R,
        alloc: Global,
        mut callers: Vec<Caller<K, V, J>>,
        taker: &mut T,
    ) -> Result<
        (),
        (
            HandFault<K, V, J>,
            FarTable<K, V, J, D>,
            Vec<Caller<K, V, J>>,
        ),
    >
        ensures closed { OnOk result (Hands T.takes (λ pairs. ClosesInOrder K.enc V.enc J.limits callers.items pairs) taker.old taker.new) }
        ensures fault { IfErr result (λ e. IsHandFault K.enc V.enc J.limits T.takes T.stops taker.old taker.new (vec_len callers) e.0) }
        ensures table { IfErr result (λ e. e.1 ≡ self) }
        ensures back { IfErr result (λ e. AreBack callers.items e.2.items) }
    {
        match self.close_callers_through(rt, alloc, &mut callers, taker) {
            Ok(()) => Ok(()),
            Err(fault) => Err((fault, self, callers)),
        }
    }
}
