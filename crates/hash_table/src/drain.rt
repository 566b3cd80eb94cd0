//! The end of a table whose pairs go into another one. They are handed over bucket by bucket, and each
//! bucket's object is freed afterwards. `close.rt` explains why one look at each bucket is enough.
//!
//! # What can't be read is skipped
//!
//! A table that could not be closed is returned, and can be closed again. A table that is drained is gone in
//! any case, because what was handed over is no longer in it. So a bucket that can't be read is skipped and
//! counted, and the others are handed over.
//!
//! # Memory
//!
//! An object in a frame is dropped once its pairs are handed over, so that at most one object is in memory
//! twice. An object on a device is removed there once its pairs are stored elsewhere. Only an exclusive owner
//! of the table can do so.
ghost use Rattle.std.specs.Prelude.{◌≡◌, ◌<◌, IfOk, IfErr, OnOk, OnErr, length, vec_len};
ghost use mathlib.Core.List.{IsPrefix};
ghost use Rattle.table_core.specs.BucketWords.{name_of};
ghost use Rattle.table_core.specs.Maps.{at_bucket, map_of};
ghost use Rattle.table_core.specs.Logs.{contents, history};
ghost use Rattle.version_words.specs.Views.{Goes, WasSeen};
ghost use Rattle.hash_table.specs.Closes.{IsCloseFault, AreBack, AreTold, AllSeen};
ghost use Rattle.hash_table.specs.Drains.{Adds, AreDrained, Drains};

use crate::caller::Caller;
use crate::close::CloseFault;
use crate::stages::seen::{Place, split};
use crate::table::FarTable;
use far_device::Device;
use far_object::FarObject;
use migration::Migration;
use std::alloc::Global;
use std::sync::Wait;
use table_core::word::name_of;
use version_words::{Mark, Naming, Pass, empty_holds, same_history};

/// What is left of a table that was drained.
#[derive(Drop)]
pub struct Drained<D> {
    /// The devices of the lanes, in their order. They may still hold objects: a table that is opened over
    /// them makes them empty.
    pub devices: Vec<D>,
    /// How many buckets were skipped because they could not be read or added. A count of 2^64 - 1 stays.
    pub lost: u64,
    /// How many of the buckets that were handed over were on a device. No clause states it.
    pub far: u64,
}

// A bucket could not be read or added.
#[derive(Clone, Copy, Debug, PartialEq, Eq)]
struct PassedOver;

// How many buckets were skipped, and how many of the others were on a device.
#[derive(Clone, Copy, Debug, PartialEq, Eq)]
struct Counts {
    lost: u64,
    far: u64,
}

impl<K: FarObject, V: FarObject, J: Naming, D: Device> FarTable<K, V, J, D> {
    /// How many names (version numbers) may still be drawn, at a moment of the call. It is a hint: no clause
    /// says anything about it. Once there are none, each call that needs a name is refused with `NamesSpent`.
    pub fn names_left(&self) -> u64 {
        self.words.names_left()
    }

    // Hands over the pairs of a bucket from its frame, which is empty afterwards.
    fn drain_frame(
        &mut self,
        pass: &Pass<K, V, J>,
        bucket: u32,
        word: u64,
        frame: u32,
        rest: &mut Migration<K, V, D>,
    ) -> Result<(), PassedOver>
        requires seen { WasSeen K.enc J.limits.buckets pass.now.front bucket word }
        ensures lanes { self.new.lanes ≡ self.old.lanes }
        ensures added { OnOk result (Adds J.limits.honest (contents pass.now.front (name_of word)) rest.old rest.new) }
        ensures passed { OnErr result (rest.new ≡ rest.old) }
    {
        let Ok(scope) = self.enter_frame(pass, bucket, word, frame) else {
            return Err(PassedOver);
        };
        let added = rest.add_near(scope.object());
        scope.close();
        match added {
            Ok(()) => {
                self.frames.clear(frame);
                Ok(())
            }
            Err(_) => Err(PassedOver),
        }
    }

    // Hands over the pairs of a bucket from its device, and removes them there unless the device fails.
    fn drain_device<R: Wait>(
        &mut self,
        rt: &R,
        alloc: Global,
        pass: &Pass<K, V, J>,
        bucket: u32,
        word: u64,
        rest: &mut Migration<K, V, D>,
    ) -> Result<(), PassedOver>
        requires seen { WasSeen K.enc J.limits.buckets pass.now.front bucket word }
        ensures lanes { self.new.lanes ≡ self.old.lanes }
        ensures added { OnOk result (Adds J.limits.honest (contents pass.now.front (name_of word)) rest.old rest.new) }
        ensures passed { OnErr result (rest.new ≡ rest.old) }
    {
        let Ok(object) = self.read_device(rt, alloc, pass, bucket, word) else {
            return Err(PassedOver);
        };
        match rest.add_far(&object) {
            Ok(()) => {
                self.lanes.forget(name_of(word));
                Ok(())
            }
            Err(_) => Err(PassedOver),
        }
    }

    // Hands over the pairs of a bucket, read by one try, and returns where they were.
    fn drain_bucket<R: Wait>(
        &mut self,
        rt: &R,
        alloc: Global,
        caller: &mut Caller<K, V, J>,
        bucket: u32,
        rest: &mut Migration<K, V, D>,
    ) -> Result<Place, PassedOver>
        requires bucket { bucket < J.limits.buckets }
        ensures goes { Goes caller.old.pass caller.new.pass }
        ensures limbo { caller.new.limbo ≡ caller.old.limbo }
        ensures lanes { self.new.lanes ≡ self.old.lanes }
        ensures added { OnOk result (Adds J.limits.honest (at_bucket K.enc J.limits.buckets bucket (map_of K.enc V.enc (history caller.new.pass.front))) rest.old rest.new) }
        ensures passed { OnErr result (rest.new ≡ rest.old) }
    {
        let word = self.words.look(&mut caller.pass, bucket);
        match split(word) {
            Place::Nothing => {
                empty_holds::<K, V>();
                Ok(Place::Nothing)
            }
            Place::Frame(frame) => {
                match self.drain_frame(&caller.pass, bucket, word, frame, rest) {
                    Ok(()) => Ok(Place::Frame(frame)),
                    Err(PassedOver) => Err(PassedOver),
                }
            }
            Place::Device => match self.drain_device(rt, alloc, &caller.pass, bucket, word, rest) {
                Ok(()) => Ok(Place::Device),
                Err(PassedOver) => Err(PassedOver),
            },
        }
    }

    // Hands over the pairs of all buckets, by a caller that has seen the mark. In each later log that has the
    // mark's history, they are its map's.
    fn drain_buckets<R: Wait>(
        &mut self,
        rt: &R,
        alloc: Global,
        caller: &mut Caller<K, V, J>,
        mark: &Mark<K, V, J>,
        rest: &mut Migration<K, V, D>,
    ) -> Counts
        requires told { IsPrefix mark.now caller.old.pass.front }
        ensures goes { Goes caller.old.pass caller.new.pass }
        ensures limbo { caller.new.limbo ≡ caller.old.limbo }
        ensures lanes { self.new.lanes ≡ self.old.lanes }
        ensures drained { AreDrained K.enc V.enc J.limits mark.now (λ log. IsPrefix caller.new.pass.front log) J.limits.buckets rest.old rest.new result.lost }
    {
        let mut lost = 0u64;
        let mut far = 0u64;
        let buckets = self.words.buckets();
        for bucket in 0..buckets {
            match self.drain_bucket(rt, alloc, caller, bucket, rest) {
                Ok(Place::Device) => far = far.saturating_add(1),
                Ok(_) => {}
                Err(PassedOver) => lost = lost.saturating_add(1),
            }
        }
        Counts { lost, far }
    }

    // The same, read by the first of the callers.
    fn drain_by_first<R: Wait>(
        &mut self,
        rt: &R,
        alloc: Global,
        callers: &mut [Caller<K, V, J>],
        mark: &Mark<K, V, J>,
        rest: &mut Migration<K, V, D>,
    ) -> Counts
        requires some { 0 < length callers.old }
        requires told { AreTold mark.now callers.old }
        ensures back { AreBack callers.old callers.new }
        ensures lanes { self.new.lanes ≡ self.old.lanes }
        ensures drained { AreDrained K.enc V.enc J.limits mark.now (AllSeen callers.new) J.limits.buckets rest.old rest.new result.lost }
    {
        self.drain_buckets(rt, alloc, &mut callers[0], mark, rest)
    }

    // Hands over all pairs. `callers` has to be all callers of the table.
    fn drain_callers<R: Wait>(
        &mut self,
        rt: &R,
        alloc: Global,
        callers: &mut [Caller<K, V, J>],
        rest: &mut Migration<K, V, D>,
    ) -> Result<Counts, CloseFault<K, V, J>>
        ensures drained { IfOk result (λ c. Drains K.enc V.enc J.limits callers.old rest.old rest.new c.lost) }
        ensures lanes { self.new.lanes ≡ self.old.lanes }
        ensures fault { IfErr result (λ e. IsCloseFault K.enc V.enc J.limits (length callers.old) e) }
    {
        same_history::<K, V>();
        let first = match self.gather(alloc, callers) {
            Ok(mark) => mark,
            Err(fault) => return Err(fault),
        };
        if callers.len() == 0 {
            return Ok(Counts { lost: 0, far: 0 });
        }
        let _buckets = self.words.buckets();
        let counts = self.drain_by_first(rt, alloc, callers, &first, rest);
        match self.gather(alloc, callers) {
            Ok(_) => Ok(counts),
            Err(fault) => Err(fault),
        }
    }

    /// Ends the table, and hands over its pairs, those of each bucket once. `callers` has to be all callers
    /// of the table. An object in a frame is copied to memory. An object on a device is read, and goes to the
    /// device of `rest`, or to memory if that device fails.
    ///
    /// A bucket that can't be read or added is skipped and counted. That is, a device fails or returns no
    /// object of the bucket and name, a frame or a lane does not return the version, or an allocation fails.
    ///
    /// Errors, after which the table is gone too:
    ///
    /// - `PassMissing` if a pass was drawn whose caller is not handed in. It is returned before any bucket is
    ///   read.
    /// - `Memory` if an allocation fails before the first bucket is read, or after the last one
    pub fn drain<R: Wait>(
        mut self,
        rt: &R,
        alloc: Global,
        mut callers: Vec<Caller<K, V, J>>,
        rest: &mut Migration<K, V, D>,
    ) -> Result<Drained<D>, CloseFault<K, V, J>>
        ensures drained { IfOk result (λ d. Drains K.enc V.enc J.limits callers.items rest.old rest.new d.lost) }
        ensures devices { IfOk result (λ d. vec_len d.devices ≡ self.lanes) }
        ensures fault { IfErr result (λ e. IsCloseFault K.enc V.enc J.limits (vec_len callers) e) }
    {
        // The list for the devices is allocated while the table is whole, because they need it at the end.
        let Ok(devices) = Vec::with_capacity(alloc, self.lanes.count()) else {
            return Err(CloseFault::Memory);
        };
        let counts = match self.drain_callers(rt, alloc, &mut callers, rest) {
            Ok(counts) => counts,
            Err(fault) => return Err(fault),
        };
        let FarTable {
            words: _,
            frames: _,
            lanes,
            limit: _,
            format: _,
        } = self;
        match lanes.into_devices(devices) {
            Ok(devices) => Ok(Drained {
                devices,
                lost: counts.lost,
                far: counts.far,
            }),
            Err(_) => Err(CloseFault::Memory),
        }
    }
}
