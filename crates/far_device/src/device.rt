//! The trait of far devices: a finite map from ids to bytes, with a count of failures.
//!
//! # An example
//!
//! Say that you store objects in a service on another machine. Your device has a connection, a counter
//! of failures, and an index in memory. The index has each stored id, with the length and a digest of
//! its bytes.
//!
//! - `construct` empties the index. The service may delete its copies later.
//! - `write` sends the bytes and waits for the confirmation. Then it enters the id and returns
//!   `Ok(())`. If no confirmation arrives, nobody knows whether the service has the bytes. `write` then
//!   removes the id from the index, adds one to the counter and returns `Failed`.
//! - `read` returns `Ok(false)` for an id that is not in the index. Otherwise it fetches the bytes,
//!   compares length and digest, appends them to `out` and returns `Ok(true)`. If it can't fetch them,
//!   or they differ, it adds one to the counter and returns `Failed`. It never returns `Ok(false)`
//!   then, because the object was written and not removed.
//! - `remove` returns `Ok(false)` for an id that is not in the index. Otherwise it deletes the bytes at
//!   the service, removes the id and returns `Ok(true)`. If the service does not answer, it returns
//!   `Failed`. The id may stay in the index, so that a later call tries again.
//! - `failures` returns the counter.
//!
//! | Call | Returns | The device then has | `failures` |
//! |---|---|---|---|
//! | `construct()` | `Ok(())` | nothing | 0 |
//! | `write(7, b"ab")` | `Ok(())` | 7: `ab` | 0 |
//! | `write(9, b"cd")`, not confirmed | `Err(Failed)` | the same | 1 |
//! | `read(7, out)` | `Ok(true)`, `out` gained `ab` | the same | 1 |
//! | `read(8, out)` | `Ok(false)`, `out` as before | the same | 1 |
//! | `read(7, out)`, no answer | `Err(Failed)`, `out` as before | the same | 2 |
//! | `remove(7)` | `Ok(true)` | nothing | 2 |
//! | `remove(7)` | `Ok(false)` | the same | 2 |
//!
//! After the failed write this device does not have 9. The trait allows any bytes there too, old or
//! new.
//!
//! In contracts, `state` is the counter, and for each id of the index the bytes that were written. The
//! crate `file_device` keeps these bytes for contracts as a `Snapshot`, which takes no memory. No
//! contract can say what the service returns, so `HONEST` is false.
ghost use Rattle.std.specs.Prelude.{◌≡◌, ℕ, Bool, Option, None};
ghost use Rattle.far_device.specs.DeviceState.{DeviceState};
ghost use Rattle.far_device.specs.Calls.{Constructs, Writes, Reads, Removes};
ghost use Rattle.far_device.specs.Calls.{ReadsLabelled, Labels, AreNone, AreSame, Relabels, label_after};

use crate::DeviceFault;

/// A far device: it stores bytes under ids, outside the frames of the table that uses it.
///
/// The head of this module has an example in words.
///
/// # Who calls it
///
/// A lane of `lane_store` owns the device and holds a lock during each call. So calls never overlap,
/// and an implementation needs no lock. Different threads make them, so `far_map` takes only devices
/// that are `Send`. A call may block. Every other call to the same device waits meanwhile, and calls to
/// other devices go on.
///
/// `construct` is called first. It is called again when a renewal opens a new table over the same
/// device. An id may be any `u64`. A lane uses the version numbers of its objects, and a migration
/// counts from 0.
///
/// # Errors
///
/// Each call may return an error, except `failures`.
///
/// - `DeviceFault::Memory`: an allocation failed. It is not counted. Return it only in this case: no
///   clause can check that.
/// - `DeviceFault::Failed`: the device could not do what was asked. `failures` has risen by one.
///
/// Each call states what may have changed after an error. A read changes nothing. A write or a removal
/// may change its own id only. After an error of `construct` the device may have anything. A call of
/// the map that needs what failed is refused, and no pair changes.
///
/// # Labels
///
/// A label is a `u32` that is stored with the bytes of an id. A device may keep labels, so that its
/// user needs no map for them. A lane stores the bucket's number as the label. A device without labels
/// leaves `labels`, `write_labelled` and `read_labelled` as they are here. A device with labels
/// implements all three.
pub trait Device: Drop {
    /// What the device has now: the bytes of each id, and the count of failures.
    ghost state: { Self → DeviceState };

    /// Whether each successful read returns what was written last. It is a statement about the type,
    /// and only contracts read it.
    ///
    /// Contracts that say which answer a caller gets assume a type with `HONEST` true. If it is false,
    /// a read may append other bytes. All other duties are the same.
    ghost HONEST: { Bool };

    /// The label of each id that has one. Without labels: none.
    ghost labels: { Self → Labels } = { λ _ _. None };

    /// Makes the device empty. No id has bytes or a label then.
    ///
    /// After an error the device may have anything, but no labels. The count of failures is not reset.
    fn construct(&mut self) -> Result<(), DeviceFault>
        ensures constructs { Constructs (state self.old) (state self.new) result }
        ensures unlabelled { AreNone (labels self.new) };

    /// Stores these bytes under the id, in place of the bytes that it had. `bytes` may be empty.
    ///
    /// - `Ok(())`: the id has just these bytes. Return it only once a later `read` can return them.
    /// - `Memory` if an allocation fails. `Failed` if the bytes can't be stored, for example because
    ///   the disk is full or a connection is lost. A device may also refuse bytes that are too long for
    ///   it.
    ///
    /// After an error the id may have any bytes or none: the old ones, the new ones or others. In each
    /// case the id has no label afterwards, and all other ids are as before.
    fn write(&mut self, id: u64, bytes: &[u8]) -> Result<(), DeviceFault>
        ensures writes { Writes (state self.old) (state self.new) id bytes.now result }
        ensures unlabelled { Relabels (labels self.old) (labels self.new) id None };

    /// Appends the bytes of the id to `out`, and returns whether the device has the id.
    ///
    /// - `Ok(true)`: the device has the id, and its bytes follow what `out` had. With `HONEST` they are
    ///   the bytes that were written last.
    /// - `Ok(false)`: the device does not have the id. `out` is as before.
    /// - `Memory` if an allocation fails. `Failed` if the bytes can't be returned, for example because
    ///   they are lost or damaged. `out` is as before.
    ///
    /// An object that was written and is lost is `Failed`, never `Ok(false)`. The call changes neither
    /// contents nor labels.
    fn read(&mut self, id: u64, out: &mut Vec<u8>) -> Result<bool, DeviceFault>
        ensures reads { Reads HONEST (state self.old) (state self.new)
            id out.old.items out.new.items result }
        ensures same_labels { AreSame (labels self.old) (labels self.new) };

    /// Removes the id, and returns whether the device had it.
    ///
    /// - `Ok(true)`: the device had the id and has it no more. `Ok(false)`: it did not have the id.
    /// - `Memory` if an allocation fails. `Failed` if the bytes can't be removed.
    ///
    /// After an error the id may have any bytes or none, and the caller may try again. In each case the
    /// id has no label afterwards, and all other ids are as before.
    fn remove(&mut self, id: u64) -> Result<bool, DeviceFault>
        ensures removes { Removes (state self.old) (state self.new) id result }
        ensures unlabelled { Relabels (labels self.old) (labels self.new) id None };

    /// Stores bytes as `write` does, with a label, and returns whether the device keeps the label.
    ///
    /// - `Ok(true)`: the bytes are stored, and the id has this label.
    /// - `Ok(false)`: the bytes are stored, and the id has no label. The caller has to remember the
    ///   number itself.
    /// - Errors are those of `write`. The id has no label then.
    ///
    /// The labels of all other ids are as before. A device may keep some labels and not others. One
    /// that keeps none leaves this call as it is.
    fn write_labelled(&mut self, id: u64, label: u32, bytes: &[u8]) -> Result<bool, DeviceFault>
        ensures writes { Writes (state self.old) (state self.new) id bytes.now result }
        ensures labelled { Relabels (labels self.old) (labels self.new) id (label_after result label) }
    {
        let _ = label;
        self.write(id, bytes)?;
        Ok(false)
    }

    /// Reads as `read` does, if the id has a label, and returns the label.
    ///
    /// - `Ok(Some(label))`: the id has this label, and its bytes follow what `out` had.
    /// - `Ok(None)`: the id has no label. It may have bytes, but nothing is read, and `out` is as
    ///   before.
    /// - Errors are those of `read`. `out` is as before.
    ///
    /// The call changes neither contents nor labels. A lane makes it only after `write_labelled`
    /// returned `Ok(true)` once. A device without labels leaves it as it is here: it returns `Memory`,
    /// which is not counted.
    fn read_labelled(&mut self, id: u64, out: &mut Vec<u8>) -> Result<Option<u32>, DeviceFault>
        ensures reads { ReadsLabelled HONEST (state self.old) (state self.new) (labels self.old id)
            id out.old.items out.new.items result }
        ensures same_labels { AreSame (labels self.old) (labels self.new) }
    {
        let _ = (id, out.len());
        Err(DeviceFault::Memory)
    }

    /// How many calls have returned `Failed`. A count of 2^64 - 1 stays. Never fails.
    fn failures(&self) -> u64
        ensures { result ≡ (state self.now).failures };
}
