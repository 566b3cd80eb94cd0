//! One device, with a receipt for each object that it keeps.
//!
//! # A receipt stands only for a stored object
//!
//! What a device has under a number says nothing of whose it is, and after a failed write it may be anything. So a lane
//! remembers for which bucket each name was drawn whose object it stored: as a label that the device keeps beside the object
//! or, where the device keeps none, in a map of its own. Whatever fails on the way of a write, no bucket is left for what may
//! not be there. The logs of the names are beginnings of one, so one mark stands for all of them.
ghost use Rattle.std.specs.Prelude.{◌≡◌, false, None, IfOk, OnOk, OnErr};
ghost use Rattle.std.specs.FinMap.{insert};
ghost use mathlib.Core.List.{IsPrefix};
ghost use Rattle.far_object.specs.Formats.{spelling};
ghost use Rattle.far_object.specs.Objects.{IsMap};
ghost use Rattle.far_device.specs.DeviceState.{SameExceptAt};
ghost use Rattle.far_device.specs.Calls.{ReadsLabelled, AreNone, AreSame, Relabels};
ghost use Rattle.table_core.specs.BucketWords.{name_of, place_of, far_place};
ghost use Rattle.table_core.specs.Logs.{contents};
ghost use Rattle.table_core.specs.Lawful.{IsLawful};
ghost use Rattle.version_words.specs.Views.{IsName};
ghost use Rattle.lane_store.specs.Lanes.{IsOpened, Writes, Reads, Removes, AreStored, ChangedAt, bucket_at, log_of, failures_after, label_kept};

use crate::fault::LaneFault;
use crate::receipt::Receipt;
use far_device::{Device, DeviceFault};
use far_object::{FarObject, Format, Object};
use std::alloc::{AllocError, Global};
use std::collections::HashMap;
use std::marker::Model;
use table_core::word::name_of;
use version_words::{Mark, Name, Naming, Spare};

/// A device with the receipts of its objects. Its type says of which row of words the names are. Contracts see the device,
/// and for each number whose receipt stands the bucket that its name was drawn for.
#[derive(Drop)]
pub struct Lane<K: FarObject, V: FarObject, J: Naming, D: Device> {
    device: D,
    // The bucket of each name whose object stands without a label.
    buckets: HashMap<u64, u32>,
    // Whether the device kept a label once. Before, it has none.
    labelled: bool,
    // A log in which each name was drawn whose receipt stands. None before the first write.
    seen: Option<Mark<K, V, J>>,
    // Where an object is spelled out with its header.
    spelled: Vec<u8>,
}

impl<K: FarObject, V: FarObject, J: Naming, D: Device> Model for Lane<K, V, J, D> {
    ghost use Rattle.std.specs.Prelude.{◌≡◌, false};
    ghost use Rattle.far_device.specs.Calls.{AreNone};
    ghost use Rattle.lane_store.specs.Lanes.{LaneView, AreStored, bucket_of, log_of};

    ghost Value = { LaneView K V D };

    ghost view = { λ l. record { device = l.device; buckets = l.buckets.entries; log = log_of l.seen } };

    ghost invariant = { λ l. AreStored K.enc V.enc K.admits V.admits J.limits (D.state l.device).contents (bucket_of (D.labels l.device) l.buckets.entries) (log_of l.seen)
        × (l.labelled ≡ false → AreNone (D.labels l.device)) };
}

// Afterwards the log has what the name's has.
fn learn<K: FarObject, V: FarObject, J: Naming>(
    seen: &mut Option<Mark<K, V, J>>,
    name: &Name<K, V, J>,
)
    ensures told { IsPrefix name.now.front (log_of seen.new) }
    ensures grows { IsPrefix (log_of seen.old) (log_of seen.new) }
    ensures lawful { IsLawful K.enc V.enc J.limits (log_of seen.new) }
    ensures named { IsName K.enc V.enc J.limits name.now }
{
    match seen {
        Some(mark) => mark.learn(&name.mark()),
        None => *seen = Some(name.mark()),
    }
}

// Forgets the bucket of the number. Where the device keeps no labels, there is room for one more then.
fn make_room(buckets: &mut HashMap<u64, u32>, number: u64, labelled: bool) -> Result<(), AllocError>
    ensures forgotten { ChangedAt buckets.old.entries buckets.new.entries number None }
    ensures refused { OnErr result (labelled ≡ false) }
{
    buckets.remove(&number);
    if labelled {
        return Ok(());
    }
    buckets.reserve(1)
}

// Writes the object to the device under the name, spelled out in `room` where it has a header, with the bucket as its label.
// Answers whether the device keeps the label.
fn write_to<K: FarObject, V: FarObject, J: Naming, D: Device>(
    device: &mut D,
    room: &mut Vec<u8>,
    name: &Name<K, V, J>,
    object: &Object<K, V>,
    format: Format,
) -> Result<bool, LaneFault>
    ensures stored { OnOk result ((D.state device.new).contents ≡ insert (D.state device.old).contents name.now.number (spelling K.enc V.enc format name.now.bucket name.now.number object.now)) }
    ensures map { IsMap K.enc K.admits V.admits object.now }
    ensures others { OnErr result (SameExceptAt (D.state device.old).contents (D.state device.new).contents name.now.number) }
    ensures counted { (D.state device.new).failures ≡ failures_after result (D.state device.old).failures }
    ensures labelled { Relabels (D.labels device.old) (D.labels device.new) name.now.number (label_kept result name.now.bucket) }
{
    let (number, bucket) = (name.number(), name.bucket());
    let bytes = object.as_bytes();
    let is_kept = match format {
        Format::One => device.write_labelled(number, bucket, bytes)?,
        Format::Two => {
            room.clear();
            if object.write_at(format, bucket, number, room).is_err() {
                // An older object of the name would keep its label.
                device.remove(number)?;
                return Err(LaneFault::Memory);
            }
            device.write_labelled(number, bucket, room)?
        }
    };
    Ok(is_kept)
}

// Reads an object that has a label, which is answered. A device that never kept one is not asked.
fn read_label<D: Device>(
    device: &mut D,
    labelled: bool,
    name: u64,
    out: &mut Vec<u8>,
) -> Result<Option<u32>, DeviceFault>
    requires none { labelled ≡ false → AreNone (D.labels device.old) }
    ensures reads { ReadsLabelled D.HONEST (D.state device.old) (D.state device.new) (D.labels device.old name) name out.old.items out.new.items result }
    ensures same_labels { AreSame (D.labels device.old) (D.labels device.new) }
{
    if labelled {
        device.read_labelled(name, out)
    } else {
        Ok(None)
    }
}

impl<K: FarObject, V: FarObject, J: Naming, D: Device> Lane<K, V, J, D> {
    /// The lane of a device, which is made empty.
    ///
    /// `Memory` comes where a growth is refused in the device, `Device` where it fails; no clause says so, since the device
    /// is dropped then.
    pub fn open(alloc: Global, mut device: D) -> Result<Lane<K, V, J, D>, LaneFault>
        ensures { IfOk result (λ lane. IsOpened D.state D.labels device lane) }
    {
        device.construct()?;
        Ok(Lane {
            device,
            buckets: HashMap::new(alloc),
            labelled: false,
            seen: None,
            spelled: Vec::new(alloc),
        })
    }

    /// Keeps the object under the name, in this format. After a fault no receipt stands for the name.
    ///
    /// `Memory` comes where a growth is refused in the lane, which is before a device that keeps no labels is written to, or
    /// in the device; `Device` where the device fails.
    pub fn write(
        &mut self,
        name: &Name<K, V, J>,
        object: &Object<K, V>,
        format: Format,
    ) -> Result<(), LaneFault>
        requires object { contents name.now.front name.now.number ≡ object.now }
        ensures writes { Writes D.state D.labels K.enc V.enc self.old self.new name.now format result }
        ensures stored { AreStored K.enc V.enc K.admits V.admits J.limits (D.state self.new.device).contents (bucket_at D.labels self.new) self.new.log }
    {
        let number = name.number();
        make_room(&mut self.buckets, number, self.labelled)?;
        learn(&mut self.seen, name);
        if write_to(&mut self.device, &mut self.spelled, name, object, format)? {
            self.labelled = true;
        } else {
            self.buckets.insert(number, name.bucket())?;
        }
        Ok(())
    }

    /// Appends the object of the name to `out`, in the format in which it was written. None where no receipt stands for
    /// the name; then, and after a fault, `out` is as before.
    ///
    /// `Memory` comes where a growth of `out` or of the device is refused, `Device` where the device fails.
    pub fn read(
        &mut self,
        name: u64,
        out: &mut Vec<u8>,
    ) -> Result<Option<Receipt<K, V, J>>, LaneFault>
        ensures reads { Reads D.state D.labels K.enc V.enc K.admits V.admits D.HONEST self.old self.new name out.old.items out.new.items result }
        ensures stored { AreStored K.enc V.enc K.admits V.admits J.limits (D.state self.new.device).contents (bucket_at D.labels self.new) self.new.log }
    {
        let Some(seen) = &self.seen else {
            return Ok(None);
        };
        if let Some(bucket) = read_label(&mut self.device, self.labelled, name, out)? {
            return Ok(Some(Receipt::of(name, bucket, seen)));
        }
        let Some(bucket) = self.buckets.get(&name).copied() else {
            return Ok(None);
        };
        if self.device.read(name, out)? {
            return Ok(Some(Receipt::of(name, bucket, seen)));
        }
        Ok(None)
    }

    /// Removes the object of the spare's name, and answers whether the device had it. Whatever is answered, no receipt
    /// stands for the name afterwards.
    ///
    /// `Memory` comes where a growth of the device is refused, `Device` where it fails.
    pub fn remove(&mut self, spare: &Spare<K, V, J>) -> Result<bool, LaneFault>
        requires far { place_of spare.now.word ≡ far_place }
        ensures removes { Removes D.state D.labels self.old self.new (name_of spare.now.word) result }
        ensures stored { AreStored K.enc V.enc K.admits V.admits J.limits (D.state self.new.device).contents (bucket_at D.labels self.new) self.new.log }
    {
        let name = name_of(spare.word());
        self.forget(name)
    }

    // As `remove`, by whoever has the lane alone: its row of words is over, and no call looks for the name any more.
    pub(crate) fn forget(&mut self, name: u64) -> Result<bool, LaneFault>
        ensures removes { Removes D.state D.labels self.old self.new name result }
        ensures stored { AreStored K.enc V.enc K.admits V.admits J.limits (D.state self.new.device).contents (bucket_at D.labels self.new) self.new.log }
    {
        self.buckets.remove(&name);
        Ok(self.device.remove(name)?)
    }

    // The device, whose objects nobody asks for under a name of this row any more.
    pub(crate) fn into_device(self) -> D
        ensures { result ≡ self.device }
    {
        let Lane {
            device,
            buckets: _,
            labelled: _,
            seen: _,
            spelled: _,
        } = self;
        device
    }
}
