//! Opening a table, and entering it.
//!
//! A table is opened in two steps. A type `J: Naming` stands for the table in types and proofs. What it has
//! to stand for is known only when the row of bucket words is there. So `Opening::open` makes the row, and
//! `Opening::named` makes the table for a `J` that fits. `CALLING.md` has an example.
ghost use Rattle.std.specs.Prelude.{◌≡◌, [], None, IfOk, IfErr, vec_len};
ghost use Rattle.table_core.specs.declared.event.Event.TheVariants.{Enter};
ghost use Rattle.table_core.specs.Lawful.{IsLawful};
ghost use Rattle.version_words.specs.Rows.{limits_of};
ghost use Rattle.version_words.specs.Views.{EndsWith, calls};
ghost use Rattle.version_words.specs.Faults.{IsEnterFault};
ghost use Rattle.hash_table.specs.Configs.{first_bad_with, first_bad_wide_with, sizes_of, IsSettled};
ghost use Rattle.hash_table.specs.declared.refusal.OpenFault.{OpenFault};
ghost use Rattle.hash_table.specs.Openings.{IsOpenFault, IsNamedFault, WasOpened, format_of};

use crate::caller::Caller;
use crate::config::Config;
use crate::limbo::Limbo;
use crate::refusal::OpenFault;
use crate::table::FarTable;
use far_device::Device;
use far_object::{Buffers, FarObject, Format};
use frame_cache::Frames;
use lane_store::{LaneFault, LaneStore};
use std::alloc::Global;
use std::marker::{Model, PhantomData};
use version_words::{EnterFault, Honesty, Naming, Opened, Sizes};

/// States in proofs that contents are vouched for exactly if the device's type is honest, that is, if it
/// states that a read returns what was written.
pub struct Vouched<D> {
    of: PhantomData<D>,
}

impl<D: Device> Honesty for Vouched<D> {
    ghost honest = { D.HONEST };
}

/// The first step of a table: checked settings, a row of bucket words, and the devices.
///
/// `named` makes the table. Contracts see the settings, and what proofs call the row.
#[derive(Drop)]
pub struct Opening<K: FarObject, V: FarObject, D: Device> {
    config: Config,
    row: Opened<K, V, Vouched<D>>,
    devices: Vec<D>,
    ghost settled: { IsSettled (vec_len devices) config },
    ghost sizes: { row.sizes ≡ sizes_of config },
}

impl<K: FarObject, V: FarObject, D: Device> Model for Opening<K, V, D> {
    ghost use Rattle.hash_table.specs.Openings.{OpeningView};

    ghost Value = { OpeningView };

    ghost view = { λ o. record { row = o.row; config = o.config } };
}

impl<K: FarObject, V: FarObject, D: Device> Opening<K, V, D> {
    /// Checks the settings and makes the bucket words, which are all 0. `devices` has to have `config.lanes`
    /// elements.
    ///
    /// Errors, after which the devices are dropped:
    ///
    /// - `BadConfig` if a setting is outside its limits, with the number of the first one. `lanes`, field 6,
    ///   is also bad if it is not the number of devices.
    /// - `Memory` if an allocation fails
    pub fn open(
        alloc: Global,
        config: Config,
        devices: Vec<D>,
    ) -> Result<Opening<K, V, D>, OpenFault>
        ensures config { IfOk result (λ o. o.config ≡ config) }
        ensures within { IfOk result (λ _. first_bad_with (vec_len devices) config ≡ None) }
        ensures fault { IfErr result (λ e. IsOpenFault (first_bad_with (vec_len devices) config) e) }
    {
        match config.first_bad_with(devices.len()) {
            None => Opening::over(alloc, config, devices),
            Some(field) => Err(OpenFault::BadConfig(field)),
        }
    }

    /// As `open`, for a wide table: up to 2^22 buckets and frames, and objects of up to 2^24 bytes.
    ///
    /// Each bucket takes 8 bytes and each frame 64, whether they hold anything or not. All memory that grows
    /// with their numbers is allocated here and in `named`.
    ///
    /// An object has at most 1,048,576 pairs, which only the limit of a wide table has room for. A put into a
    /// bucket with that many pairs is refused with `Refusal::Memory`, even if it would only replace a value.
    pub fn open_wide(
        alloc: Global,
        config: Config,
        devices: Vec<D>,
    ) -> Result<Opening<K, V, D>, OpenFault>
        ensures config { IfOk result (λ o. o.config ≡ config) }
        ensures within { IfOk result (λ _. first_bad_wide_with (vec_len devices) config ≡ None) }
        ensures fault { IfErr result (λ e. IsOpenFault (first_bad_wide_with (vec_len devices) config) e) }
    {
        match config.first_bad_wide_with(devices.len()) {
            None => Opening::over(alloc, config, devices),
            Some(field) => Err(OpenFault::BadConfig(field)),
        }
    }

    fn over(alloc: Global, config: Config, devices: Vec<D>) -> Result<Opening<K, V, D>, OpenFault>
        requires settled { IsSettled (vec_len devices) config }
        ensures config { IfOk result (λ o. o.config ≡ config) }
        ensures fault { IfErr result (λ e. e ≡ OpenFault.Memory) }
    {
        let sizes = Sizes {
            buckets: config.buckets,
            names: config.names,
            passes: config.passes,
        };
        match Opened::open(alloc, sizes) {
            Ok(row) => Ok(Opening {
                config,
                row,
                devices,
            }),
            Err(_) => Err(OpenFault::Memory),
        }
    }

    /// The second step: makes the frames, empties the devices and returns the table. No bucket has a pair,
    /// and all frames are free.
    ///
    /// `J` is the type that stands for this table in proofs. Pick it so that the three `requires` hold.
    ///
    /// Errors, after which everything is dropped:
    ///
    /// - `Memory` if an allocation fails
    /// - `Device` if a device fails
    pub fn named<J: Naming>(self, alloc: Global) -> Result<FarTable<K, V, J, D>, OpenFault>
        requires book { self.row.book ≡ J.book }
        requires boards { self.row.names ≡ J.names }
        requires limits { limits_of (sizes_of self.config) D.HONEST ≡ J.limits }
        ensures limit { IfOk result (λ t. t.limit ≡ self.config.limit) }
        ensures frames { IfOk result (λ t. t.frames ≡ self.config.frames) }
        ensures lanes { IfOk result (λ t. t.lanes ≡ self.config.lanes) }
        ensures format { IfOk result (λ t. t.format ≡ format_of self.config.format) }
        ensures opened { IfOk result (λ _. WasOpened self.config) }
        ensures fault { IfErr result (λ e. IsNamedFault e) }
    {
        let Opening {
            config,
            row,
            devices,
        } = self;
        let frames = match Frames::open(alloc, config.frames) {
            Ok(frames) => frames,
            Err(_) => return Err(OpenFault::Memory),
        };
        let lanes = match LaneStore::open(alloc, devices) {
            Ok(lanes) => lanes,
            Err(LaneFault::Memory) => return Err(OpenFault::Memory),
            Err(LaneFault::Device) => return Err(OpenFault::Device),
        };
        let format = if config.format == 1 {
            Format::One
        } else {
            Format::Two
        };
        Ok(FarTable {
            words: row.named::<J>(),
            frames,
            lanes,
            limit: config.limit,
            format,
        })
    }
}

impl<K: FarObject, V: FarObject, J: Naming, D: Device> FarTable<K, V, J, D> {
    /// Returns a caller that has made no call, with a new pass (an identity) and an empty limbo (no retired
    /// words). It allocates nothing.
    ///
    /// Errors, each with a mark of the log that shows it:
    ///
    /// - `PassesSpent` if the last pass was drawn
    /// - `Moved` if another thread drew a pass meanwhile. Another try may draw the next one.
    pub fn enter(&self) -> Result<Caller<K, V, J>, EnterFault<K, V, J>>
        ensures lawful { IfOk result (λ c. IsLawful K.enc V.enc J.limits c.pass.front) }
        ensures entered { IfOk result (λ c. EndsWith [] (Enter c.pass.number) c.pass.front) }
        ensures no_calls { IfOk result (λ c. calls c.pass ≡ []) }
        ensures limbo { IfOk result (λ c. c.limbo ≡ []) }
        ensures fault { IfErr result (λ e. IsEnterFault K.enc V.enc J.limits e) }
    {
        match self.words.enter() {
            Ok(pass) => Ok(Caller {
                pass,
                limbo: Limbo::new(),
                buffers: Buffers::new(),
            }),
            Err(fault) => Err(fault),
        }
    }
}
