//! A device over two named pipes.
ghost use Rattle.std.specs.Prelude.{◌≡◌, IfOk};
ghost use Rattle.std.specs.FinMap.{empty};
ghost use Rattle.resp_device.specs.Devices.{state_in};

use crate::{Pipes, RespDevice, StoreOpenFault};
use std::fs::{File, OpenOptions};
use std::hash::RandomState;
use std::random::RandomSource;
use std::rt::Files;

impl Pipes<File, File> {
    /// Opens two named pipes: replies come from `input`, and requests go to `output`. Each waits until
    /// its other end is opened too, `output` first.
    pub fn open<R: Files<File = File>>(
        rt: &R,
        input: &str,
        output: &str,
    ) -> Result<Self, StoreOpenFault> {
        let mut options = OpenOptions::new();
        options.write(true);
        let output = match options.open(rt, output) {
            Ok(file) => file,
            Err(error) => return Err(StoreOpenFault::Io(error.kind())),
        };
        match File::open(rt, input) {
            Ok(input) => Ok(Pipes::new(input, output)),
            Err(error) => Err(StoreOpenFault::Io(error.kind())),
        }
    }
}

impl RespDevice<Pipes<File, File>> {
    /// An empty device over two named pipes, as `Pipes::open` opens them. Draws its prefix and the keys
    /// of its digests.
    pub fn open<R>(rt: &R, input: &str, output: &str, lane: u8) -> Result<Self, StoreOpenFault>
    where
        R: Files<File = File> + AllocGlobal + RandomSource,
        ensures { IfOk result (λ device.
            state_in device ≡ record { contents = empty; failures = 0 }) }
    {
        let keys = match RandomState::new(rt) {
            Ok(keys) => keys,
            Err(error) => return Err(StoreOpenFault::Io(error.kind())),
        };
        let mut prefix = [0; 16];
        if let Err(error) = rt.fill_bytes(&mut prefix) {
            return Err(StoreOpenFault::Io(error.kind()));
        }
        let pipes = Pipes::open(rt, input, output)?;
        Ok(RespDevice::new(rt.alloc(), pipes, prefix, lane, keys)?)
    }
}
