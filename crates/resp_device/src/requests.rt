//! Requests to the store, as they are spelled.
ghost use Rattle.std.specs.Prelude.{◌≡◌, ◌++◌, ◌≤◌, ◌<◌, ◌+◌, ◌%◌, ◌^◌, length, OnOk};
ghost use Rattle.hex.specs.Hex.{encode_lower};
ghost use Rattle.resp_device.specs.Wire.{key_of, set_request, get_request, delete_request};

use resp::{push_count, push_string};
use std::alloc::{AllocError, Global};

/// Appends two digits for each byte.
fn push_hex(out: &mut Vec<u8>, bytes: &[u8]) -> Result<(), AllocError>
    requires { length bytes.now ≤ 16 }
    ensures { OnOk result (out.new.items ≡ out.old.items ++ encode_lower bytes.now) }
{
    let mut room = [0u8; 32];
    let digits = &mut room[..2 * bytes.len()];
    if hex::encode_to_slice(bytes, digits).is_err() {
        return Err(AllocError);
    }
    out.extend_from_slice(digits)?;
    Ok(())
}

/// What requests are made of, and the request made last.
#[derive(Drop)]
pub(crate) struct Requests {
    pub(crate) prefix: u128,
    pub(crate) lane: u8,
    key: Vec<u8>,
    pub(crate) request: Vec<u8>,
}

impl Requests {
    pub(crate) fn new(alloc: Global, prefix: u128, lane: u8) -> Self
        ensures { (result.prefix ≡ prefix) × (result.lane ≡ lane) }
    {
        Requests {
            prefix,
            lane,
            key: Vec::new(alloc),
            request: Vec::new(alloc),
        }
    }

    /// Takes the next prefix; behind the last one comes 0.
    pub(crate) fn begin_anew(&mut self)
        ensures prefix { self.new.prefix ≡ (self.old.prefix + 1) % 2 ^ 128 }
        ensures lane { self.new.lane ≡ self.old.lane }
    {
        self.prefix = self.prefix.wrapping_add(1);
    }

    /// Makes the key of the id.
    fn make_key(&mut self, id: u64) -> Result<(), AllocError>
        ensures key { OnOk result (self.new.key.items ≡ key_of self.old.prefix self.old.lane id) }
        ensures same { (self.new.prefix ≡ self.old.prefix) × (self.new.lane ≡ self.old.lane) }
    {
        self.key.clear();
        push_hex(&mut self.key, &self.prefix.to_be_bytes())?;
        self.key.push(b':')?;
        push_hex(&mut self.key, &[self.lane])?;
        self.key.push(b':')?;
        push_hex(&mut self.key, &id.to_be_bytes())
    }

    pub(crate) fn set(&mut self, id: u64, bytes: &[u8]) -> Result<(), AllocError>
        ensures request { OnOk result (self.new.request.items
            ≡ set_request (key_of self.old.prefix self.old.lane id) bytes.now) }
        ensures same { (self.new.prefix ≡ self.old.prefix) × (self.new.lane ≡ self.old.lane) }
    {
        self.make_key(id)?;
        self.request.clear();
        push_count(&mut self.request, 3)?;
        push_string(&mut self.request, b"SET")?;
        push_string(&mut self.request, &self.key)?;
        push_string(&mut self.request, bytes)
    }

    pub(crate) fn get(&mut self, id: u64) -> Result<(), AllocError>
        ensures request { OnOk result (self.new.request.items
            ≡ get_request (key_of self.old.prefix self.old.lane id)) }
        ensures same { (self.new.prefix ≡ self.old.prefix) × (self.new.lane ≡ self.old.lane) }
    {
        self.make_key(id)?;
        self.request.clear();
        push_count(&mut self.request, 2)?;
        push_string(&mut self.request, b"GET")?;
        push_string(&mut self.request, &self.key)
    }

    pub(crate) fn delete(&mut self, id: u64) -> Result<(), AllocError>
        ensures request { OnOk result (self.new.request.items
            ≡ delete_request (key_of self.old.prefix self.old.lane id)) }
        ensures same { (self.new.prefix ≡ self.old.prefix) × (self.new.lane ≡ self.old.lane) }
    {
        self.make_key(id)?;
        self.request.clear();
        push_count(&mut self.request, 2)?;
        push_string(&mut self.request, b"DEL")?;
        push_string(&mut self.request, &self.key)
    }
}
