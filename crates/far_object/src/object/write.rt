//! An object written out in either format.
ghost use Rattle.std.specs.Prelude.{◌≡◌, ◌++◌, OnOk, OnErr};
ghost use Rattle.far_object.specs.Formats.{spelling};

use crate::fault::Memory;
use crate::format::{Format, HEADER_LEN, header};
use crate::object::Object;
use crate::traits::FarObject;

impl<K: FarObject, V: FarObject> Object<K, V> {
    /// Appends the object in this format; the bucket and the name stand in the second alone.
    /// `Memory` comes where the growth is refused, and `out` is then as before.
    pub fn write_at(
        &self,
        format: Format,
        bucket: u32,
        name: u64,
        out: &mut Vec<u8>,
    ) -> Result<(), Memory>
        ensures ok { OnOk result (out.new.items ≡ out.old.items ++ spelling K.enc V.enc format bucket name self.now) }
        ensures err { OnErr result (out.new.items ≡ out.old.items) }
    {
        let object = self.as_bytes();
        match format {
            Format::One => out.extend_from_slice(object)?,
            Format::Two => {
                out.reserve(HEADER_LEN + object.len())?;
                out.extend_from_slice(&header(bucket, name))?;
                out.extend_from_slice(object)?;
            }
        }
        Ok(())
    }
}
