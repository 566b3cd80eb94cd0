//! What the table will make of a reading: the contents of a word's name.
ghost use Rattle.std.specs.Prelude.{◌≡◌, IsTrue, IsOkAnd, IfOk, IfSome};
ghost use Rattle.table_core.specs.Logs.{contents};

use super::user::User;
use crate::rows::{entered, one_pair};
use anyhow::{Result, bail};
use far_device::Device;
use far_object::{FarObject, Object, ObjectFault};
use lane_store::{LaneFault, LaneStore};
use std::alloc::Global;
use std::sync::Wait;
use version_words::{Naming, Pass, Words, contents_stay};

/// What the bytes of an object are read as.
type Through<K, V> = std::result::Result<Object<K, V>, (ObjectFault, Vec<u8>)>;

/// The object of a name, none where no receipt stands. On an honest device it is the name's contents at
/// the pass's front, and the bytes are never damaged.
fn read_through<K: FarObject, V: FarObject, J: Naming, D: Device, R: Wait>(
    rt: &R,
    alloc: Global,
    words: &Words<K, V, J>,
    pass: &mut Pass<K, V, J>,
    lanes: &LaneStore<K, V, J, D>,
    name: u64,
) -> std::result::Result<Option<Through<K, V>>, LaneFault>
    ensures contents { IsTrue D.HONEST → IfOk result (λ found. IfSome found (λ read. IsOkAnd read (λ object. contents pass.new.front name ≡ object))) }
{
    let mut bytes = Vec::new(alloc);
    let receipt = match lanes.read(rt, name, &mut bytes) {
        Ok(Some(receipt)) => receipt,
        Ok(None) => return Ok(None),
        Err(fault) => return Err(fault),
    };
    contents_stay::<K, V>();
    words.learn(pass, receipt.mark());
    Ok(Some(Object::read_at(bytes, receipt.bucket(), receipt.number())))
}

/// Replies the value that a pass reads which has seen nothing before.
pub fn read_by_another<J: Naming, D: Device, R: Wait>(
    rt: &R,
    user: &User<J, D>,
    name: u64,
    out: &mut String,
) -> Result<()> {
    let lanes = user.lanes.locked()?;
    let Some(mut pass) = entered(&user.words) else {
        bail!("no pass is left");
    };
    match read_through(rt, user.alloc, &user.words, &mut pass, lanes, name) {
        Err(fault) => write!(out, "{fault}")?,
        Ok(None) => out.push_str("none")?,
        Ok(Some(Ok(object))) => match object.as_bytes().last() {
            Some(value) if object.as_bytes() == one_pair(*value).as_slice() => {
                out.push(char::from(*value))?
            }
            _ => out.push_str("other bytes")?,
        },
        Ok(Some(Err(_damaged))) => out.push_str("damaged")?,
    }
    Ok(())
}
