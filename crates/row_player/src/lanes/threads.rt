//! Lanes that two threads share.
ghost use Rattle.std.specs.Prelude.{◌≡◌, false};

use super::user::User;
use crate::holdings::draw;
use crate::rows::{entered, object, one_pair};
use anyhow::Result;
use far_device::Device;
use far_object::{Format, Object, Text};
use lane_store::{LaneFault, LaneStore};
use std::alloc::Global;
use std::sync::Wait;
use std::thread::{Threads, join};
use table_core::word::{FAR_PLACE, place_of};
use version_words::{Naming, Pass, Words};

/// What threads share: a row of words whose contents nobody vouches for, and lanes.
#[derive(Drop)]
struct Shared<'a, J: Naming, D: Device> {
    alloc: Global,
    words: &'a Words<Text, Text, J>,
    lanes: &'a LaneStore<Text, Text, J, D>,
    rounds: u32,
    ghost unvouched: { J.limits.honest ≡ false },
}

/// Whether these bytes are the object of one pair of this value, where they lie under the name and the bucket.
fn is_object(bytes: Vec<u8>, bucket: u32, name: u64, value: u8) -> bool {
    match Object::<Text, Text>::read_at(bytes, bucket, name) {
        Ok(object) => object.as_bytes() == one_pair(value).as_slice(),
        Err(_) => false,
    }
}

/// What a reading answers: the number and the bucket of the receipt.
type Told = std::result::Result<Option<(u64, u32)>, LaneFault>;

/// What a reading of the name gives and answers.
fn read<J: Naming, D: Device, R: Wait>(
    rt: &R,
    shared: &Shared<'_, J, D>,
    name: u64,
) -> (Vec<u8>, Told) {
    let mut bytes = Vec::new(shared.alloc);
    let told = match shared.lanes.read(rt, name, &mut bytes) {
        Ok(Some(receipt)) => Ok(Some((receipt.number(), receipt.bucket()))),
        Ok(None) => Ok(None),
        Err(fault) => Err(fault),
    };
    (bytes, told)
}

/// Whether an object of this value, once kept, is read by its name and then removed. The names of a thread fall into
/// either lane.
fn one_round<J: Naming, D: Device, R: Wait>(
    rt: &R,
    shared: &Shared<'_, J, D>,
    pass: &mut Pass<Text, Text, J>,
    bucket: u32,
    value: u8,
) -> Option<bool> {
    let object = object(shared.alloc, value)?;
    if bucket >= shared.words.buckets() {
        return None;
    }
    let drawn = draw(shared.words, pass, bucket, object).ok()?;
    let number = drawn.name.number();
    let format = if value % 2 == 0 {
        Format::One
    } else {
        Format::Two
    };
    let written = shared.lanes.write(rt, &drawn.name, &drawn.object, format);
    let (bytes, first) = read(rt, shared, number);
    let spare = drawn.give_up(FAR_PLACE);
    if place_of(spare.word()) != FAR_PLACE {
        return None;
    }
    let gone = shared.lanes.remove(rt, &spare);
    let (none, later) = read(rt, shared, number);
    Some(
        written == Ok(())
            && is_object(bytes, bucket, number, value)
            && first == Ok(Some((number, bucket)))
            && gone == Ok(true)
            && later == Ok(None)
            && none.is_empty(),
    )
}

/// How many rounds went as they should.
fn rounds<J: Naming, D: Device, R: Wait>(rt: &R, shared: &Shared<'_, J, D>, bucket: u32) -> u32 {
    let mut done = 0u32;
    if let Some(mut pass) = entered(shared.words) {
        for round in 0..shared.rounds {
            let value = (round % 256) as u8;
            if one_round(rt, shared, &mut pass, bucket, value) == Some(true) {
                done = done.wrapping_add(1);
            }
        }
    }
    done
}

/// Two threads write, read and remove objects, each so many. Replies how many each did.
pub fn share<J: Naming + Send + Sync, D: Device + Send, R: Threads + Wait + Sync>(
    rt: &R,
    user: &User<J, D>,
    rounds_each: u32,
    out: &mut String,
) -> Result<()> {
    let shared = Shared {
        alloc: user.alloc,
        words: &user.words,
        lanes: user.lanes.locked()?,
        rounds: rounds_each,
    };
    let (one, two) = join(rt, || rounds(rt, &shared, 0), || rounds(rt, &shared, 1));
    write!(out, "done {one} {two}")?;
    Ok(())
}
