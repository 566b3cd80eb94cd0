//! A small program on the map. `docs/CALLING.md` shows the calls of its worker.
use far_device::FakeDevice;
use far_map::{Calls, MapRefusal, Settings, Stats, Text, Work, run, text};
use std::alloc::Global;
use std::sync::Wait;

// What the workers share.
struct Planets;

impl Work<Text> for Planets {
    type Out = Result<Stats, MapRefusal>;

    fn work<S: Calls<Text>, R: Wait>(
        &self,
        rt: &R,
        alloc: Global,
        worker: u32,
        me: &mut S,
    ) -> Result<Stats, MapRefusal> {
        let (planet, moon) = (text(alloc, b"planet")?, text(alloc, b"moon")?);
        if worker == 0 {
            me.put(rt, &planet, &text(alloc, b"Saturn")?)?;
            me.put(rt, &moon, &text(alloc, b"Titan")?)?;
            me.remove(rt, &moon)?;
        } else {
            // Sets it only if it has no value.
            me.put_if(rt, &planet, None, &text(alloc, b"Venus")?)?;
        }
        // A copy of the value; and its length, which is read without a copy.
        let _copy = me.get(rt, &planet)?;
        let _length = me.with(rt, &planet, |bytes| bytes.len())?;
        Ok(me.stats())
    }
}

#[test]
fn as_shown(rt: HostRuntime) {
    let alloc = rt.alloc();
    // 1,024 buckets, frames for 256 of them, and at most 4,096 bytes in each.
    let settings = Settings::new(1_024, 256, 4_096);
    let devices = Vec::from_array(alloc, [FakeDevice::new(alloc)]).expect(&rt, "devices");
    let (told, pairs) = run(&rt, alloc, settings, devices, 2, &Planets).expect(&rt, "a run");
    assert_eq!(rt; told.len(), 2);
    assert_eq!(rt; pairs.len(), 1);
}
