//! The caller that `CALLING.md` of `hash_table` shows, as it is printed there, and the text of each refusal.
ghost use Rattle.std.specs.Prelude.{◌≡◌, true};
ghost use Rattle.version_words.specs.Rows.{limits_of};
ghost use Rattle.hash_table.specs.Configs.{sizes_of};

use far_device::FakeDevice;
use far_object::Text;
use hash_table::{
    Caller, CloseFault, Config, FarTable, HandFault, OpenFault, Opening, ReclaimFault, Refusal,
};
use std::alloc::Global;
use std::fmt::Display;
use std::marker::Brand;
use std::process::Abort;
use std::sync::Wait;
use version_words::Naming;

type Table<J> = FarTable<Text, Text, J, FakeDevice>;

#[test]
fn as_shown(rt: HostRuntime) {
    let alloc = rt.alloc();
    let config = Config {
        buckets: 1_024,
        frames: 256,
        limit: 4_096,
        names: (1 << 40) - 1,
        passes: 64,
        lanes: 1,
        spares: 256,
        format: 2,
    };
    let devices = Vec::from_array(alloc, [FakeDevice::new(alloc)]).expect(&rt, "devices");
    let opening = Opening::open(alloc, config, devices).expect(&rt, "an opening");
    // `Brand` stands for whatever name the row of words has got.
    calls::<Brand, _>(&rt, alloc, opening);
}

fn calls<J: Naming, R: Wait + Abort>(
    rt: &R,
    alloc: Global,
    opening: Opening<Text, Text, FakeDevice>,
)
    requires book { opening.row.book ≡ J.book }
    requires boards { opening.row.names ≡ J.names }
    requires limits { limits_of (sizes_of opening.config) true ≡ J.limits }
{
    let table = opening.named::<J>(alloc).expect(rt, "a table");
    let mut caller = table.enter().expect(rt, "a pass");
    puts(rt, alloc, &table, &mut caller);
    reads(rt, alloc, &table, &mut caller);
    reclaims(rt, &table, &mut caller);
    // All callers end the table, and all pairs come out.
    let callers = Vec::from_array(alloc, [caller]).expect(rt, "callers");
    match table.close(rt, alloc, callers) {
        Ok(pairs) => assert_eq!(rt; pairs.len(), 1),
        Err(_) => panic!(rt; "not closed"),
    }
}

fn puts<J: Naming, R: Wait + Abort>(
    rt: &R,
    alloc: Global,
    table: &Table<J>,
    caller: &mut Caller<Text, Text, J>,
) {
    let planet = Text::new(alloc, b"planet").expect(rt, "a key");
    let saturn = Text::new(alloc, b"Saturn").expect(rt, "a value");
    let venus = Text::new(alloc, b"Venus").expect(rt, "a value");
    table
        .put(rt, alloc, caller, &planet, &saturn)
        .expect(rt, "a put");
    table
        .put(rt, alloc, caller, &planet, &venus)
        .expect(rt, "a put");
}

fn reads<J: Naming, R: Wait + Abort>(
    rt: &R,
    alloc: Global,
    table: &Table<J>,
    caller: &mut Caller<Text, Text, J>,
) {
    let planet = Text::new(alloc, b"planet").expect(rt, "a key");
    let found = table.get(rt, alloc, caller, &planet).expect(rt, "a get");
    let value = found.expect(rt, "a value");
    assert_eq!(rt; value.as_bytes(), b"Venus".as_slice());
    // A value that is read where it lies. While the scope is open its version stays.
    if let Some(scope) = table.open_scope(caller, &planet).expect(rt, "a scope") {
        assert_eq!(rt; scope.bytes(), b"\x00\x05Venus".as_slice());
        scope.close();
    }
}

// The old version waits in the caller, until it is reclaimed or handed on.
fn reclaims<J: Naming, R: Wait + Abort>(
    rt: &R,
    table: &Table<J>,
    caller: &mut Caller<Text, Text, J>,
) {
    if let Some(spare) = caller.take_spare() {
        match table.reclaim(rt, caller, spare) {
            Ok(there) => assert!(rt; there),
            Err((spare, _fault)) => {
                let _ = caller.return_spare(spare);
            }
        }
    }
}

/// Stops the test where this prints as another text.
fn prints<F: Display, R: AllocGlobal + Abort>(rt: &R, it: &F, wanted: &str) {
    let text = format!(in rt.alloc(); "{it}").expect(rt, "a text");
    assert_eq!(rt; text.as_str(), wanted);
}

/// Also of those that no case brings about for certain.
#[test]
fn refusals_and_faults_have_texts(rt: HostRuntime) {
    let rows = [
        (Refusal::Memory, "memory"),
        (Refusal::Far, "far"),
        (Refusal::Moved, "moved"),
        (Refusal::Missed, "missed"),
        (Refusal::NoFrame, "no frame"),
        (Refusal::TooLong, "too long"),
        (Refusal::NamesSpent, "names spent"),
        (Refusal::LimboFull, "limbo full"),
        (Refusal::Device, "device"),
        (Refusal::Damaged, "damaged"),
    ];
    for (refusal, wanted) in rows {
        prints(&rt, &refusal, wanted);
    }
    prints(&rt, &OpenFault::BadConfig(3), "bad config 3");
    prints(&rt, &OpenFault::Memory, "memory");
    prints(&rt, &OpenFault::Device, "device");
    prints(&rt, &ReclaimFault::Held, "held");
    prints(&rt, &ReclaimFault::Device, "device");
    prints(&rt, &ReclaimFault::Memory, "memory");
    prints(&rt, &CloseFault::<Text, Text, Brand>::Memory, "memory");
    prints(&rt, &CloseFault::<Text, Text, Brand>::Device, "device");
    prints(&rt, &CloseFault::<Text, Text, Brand>::Damaged, "damaged");
    prints(&rt, &CloseFault::<Text, Text, Brand>::Missed, "missed");
    prints(&rt, &HandFault::<Text, Text, Brand>::Stopped, "stopped");
}
