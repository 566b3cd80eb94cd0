//! An object of 4,096 bytes that is written through a lane, read and removed, each round under a name of its own.
ghost use Rattle.std.specs.Prelude.{◌≡◌, ◌<◌, false, IfOk};
ghost use Rattle.table_core.specs.Logs.{contents};
ghost use Rattle.version_words.specs.Rows.{limits_of};

use crate::stopwatch::{HEAD, Runner, Span, alone, print};
use crate::words::Unvouched;
use anyhow::{Result, bail};
use far_device::FakeDevice;
use far_object::{Format, Object, Text};
use lane_store::LaneStore;
use std::alloc::Global;
use std::marker::Brand;
use std::rt::Clock;
use std::sync::Wait;
use table_core::word::FAR_PLACE;
use version_words::{Name, Naming, Opened, Pass, Sizes, Words};

/// Bytes of the object's one value. With its length, its key and the count of pairs the object has 4,096.
const VALUE: usize = 4_082;

/// Bytes that are read into. The object takes fewer in either format, so that no round lets them grow.
const ROOM: usize = 8_192;

/// All names are of one bucket.
const BUCKET: u32 = 0;

/// Names for as many rounds as can be asked for.
const SIZES: Sizes = Sizes {
    buckets: 1,
    names: (1 << 40) - 1,
    passes: 1,
};

type Store<J> = LaneStore<u64, Text, J, FakeDevice>;

/// What a round does.
#[derive(Clone, Copy)]
enum Round {
    /// Draws a name and gives it up, and nothing else.
    Draw,
    /// The same, and between the two writes the object in this format, reads it and removes it.
    Keep(Format),
}

const ROUNDS: [(&str, Round); 3] = [
    ("draw", Round::Draw),
    ("format one", Round::Keep(Format::One)),
    ("format two", Round::Keep(Format::Two)),
];

/// A row with its one pass, and the one object that all names are drawn for: a measured loop makes no object.
#[derive(Drop)]
struct Names<J: Naming> {
    words: Words<u64, Text, J>,
    pass: Pass<u64, Text, J>,
    object: Object<u64, Text>,
    ghost there: { 0 < J.limits.buckets },
    ghost unvouched: { J.limits.honest ≡ false },
}

impl<J: Naming> Names<J> {
    /// Names of the row, or none where no pass is left.
    fn new(opened: Opened<u64, Text, Unvouched>, object: Object<u64, Text>) -> Option<Names<J>>
        requires { (opened.book ≡ J.book) × (opened.names ≡ J.names) × (limits_of opened.sizes false ≡ J.limits) }
    {
        let words = opened.named::<J>();
        let pass = words.enter().ok()?;
        // A law of the row: it has a bucket.
        let _ = words.buckets();
        Some(Names {
            words,
            pass,
            object,
        })
    }

    /// The next name for the object. An error comes where none is left.
    fn draw(&mut self) -> Result<Name<u64, Text, J>>
        ensures { IfOk result (λ name. contents name.front name.number ≡ self.new.object) }
    {
        Ok(self.words.name(&mut self.pass, BUCKET, &self.object)?)
    }
}

/// Makes rounds.
#[derive(Drop)]
struct Keeper<J: Naming> {
    names: Names<J>,
    round: Round,
    out: Vec<u8>,
}

impl<J: Naming> Keeper<J> {
    fn draw(&mut self) -> bool {
        match self.names.draw() {
            Ok(name) => {
                let _spare = name.give_up(FAR_PLACE);
                true
            }
            Err(_) => false,
        }
    }

    fn keep<R: Wait>(&mut self, rt: &R, store: &Store<J>, format: Format) -> bool {
        let Ok(name) = self.names.draw() else {
            return false;
        };
        self.out.clear();
        let is_written = store.write(rt, &name, &self.names.object, format).is_ok();
        let is_read = matches!(store.read(rt, name.number(), &mut self.out), Ok(Some(_)));
        let spare = name.give_up(FAR_PLACE);
        store.remove(rt, &spare) == Ok(true) && is_written && is_read
    }
}

impl<J: Naming> Runner<Store<J>> for Keeper<J> {
    fn call<R: Wait>(&mut self, rt: &R, store: &Store<J>, _number: u32) -> bool {
        match self.round {
            Round::Draw => self.draw(),
            Round::Keep(format) => self.keep(rt, store, format),
        }
    }
}

fn object(alloc: Global) -> Result<Object<u64, Text>> {
    let value = Text::new(alloc, Vec::from_elem(alloc, 7, VALUE)?.as_slice())?;
    Ok(Object::of_pair(alloc, &0, &value)?)
}

/// A store of one lane.
fn one_lane<J: Naming>(alloc: Global) -> Result<Store<J>> {
    let devices = Vec::from_array(alloc, [FakeDevice::new(alloc)])?;
    Ok(LaneStore::open(alloc, devices)?)
}

/// Measures rounds with names of the row that was opened.
fn on_opened<R: Alloc<A = Global> + Clock + Print + Wait, J: Naming>(
    rt: &R,
    opened: Opened<u64, Text, Unvouched>,
    round: Round,
    rounds: u32,
) -> Result<Span>
    requires { (opened.book ≡ J.book) × (opened.names ≡ J.names) × (limits_of opened.sizes false ≡ J.limits) }
{
    let alloc = rt.alloc();
    let Some(names) = Names::<J>::new(opened, object(alloc)?) else {
        bail!("no pass is left");
    };
    let out = Vec::with_capacity(alloc, ROOM)?;
    let keeper = Keeper { names, round, out };
    alone(rt, rt, &one_lane(alloc)?, keeper, rounds)
}

fn time<R: Alloc<A = Global> + Clock + Print + Wait>(
    rt: &R,
    round: Round,
    rounds: u32,
) -> Result<Span> {
    let opened = Opened::<u64, Text, Unvouched>::open(rt.alloc(), SIZES)?;
    on_opened::<R, Brand>(rt, opened, round, rounds)
}

/// Prints the nanoseconds of so many rounds of each kind, by one thread.
pub fn measure<R: Alloc<A = Global> + Clock + Print + Wait>(rt: &R, rounds: u32) -> Result<()> {
    println!(rt; "{HEAD}")?;
    for (name, round) in ROUNDS {
        print(rt, name, 1, rounds, time(rt, round, rounds)?)?;
    }
    Ok(())
}
