//! A row that threads share.
ghost use Rattle.std.specs.Prelude.{◌≡◌, ◌<◌, ◌^◌, false};
ghost use Rattle.far_object.specs.Encodings.{enc_text};
ghost use Rattle.far_object.specs.Buckets.{bucket as bucket_at};

use super::user::{User, pair};
use crate::replies::refused;
use crate::rows::{TRIES, entered};
use anyhow::{Result, bail};
use far_object::{Object, Text, bucket_of};
use std::alloc::Global;
use std::marker::PhantomData;
use std::thread::{Threads, join};
use version_words::{Change, Moved, Naming, Pass, Spare, Words};

/// A pair, the object of this pair alone, and the bucket of its key.
#[derive(Drop)]
struct Sample<J: Naming> {
    key: Text,
    value: Text,
    object: Object<Text, Text>,
    bucket: u32,
    of: PhantomData<J>,
    ghost of_key: { bucket_at enc_text J.limits.buckets key ≡ bucket },
    ghost within: { bucket < J.limits.buckets },
    ghost unvouched: { J.limits.honest ≡ false },
}

impl<J: Naming> Sample<J> {
    /// None where memory is refused.
    fn new(
        alloc: Global,
        words: &Words<Text, Text, J>,
        key: &[u8],
        value: &[u8],
    ) -> Result<Option<Sample<J>>>
        requires { J.limits.honest ≡ false }
    {
        let Some((key, value)) = pair(alloc, key, value)? else {
            return Ok(None);
        };
        let Ok(object) = Object::of_pair(alloc, &key, &value) else {
            return Ok(None);
        };
        let bucket = bucket_of(&key, words.buckets());
        Ok(Some(Sample {
            key,
            value,
            object,
            bucket,
            of: PhantomData,
        }))
    }
}

/// Gives up a name at this place by a pass of its own, which learns that it drew it.
fn given_up<J: Naming>(
    words: &Words<Text, Text, J>,
    sample: &Sample<J>,
    place: u32,
) -> Option<Spare<Text, Text, J>>
    requires { place < 2 ^ 24 }
{
    let mut pass = entered(words)?;
    let name = words.name(&mut pass, sample.bucket, &sample.object).ok()?;
    words.learn(&mut pass, &name.mark());
    Some(name.give_up(place))
}

/// The word of the spare and what stands in its bucket, once the pass knows that they differ.
fn never_found<J: Naming>(
    words: &Words<Text, Text, J>,
    pass: &mut Pass<Text, Text, J>,
    spare: &Spare<Text, Text, J>,
) -> (u64, u64) {
    let standing = words.look(pass, spare.bucket());
    words.learn(pass, &spare.mark());
    spare.never(pass);
    (spare.word(), standing)
}

/// A thread draws a name for the key and gives it up at this place, while another draws a pass. The spare goes to a third, which
/// replies its word and what stands in its bucket, while a fourth draws a pass.
pub fn send<J: Naming + Send + Sync, R: Threads + Sync>(
    rt: &R,
    user: &User<J>,
    key: &[u8],
    place: u32,
    out: &mut String,
) -> Result<()> {
    if place >= 16_777_216 {
        bail!("a place is below 2^24");
    }
    let words = &user.words;
    let Some(sample) = Sample::new(user.alloc, words, key, b"1")? else {
        return refused(out);
    };
    let (spare, pass) = join(rt, || given_up(words, &sample, place), || entered(words));
    let (Some(spare), Some(mut pass)) = (spare, pass) else {
        bail!("no name or no pass is left");
    };
    let (found, drawn) = join(
        rt,
        || never_found(words, &mut pass, &spare),
        || entered(words),
    );
    if drawn.is_none() {
        bail!("no pass is left");
    }
    write!(out, "{} {}", found.0, found.1)?;
    Ok(())
}

/// What became of one try.
#[derive(Drop)]
enum Outcome<J: Naming> {
    /// The word was installed, and the one before it was handed out, if there was one.
    Installed(u64, Option<Spare<Text, Text, J>>),
    /// Another word was installed first. The spare is that of the name.
    TooLate(Spare<Text, Text, J>),
    /// Another name was drawn first.
    NoName,
}

fn one_try<J: Naming>(
    words: &Words<Text, Text, J>,
    pass: &mut Pass<Text, Text, J>,
    sample: &Sample<J>,
) -> Outcome<J> {
    let old = words.look(pass, sample.bucket);
    let Ok(name) = words.name(pass, sample.bucket, &sample.object) else {
        return Outcome::NoName;
    };
    let put = Change::Put(&sample.key, &sample.value);
    match words.install(pass, sample.bucket, old, name, 0, &put) {
        Ok(installed) => Outcome::Installed(installed.word, installed.spare),
        Err((Moved, name)) => Outcome::TooLate(name.give_up(0)),
    }
}

/// What threads did: how many words they installed, how many names they gave up and how often no name came, and in each
/// bucket the last word. The balance is the sum of the words that were installed, less those that were handed out.
#[derive(Clone, Copy)]
struct Totals {
    installed: u64,
    late: u64,
    nameless: u64,
    balance: u64,
    last: [u64; 3],
    rising: bool,
}

impl Totals {
    fn none() -> Totals {
        Totals {
            installed: 0,
            late: 0,
            nameless: 0,
            balance: 0,
            last: [0; 3],
            rising: true,
        }
    }

    fn with(self, other: Totals) -> Totals {
        Totals {
            installed: self.installed.wrapping_add(other.installed),
            late: self.late.wrapping_add(other.late),
            nameless: self.nameless.wrapping_add(other.nameless),
            balance: self.balance.wrapping_add(other.balance),
            last: [
                self.last[0].max(other.last[0]),
                self.last[1].max(other.last[1]),
                self.last[2].max(other.last[2]),
            ],
            rising: self.rising && other.rising,
        }
    }

    fn install(&mut self, at: usize, word: u64, handed_out: u64)
        requires { at < 3 }
    {
        self.installed = self.installed.wrapping_add(1);
        self.balance = self.balance.wrapping_add(word).wrapping_sub(handed_out);
        self.rising = self.rising && self.last[at] < word && handed_out < word;
        self.last[at] = word;
    }
}

/// Tries until a name comes.
fn one_round<J: Naming>(
    words: &Words<Text, Text, J>,
    pass: &mut Pass<Text, Text, J>,
    sample: &Sample<J>,
    at: usize,
    totals: &mut Totals,
)
    requires { at < 3 }
{
    for _ in 0..TRIES {
        match one_try(words, pass, sample) {
            Outcome::Installed(word, spare) => {
                let handed_out = spare.map_or(0, |spare| spare.word());
                totals.install(at, word, handed_out);
                return;
            }
            Outcome::TooLate(spare) => {
                spare.never(pass);
                totals.late = totals.late.wrapping_add(1);
                return;
            }
            Outcome::NoName => totals.nameless = totals.nameless.wrapping_add(1),
        }
    }
}

fn rounds<J: Naming>(words: &Words<Text, Text, J>, samples: &[Sample<J>; 3], count: u32) -> Totals {
    let mut totals = Totals::none();
    if let Some(mut pass) = entered(words) {
        for round in 0..count {
            let at = (round % 3) as usize;
            one_round(words, &mut pass, &samples[at], at, &mut totals);
        }
    }
    totals
}

fn by_two<J: Naming + Send + Sync, R: Threads + Sync>(
    rt: &R,
    words: &Words<Text, Text, J>,
    samples: &[Sample<J>; 3],
    count: u32,
) -> Totals {
    let (one, two) = join(
        rt,
        || rounds(words, samples, count),
        || rounds(words, samples, count),
    );
    one.with(two)
}

fn by_four<J: Naming + Send + Sync, R: Threads + Sync>(
    rt: &R,
    words: &Words<Text, Text, J>,
    samples: &[Sample<J>; 3],
    count: u32,
) -> Totals {
    let (one, two) = join(
        rt,
        || by_two(rt, words, samples, count),
        || by_two(rt, words, samples, count),
    );
    one.with(two)
}

/// The sum of the words that stand, and whether in each bucket the newest does.
fn standing<J: Naming>(
    words: &Words<Text, Text, J>,
    pass: &mut Pass<Text, Text, J>,
    samples: &[Sample<J>; 3],
    totals: &Totals,
) -> (u64, bool) {
    let mut sum = 0u64;
    let mut newest = true;
    for at in 0..3 {
        let word = words.look(pass, samples[at].bucket);
        newest = newest && word == totals.last[at];
        sum = sum.wrapping_add(word);
    }
    (sum, newest)
}

/// The pairs of three buckets. None where memory is refused.
fn samples<J: Naming>(alloc: Global, words: &Words<Text, Text, J>) -> Result<Option<[Sample<J>; 3]>>
    requires { J.limits.honest ≡ false }
{
    let a = Sample::new(alloc, words, b"a", b"1")?;
    let b = Sample::new(alloc, words, b"b", b"2")?;
    let c = Sample::new(alloc, words, b"c", b"3")?;
    match (a, b, c) {
        (Some(a), Some(b), Some(c)) => Ok(Some([a, b, c])),
        _ => Ok(None),
    }
}

/// Four threads install names in three buckets, each so many times, and give up those that come too late. Replies how many were
/// installed or given up, and then what is not as it should be: every word that was replaced is handed out once, words rise, and
/// in each bucket stands the newest.
pub fn share<J: Naming + Send + Sync, R: Threads + Sync>(
    rt: &R,
    user: &User<J>,
    count: u32,
    out: &mut String,
) -> Result<()> {
    let words = &user.words;
    let Some(samples) = samples(user.alloc, words)? else {
        return refused(out);
    };
    let totals = by_four(rt, words, &samples, count);
    let Some(mut pass) = entered(words) else {
        bail!("no pass is left");
    };
    let (sum, is_newest) = standing(words, &mut pass, &samples, &totals);
    write!(out, "tries {}", totals.installed.wrapping_add(totals.late))?;
    if totals.balance != sum {
        write!(out, ", words handed out never or twice")?;
    }
    if !totals.rising {
        write!(out, ", a word below the last one")?;
    }
    if !is_newest {
        write!(out, ", an older word stands")?;
    }
    Ok(())
}
