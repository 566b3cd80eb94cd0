//! Installs and checks. Each is made over a word that somebody has seen, of which the pass learns first.
ghost use Rattle.std.specs.Prelude.{◌≡◌, ◌<◌, ◌^◌, Some, IsTrue, IsNone};
ghost use Rattle.far_object.specs.Encodings.{enc_text};
ghost use Rattle.table_core.specs.BucketWords.{name_of};
ghost use Rattle.version_words.specs.Views.{IsOfBucket, MovesObject, has_object, operation_of, probed};
ghost use Rattle.row_player.specs.Moves.{Moves};

use super::holdings::{Caller, Sight};
use super::user::{User, caller_at, pair, sight_of};
use crate::holdings::{Numbered, Unused, take};
use crate::replies::refused;
use anyhow::{Result, bail};
use far_object::{Text, bucket_of};
use table_core::word::{EMPTY_PLACE, FAR_PLACE, name_of, place_of};
use version_words::{Change, Moved, Name, Naming, Probe, Spare, Words};

/// What a line asks to be installed or checked. Keys and values are bytes.
#[derive(Clone, Copy)]
pub enum Request<'l> {
    Get(&'l [u8]),
    Put(&'l [u8], &'l [u8]),
    Remove(&'l [u8]),
    /// The key, the value that is expected, and the value that is put then.
    PutIf(&'l [u8], Option<&'l [u8]>, &'l [u8]),
    /// The key of the bucket whose object moves.
    Move(&'l [u8]),
}

impl<'l> Request<'l> {
    pub fn key(self) -> &'l [u8] {
        match self {
            Request::Get(key)
            | Request::Put(key, _)
            | Request::Remove(key)
            | Request::PutIf(key, _, _)
            | Request::Move(key) => key,
        }
    }
}

/// A key, the value that is expected, if one is, and a value.
#[derive(Drop)]
struct Texts {
    key: Text,
    expected: Option<Text>,
    value: Text,
}

/// None where memory is refused.
fn texts_of(alloc: std::alloc::Global, asked: Request<'_>) -> Result<Option<Texts>> {
    let (expected, value): (Option<&[u8]>, &[u8]) = match asked {
        Request::Put(_, value) => (None, value),
        Request::PutIf(_, expected, value) => (expected, value),
        _ => (None, b""),
    };
    let Some((key, value)) = pair(alloc, asked.key(), value)? else {
        return Ok(None);
    };
    let expected = match expected {
        None => None,
        Some(bytes) => match pair(alloc, bytes, b"")? {
            Some((text, _)) => Some(text),
            None => return Ok(None),
        },
    };
    Ok(Some(Texts {
        key,
        expected,
        value,
    }))
}

/// Where an install goes: the word that it takes the place of, and the place of the new one.
#[derive(Clone, Copy)]
pub struct Over {
    pub old: u64,
    pub name: u64,
    pub place: u32,
}

/// What an install leaves: what stands there now, and the spare of what stood there.
#[derive(Drop)]
pub struct Left<J: Naming> {
    sight: Sight<J>,
    spare: Option<Spare<Text, Text, J>>,
}

/// Installs the name in place of the word that was seen.
#[tactic(auto, using(version_words::proofs::Fronts::seen_later))]
fn install<J: Naming>(
    words: &Words<Text, Text, J>,
    caller: &mut Caller<J>,
    sight: &Sight<J>,
    name: Name<Text, Text, J>,
    place: u32,
    change: &Change<Text, Text>,
) -> std::result::Result<Left<J>, Unused<J>>
    requires of { name.bucket ≡ sight.now.bucket }
    requires bucket { IsOfBucket enc_text J.limits.buckets sight.now.bucket (operation_of change.now) }
    requires place { place < 2 ^ 24 }
    requires newer { name_of sight.now.word < name.number }
    requires moves { MovesObject (operation_of change.now) sight.now.word place }
{
    words.learn(&mut caller.pass, &sight.mark);
    let bucket = sight.bucket;
    match words.install(&mut caller.pass, bucket, sight.word, name, place, change) {
        Ok(installed) => {
            let mark = caller.pass.mark();
            let word = installed.word;
            Ok(Left {
                sight: Sight { bucket, word, mark },
                spare: installed.spare,
            })
        }
        Err((Moved, name)) => Err(Unused { name }),
    }
}

/// Finds the word that was seen still there.
#[tactic(auto, using(version_words::proofs::Fronts::seen_later))]
fn check<J: Naming>(
    words: &Words<Text, Text, J>,
    caller: &mut Caller<J>,
    sight: &Sight<J>,
    probe: &Probe<Text, Text>,
) -> bool
    requires bucket { IsOfBucket enc_text J.limits.buckets sight.now.bucket (Some (probed probe.now)) }
{
    words.learn(&mut caller.pass, &sight.mark);
    words
        .check(&mut caller.pass, sight.bucket, sight.word, probe)
        .is_ok()
}

/// Whether the word's place is a frame or the device.
fn has_object(word: u64) -> bool
    ensures { result ≡ has_object word }
{
    word != 0 && place_of(word) != EMPTY_PLACE
}

/// Whether an object moves there from the word's place: from the device to a frame, or from a frame to the device.
fn moves(old: u64, place: u32) -> bool
    ensures { IsTrue result → Moves old place }
{
    let from = place_of(old);
    let is_in = from == FAR_PLACE && place < EMPTY_PLACE;
    let is_out = from < EMPTY_PLACE && place == FAR_PLACE;
    has_object(old) && (is_in || is_out)
}

/// Why the name can't be installed there.
fn mistake_of<J: Naming>(
    sight: &Sight<J>,
    unused: &Unused<J>,
    place: u32,
    bucket: u32,
) -> Option<&'static str>
    ensures of { IsNone result → unused.now.name.bucket ≡ bucket }
    ensures here { IsNone result → sight.now.bucket ≡ bucket }
    ensures place { IsNone result → place < 2 ^ 24 }
    ensures newer { IsNone result → name_of sight.now.word < unused.now.name.number }
{
    if sight.bucket != bucket || unused.name.bucket() != bucket {
        return Some("the name is of another bucket than the key");
    }
    if place >= 16_777_216 {
        return Some("a place is below 2^24");
    }
    if name_of(sight.word) >= unused.name.number() {
        return Some("the name is not newer than the word");
    }
    None
}

/// What came of an install.
type Installs<J> = std::result::Result<Left<J>, Unused<J>>;

/// Installs the name as the line asks.
fn install_asked<J: Naming>(
    words: &Words<Text, Text, J>,
    caller: &mut Caller<J>,
    sight: &Sight<J>,
    unused: Unused<J>,
    place: u32,
    asked: Request<'_>,
    texts: &Texts,
) -> Result<Installs<J>> {
    let bucket = bucket_of(&texts.key, words.buckets());
    if let Some(mistake) = mistake_of(sight, &unused, place, bucket) {
        drop(unused);
        bail!("{mistake}");
    }
    match asked {
        Request::Put(_, _) => {
            let name = unused.into_name();
            let put = Change::Put(&texts.key, &texts.value);
            Ok(install(words, caller, sight, name, place, &put))
        }
        Request::Remove(_) => {
            let name = unused.into_name();
            let remove = Change::Remove(&texts.key);
            Ok(install(words, caller, sight, name, place, &remove))
        }
        Request::PutIf(_, _, _) => {
            let name = unused.into_name();
            let put_if = Change::PutIf(&texts.key, texts.expected.as_ref(), &texts.value);
            Ok(install(words, caller, sight, name, place, &put_if))
        }
        Request::Move(_) if moves(sight.word, place) => {
            let name = unused.into_name();
            Ok(install(words, caller, sight, name, place, &Change::Move))
        }
        _ => {
            drop(unused);
            bail!("installs are put, remove, put_if, and move between a frame and the device")
        }
    }
}

/// Makes the check that the line asks for.
fn check_asked<J: Naming>(
    words: &Words<Text, Text, J>,
    caller: &mut Caller<J>,
    sight: &Sight<J>,
    asked: Request<'_>,
    texts: &Texts,
) -> Result<bool> {
    if sight.bucket != bucket_of(&texts.key, words.buckets()) {
        bail!("the word is of another bucket than the key");
    }
    match asked {
        Request::Get(_) => Ok(check(words, caller, sight, &Probe::Get(&texts.key))),
        Request::Remove(_) => Ok(check(words, caller, sight, &Probe::Remove(&texts.key))),
        Request::PutIf(_, _, _) => {
            let put_if = Probe::PutIf(&texts.key, texts.expected.as_ref(), &texts.value);
            Ok(check(words, caller, sight, &put_if))
        }
        _ => bail!("checks are get, remove and put_if"),
    }
}

/// Replies the word that stands there now, and the spare of the one before.
fn tell_left<J: Naming>(left: &Left<J>, out: &mut String) -> Result<()> {
    write!(out, "{}", left.sight.word)?;
    if let Some(spare) = &left.spare {
        write!(out, " spare {} {}", spare.word(), spare.bucket())?;
    }
    Ok(())
}

impl<J: Naming> User<J> {
    /// Installs a name as the line asks.
    pub fn install(
        &mut self,
        pass: u64,
        asked: Request<'_>,
        over: Over,
        out: &mut String,
    ) -> Result<()> {
        let Some(texts) = texts_of(self.alloc, asked)? else {
            return refused(out);
        };
        let bucket = bucket_of(&texts.key, self.words.buckets());
        let Some(sight) = sight_of(&self.sights, bucket, over.old) else {
            bail!("nobody has seen the word {} in the key's bucket", over.old);
        };
        let at = match caller_at(&self.callers, pass) {
            Some(at) if at < self.callers.len() => at,
            _ => bail!("no pass {pass} was drawn"),
        };
        let Some(unused) = take(&mut self.names, over.name) else {
            bail!("no name {} is held", over.name);
        };
        match install_asked(
            &self.words,
            &mut self.callers[at],
            sight,
            unused,
            over.place,
            asked,
            &texts,
        )? {
            Ok(left) => {
                tell_left(&left, out)?;
                let Left { sight, spare } = left;
                self.sights.push(sight)?;
                if let Some(spare) = spare {
                    self.spares.push(spare)?;
                }
            }
            Err(unused) => {
                let (name, of) = (unused.number(), unused.name.bucket());
                write!(out, "{Moved}, and {name} {of} comes back")?;
                self.names.push(unused)?;
            }
        }
        Ok(())
    }

    /// Makes the check that the line asks for. Replies whether the word still stands.
    pub fn check(
        &mut self,
        pass: u64,
        asked: Request<'_>,
        old: u64,
        out: &mut String,
    ) -> Result<()> {
        let Some(texts) = texts_of(self.alloc, asked)? else {
            return refused(out);
        };
        let bucket = bucket_of(&texts.key, self.words.buckets());
        let Some(sight) = sight_of(&self.sights, bucket, old) else {
            bail!("nobody has seen the word {old} in the key's bucket");
        };
        let at = match caller_at(&self.callers, pass) {
            Some(at) if at < self.callers.len() => at,
            _ => bail!("no pass {pass} was drawn"),
        };
        if check_asked(&self.words, &mut self.callers[at], sight, asked, &texts)? {
            out.push_str("it stands")?;
        } else {
            write!(out, "{Moved}")?;
        }
        Ok(())
    }
}
