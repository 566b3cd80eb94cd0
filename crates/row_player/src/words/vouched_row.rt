//! A row whose contents are vouched for, so that calls owe what they say of them.
ghost use Rattle.std.specs.Prelude.{◌≡◌, ◌∷◌, [], true, IfOk, IfSome};
ghost use Rattle.version_words.specs.Rows.{limits_of};

use super::user::pair;
use crate::replies::{memory, no_call, no_pass, room, tell_opened, word};
use crate::rows::{entered, opened};
use anyhow::{Result, bail};
use case_files::{Line, Playing};
use far_object::{Object, Text, bucket_of};
use std::alloc::Global;
use std::marker::Brand;
use version_words::{
    Change, Honesty, Moved, Naming, Opened, Pass, Probe, Words, contents_stay, empty_holds,
};

/// Contents are vouched for.
pub struct Vouched;

impl Honesty for Vouched {
    ghost use Rattle.std.specs.Prelude.{true};

    ghost honest = { true };
}

/// Plays the case of an opening `vouched`, whose calls are all `set_twice`.
pub fn play_vouched(alloc: Global, opening: &Line, playing: &mut Playing<'_>) {
    for _ in 0..2 {
        let is_again = match opened::<Vouched>(alloc, opening) {
            Err(mistake) => playing.tell(opening, Err(mistake)),
            Ok(None) => tell_opened(alloc, opening, playing, false),
            Ok(Some(row)) => {
                play_in::<Brand>(alloc, row, opening, playing);
                false
            }
        };
        if !is_again {
            return;
        }
    }
}

fn play_in<J: Naming>(
    alloc: Global,
    opened: Opened<Text, Text, Vouched>,
    opening: &Line,
    playing: &mut Playing<'_>,
)
    requires book { opened.book ≡ J.book }
    requires boards { opened.names ≡ J.names }
    requires limits { limits_of opened.sizes true ≡ J.limits }
{
    let words = opened.named::<J>();
    let Some(mut pass) = entered(&words) else {
        playing.tell(opening, no_pass());
        return;
    };
    tell_opened(alloc, opening, playing, true);
    for _ in 0..playing.case().lines.len() {
        let Some(line) = playing.next() else {
            return;
        };
        for _ in 0..2 {
            let reply = reply(alloc, &words, &mut pass, line);
            if !playing.tell(line, reply) {
                break;
            }
        }
    }
}

fn reply<J: Naming>(
    alloc: Global,
    words: &Words<Text, Text, J>,
    pass: &mut Pass<Text, Text, J>,
    line: &Line,
) -> Result<String> {
    if line.call() != "set_twice" {
        return no_call(line);
    }
    let mut out = room(alloc)?;
    let Some(pair) = parts(alloc, word(line, 1)?, word(line, 2)?)? else {
        return memory(alloc);
    };
    let (word, checked) = set_twice(words, pass, pair)?;
    match checked {
        Ok(()) => write!(out, "{word} it stands")?,
        Err(Moved) => write!(out, "{word} {Moved}")?,
    }
    Ok(out)
}

/// A key, a value and the object of this pair alone. None where memory is refused.
type Parts = (Text, Text, Object<Text, Text>);

fn parts(alloc: Global, key: &[u8], value: &[u8]) -> Result<Option<Parts>>
    ensures { IfOk result (λ parts. IfSome parts (λ p. p.2 ≡ (p.0, p.1) ∷ [])) }
{
    let Some((key, value)) = pair(alloc, key, value)? else {
        return Ok(None);
    };
    let Ok(object) = Object::of_pair(alloc, &key, &value) else {
        return Ok(None);
    };
    Ok(Some((key, value, object)))
}

/// A put_if that is met, and one that is not: the word of the first, and what the check of the second answers.
fn set_twice<J: Naming>(
    words: &Words<Text, Text, J>,
    pass: &mut Pass<Text, Text, J>,
    pair: Parts,
) -> Result<(u64, std::result::Result<(), Moved>)>
    requires { pair.2 ≡ (pair.0, pair.1) ∷ [] }
{
    let bucket = bucket_of(&pair.0, words.buckets());
    let old = words.look(pass, bucket);
    if old != 0 {
        bail!("a word stands in the key's bucket");
    }
    let Ok(name) = words.name(pass, bucket, &pair.2) else {
        bail!("no name is left");
    };
    empty_holds::<Text, Text>();
    let set = Change::PutIf(&pair.0, None, &pair.1);
    let installed = match words.install(pass, bucket, old, name, 0, &set) {
        Ok(installed) => installed,
        Err((Moved, name)) => {
            drop(name.give_up(0));
            bail!("another word stands in the bucket")
        }
    };
    contents_stay::<Text, Text>();
    let unmet = Probe::PutIf(&pair.0, None, &pair.1);
    let checked = words.check(pass, bucket, installed.word, &unmet);
    Ok((installed.word, checked))
}
