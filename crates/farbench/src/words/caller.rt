//! One thread's calls on a row of words.
ghost use Rattle.std.specs.Prelude.{◌≡◌, ◌<◌, false};
ghost use Rattle.far_object.specs.Buckets.{bucket};
ghost use Rattle.far_object.specs.Encodings.{enc_u64};
ghost use Rattle.table_core.specs.Logs.{word};
ghost use Rattle.version_words.specs.Rows.{limits_of};

use crate::stopwatch::{MOST_THREADS, Runner};
use crate::words::Unvouched;
use anyhow::{Result, bail};
use far_object::{Object, bucket_of};
use std::sync::Wait;
use version_words::{Change, Moved, Naming, Opened, Pass, Probe, Words};

/// The place that each put says. No frame is behind it, since the row is measured alone.
const FRAME: u32 = 0;

/// The words, and the one object that all names are drawn for: a measured loop makes none.
#[derive(Drop)]
pub struct Row<J: Naming> {
    words: Words<u64, u64, J>,
    object: Object<u64, u64>,
    ghost unvouched: { J.limits.honest ≡ false },
}

impl<J: Naming> Row<J> {
    pub fn new(opened: Opened<u64, u64, Unvouched>, object: Object<u64, u64>) -> Row<J>
        requires { (opened.book ≡ J.book) × (opened.names ≡ J.names) × (limits_of opened.sizes false ≡ J.limits) }
    {
        Row {
            words: opened.named::<J>(),
            object,
        }
    }
}

/// What is called.
#[derive(Clone, Copy)]
pub enum Call {
    Look,
    /// Finds the word that was seen still there.
    Check,
    /// Draws a name and installs it.
    Put,
}

/// A pass at one bucket, with the word that it has seen there last.
#[derive(Drop)]
pub struct Caller<J: Naming> {
    pass: Pass<u64, u64, J>,
    call: Call,
    key: u64,
    own_bucket: u32,
    last_word: u64,
    ghost there: { own_bucket < J.limits.buckets },
    ghost of_key: { bucket enc_u64 J.limits.buckets key ≡ own_bucket },
    ghost stands: { word enc_u64 J.limits.buckets pass.front own_bucket ≡ last_word },
}

impl<J: Naming> Caller<J> {
    /// A new pass for this thread, at a word 128 bytes from the next thread's: none share a cache line.
    pub fn enter(row: &Row<J>, thread: u32, call: Call) -> Result<Caller<J>> {
        let Ok(mut pass) = row.words.enter() else {
            bail!("no pass is left");
        };
        let key = u64::from(thread % MOST_THREADS) * 16;
        let own_bucket = bucket_of(&key, row.words.buckets());
        let last_word = row.words.look(&mut pass, own_bucket);
        Ok(Caller {
            pass,
            call,
            key,
            own_bucket,
            last_word,
        })
    }

    fn look(&mut self, row: &Row<J>) {
        self.last_word = row.words.look(&mut self.pass, self.own_bucket);
    }

    /// Whether the last word still stands. Where it doesn't, the one that does is looked up.
    fn check(&mut self, row: &Row<J>) -> bool {
        let words = &row.words;
        let probe = Probe::Get(&self.key);
        match words.check(&mut self.pass, self.own_bucket, self.last_word, &probe) {
            Ok(()) => true,
            Err(Moved) => {
                self.last_word = words.look(&mut self.pass, self.own_bucket);
                false
            }
        }
    }

    /// Draws a name and installs it in place of the last word. Where either is lost, the word that stands is looked up.
    fn put(&mut self, row: &Row<J>) -> bool {
        let words = &row.words;
        let Ok(name) = words.name(&mut self.pass, self.own_bucket, &row.object) else {
            self.last_word = words.look(&mut self.pass, self.own_bucket);
            return false;
        };
        let change = Change::Put(&self.key, &self.key);
        match words.install(
            &mut self.pass,
            self.own_bucket,
            self.last_word,
            name,
            FRAME,
            &change,
        ) {
            Ok(installed) => {
                self.last_word = installed.word;
                true
            }
            Err((Moved, name)) => {
                let _ = name.give_up(FRAME);
                self.last_word = words.look(&mut self.pass, self.own_bucket);
                false
            }
        }
    }
}

impl<J: Naming> Runner<Row<J>> for Caller<J> {
    fn call<R: Wait>(&mut self, _rt: &R, row: &Row<J>, _number: u32) -> bool {
        match self.call {
            Call::Look => {
                self.look(row);
                true
            }
            Call::Check => self.check(row),
            Call::Put => self.put(row),
        }
    }
}
