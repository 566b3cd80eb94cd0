//! What callers of words hold from line to line.
ghost use Rattle.std.specs.Prelude.{◌≡◌, ◌<◌, false};
ghost use Rattle.far_object.specs.Encodings.{enc_text};
ghost use Rattle.table_core.specs.Logs.{word as word_in};

use far_object::Text;
use version_words::{Mark, Naming, Pass, PassHolder, Words};

/// What a table's caller has: a pass, and something of its own.
#[derive(Drop)]
pub struct Caller<J: Naming> {
    pub pass: Pass<Text, Text, J>,
    pub own: u64,
}

impl<J: Naming> PassHolder<Text, Text, J> for Caller<J> {
    ghost use Rattle.std.specs.Prelude.{refl};

    ghost pass_of = { λ caller. caller.pass };

    ghost with_pass = { λ caller pass. record caller { pass = pass } };

    ghost put_back = { λ _. refl };

    fn pass(&self) -> &Pass<Text, Text, J> {
        &self.pass
    }

    fn tell(&mut self, words: &Words<Text, Text, J>, mark: &Mark<Text, Text, J>) {
        words.learn(&mut self.pass, mark);
    }

    fn differs_from(&mut self, other: &mut Caller<J>) {
        self.pass.differ(&mut other.pass);
    }
}

/// A word that somebody saw in a bucket, and the mark of that time: by it others know that the word stood there.
#[derive(Drop)]
pub struct Sight<J: Naming> {
    pub bucket: u32,
    pub word: u64,
    pub mark: Mark<Text, Text, J>,
    ghost seen: { word_in enc_text J.limits.buckets mark bucket ≡ word },
    ghost within: { bucket < J.limits.buckets },
    ghost unvouched: { J.limits.honest ≡ false },
}

/// A mark under the name that a case gives it.
#[derive(Drop)]
pub struct Label<J: Naming> {
    pub label: Vec<u8>,
    pub mark: Mark<Text, Text, J>,
}
