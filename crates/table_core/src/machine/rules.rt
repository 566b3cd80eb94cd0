//! Whether an event may come next, and the first rule that it breaks.
ghost use Rattle.std.specs.Prelude.{◌≡◌, ◌≢◌, ◌+◌, ◌<◌, ◌↔◌, List, [], IsTrue, IfOk, IfErr, MatchOption};
ghost use Rattle.far_object.specs.Buckets.{bucket};
ghost use Rattle.table_core.specs.declared.event.Event.{Event};
ghost use Rattle.table_core.specs.declared.fault.Rule.{Rule};
ghost use Rattle.table_core.specs.BucketWords.{place_of, empty_place};
ghost use Rattle.table_core.specs.Maps.{key_of};
ghost use Rattle.table_core.specs.Logs.{names_of};
ghost use Rattle.table_core.specs.Lawful.{MayFollow, widest};
ghost use Rattle.table_core.specs.Machines.{buckets_of, numbered, StandsAt, Breaks};
ghost use Rattle.table_core.specs.Changes.{standing_at, Installs, IsUnfit};
ghost use Rattle.table_core.specs.Lent.{lent};

use crate::contents::{are_same, belong, is_changed, is_left};
use crate::fault::Rule;
use crate::limits::LAST_NAME;
use crate::machine::Machine;
use crate::operation::Operation;
use crate::pairs::Pairs;
use crate::word::{EMPTY_PLACE, name_of, place_of};
use far_object::{FarObject, bucket_of};

impl<K: FarObject, V: FarObject> Machine<K, V> {
    /// The bucket and the contents of a name.
    pub(crate) fn naming(&self, name: u64) -> Option<&(u32, Pairs<K, V>)>
        ensures { MatchOption result (numbered self.now.names name ≡ None) (λ naming. numbered self.now.names name ≡ Some naming.now) }
    {
        if name == 0 {
            return None;
        }
        self.names.get((name - 1) as usize)
    }

    /// The contents of the word that stands in a bucket.
    pub(crate) fn standing(&self, bucket: u32) -> &[(K, V)]
        requires { bucket < buckets_of self.now }
        ensures { result.now ≡ standing_at self.now bucket }
    {
        match self.naming(name_of(self.words[bucket as usize])) {
            None => &[],
            Some(naming) => naming.1.as_slice(),
        }
    }

    /// The bucket of a key.
    fn bucket(&self, key: &K) -> u32
        ensures is { result ≡ bucket K.enc (buckets_of self.now) key.now }
        ensures within { result < buckets_of self.now }
    {
        bucket_of(key, self.buckets())
    }

    /// The contents of a word that may be installed in a bucket.
    fn judge_word(&self, bucket: u32, word: u64) -> Result<&[(K, V)], Rule>
        requires { bucket < buckets_of self.now }
        ensures ok { IfOk result (λ pairs. Installs self.now bucket word pairs.now) }
        ensures err { IfErr result (λ rule. IsUnfit self.now bucket word rule) }
    {
        match self.naming(name_of(word)) {
            Some(naming) if naming.0 == bucket => {
                if name_of(word) <= name_of(self.words[bucket as usize]) {
                    return Err(Rule::NotNewer);
                }
                Ok(naming.1.as_slice())
            }
            _ => Err(Rule::WrongContents),
        }
    }

    /// A call: the bucket of its key.
    pub(crate) fn judge_done<'a>(
        &self,
        pass: u32,
        asked: &Operation<&'a K, &'a V>,
        word: Option<u64>,
    ) -> Result<u32, Rule>
        ensures bucket { IfOk result (λ b. (b ≡ bucket K.enc (buckets_of self.now) (key_of (lent asked.now))) × (b < buckets_of self.now)) }
        ensures ok { IfOk result (λ _. (log : List (Event K V)) → StandsAt K.enc V.enc self.now log → MayFollow K.enc V.enc (widest (buckets_of self.now)) log (Event.Done pass (lent asked.now) word)) }
        ensures err { IfErr result (λ rule. (log : List (Event K V)) → StandsAt K.enc V.enc self.now log → Breaks K.enc V.enc (widest (buckets_of self.now)) log (Event.Done pass (lent asked.now) word) rule) }
        ensures rules { IfErr result (λ rule. rule ≢ Rule.Memory) }
    {
        if pass == 0 || self.passes() < pass {
            return Err(Rule::WrongPass);
        }
        let bucket = self.bucket(asked.key());
        let old = self.standing(bucket);
        let effect = asked.effect(old);
        let fits = match word {
            None => is_left(old, &effect),
            Some(word) => {
                let new = self.judge_word(bucket, word)?;
                is_changed(new, old, &effect) && is_placed(word, new)
            }
        };
        if fits {
            Ok(bucket)
        } else {
            Err(Rule::WrongContents)
        }
    }

    /// The installation of a word that changes no contents.
    pub(crate) fn judge_move(&self, bucket: u32, word: u64) -> Result<(), Rule>
        ensures ok { IfOk result (λ _. (log : List (Event K V)) → StandsAt K.enc V.enc self.now log → MayFollow K.enc V.enc (widest (buckets_of self.now)) log (Event.Moved bucket word)) }
        ensures within { IfOk result (λ _. bucket < buckets_of self.now) }
        ensures err { IfErr result (λ rule. (log : List (Event K V)) → StandsAt K.enc V.enc self.now log → Breaks K.enc V.enc (widest (buckets_of self.now)) log (Event.Moved bucket word) rule) }
        ensures rules { IfErr result (λ rule. rule ≢ Rule.Memory) }
    {
        if self.buckets() <= bucket {
            return Err(Rule::WrongContents);
        }
        let new = self.judge_word(bucket, word)?;
        if are_same(new, self.standing(bucket)) && is_placed(word, new) {
            Ok(())
        } else {
            Err(Rule::WrongContents)
        }
    }

    /// The drawing of the next name for these contents of a bucket.
    pub(crate) fn judge_naming(&self, bucket: u32, pairs: &[(K, V)]) -> Result<(), Rule>
        ensures ok { IfOk result (λ _. (log : List (Event K V)) → StandsAt K.enc V.enc self.now log → MayFollow K.enc V.enc (widest (buckets_of self.now)) log (Event.Named (names_of log + 1) bucket pairs.now)) }
        ensures err { IfErr result (λ rule. (log : List (Event K V)) → StandsAt K.enc V.enc self.now log → Breaks K.enc V.enc (widest (buckets_of self.now)) log (Event.Named (names_of log + 1) bucket pairs.now) rule) }
        ensures rules { IfErr result (λ rule. rule ≢ Rule.Memory) }
    {
        if self.names() >= LAST_NAME {
            return Err(Rule::NameUsed);
        }
        let buckets = self.buckets();
        if bucket < buckets && belong(buckets, bucket, pairs) {
            Ok(())
        } else {
            Err(Rule::WrongContents)
        }
    }
}

/// Whether a word's place fits its contents: EMPTY only where there are none.
fn is_placed<K, V>(word: u64, pairs: &[(K, V)]) -> bool
    ensures { IsTrue result ↔ (place_of word ≡ empty_place → pairs.now ≡ []) }
{
    place_of(word) != EMPTY_PLACE || pairs.is_empty()
}
