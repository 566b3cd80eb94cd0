//! What a machine holds.
ghost use Rattle.std.specs.Prelude.{◌≡◌, ◌<◌, ◌≤◌, List, MatchOption};
ghost use Rattle.table_core.specs.declared.event.Event.{Event};
ghost use Rattle.table_core.specs.Logs.{names_of, passes_of, contents, word};
ghost use Rattle.table_core.specs.Limits.{most_buckets};
ghost use Rattle.table_core.specs.Machines.{buckets_of, StandsAt};

use crate::machine::Machine;
use far_object::FarObject;

impl<K: FarObject, V: FarObject> Machine<K, V> {
    /// How many buckets there are.
    pub fn buckets(&self) -> u32
        ensures is { result ≡ buckets_of self.now }
        ensures some { 0 < result }
        ensures few { result ≤ most_buckets }
    {
        self.words.len() as u32
    }

    /// The last name that was drawn, and 0 before the first.
    pub fn names(&self) -> u64
        ensures { (log : List (Event K V)) → StandsAt K.enc V.enc self.now log → result ≡ names_of log }
    {
        self.names.len() as u64
    }

    /// The last pass that was drawn, and 0 before the first.
    pub fn passes(&self) -> u32
        ensures { (log : List (Event K V)) → StandsAt K.enc V.enc self.now log → result ≡ passes_of log }
    {
        self.passes
    }

    /// The word that stands in a bucket.
    pub fn current(&self, bucket: u32) -> u64
        requires { bucket < buckets_of self.now }
        ensures { (log : List (Event K V)) → StandsAt K.enc V.enc self.now log → result ≡ word K.enc (buckets_of self.now) log bucket }
    {
        self.words[bucket as usize]
    }

    /// The contents of a name: no pairs for the name 0, and none only for a name that was not drawn.
    pub fn contents(&self, name: u64) -> Option<&[(K, V)]>
        ensures { (log : List (Event K V)) → StandsAt K.enc V.enc self.now log → MatchOption result (names_of log < name) (λ pairs. (name ≤ names_of log) × (pairs.now ≡ contents log name)) }
    {
        if name == 0 {
            return Some(&[]);
        }
        match self.naming(name) {
            None => None,
            Some(naming) => Some(naming.1.as_slice()),
        }
    }
}
