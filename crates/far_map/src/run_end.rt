//! What a run returns in addition to the workers' results.
ghost use Rattle.std.specs.Prelude.{MatchResult, ⊤};

use crate::values::Value;
use far_object::Text;
use far_pairs::Bundle;
use hash_table::{Stopped, TakesPairs};

/// Which end is asked for.
#[derive(Clone, Copy, Debug, PartialEq, Eq)]
pub enum End {
    /// All pairs, in key order.
    Pairs,
    /// All pairs, as the bytes that they are written as.
    Bundles,
    /// No pairs: they are handed to a taker, bucket after bucket.
    Buckets,
    /// No pairs.
    Nothing,
}

/// What the end returned.
#[derive(Drop)]
pub enum Given<V: Value> {
    Pairs(Vec<(Text, V)>),
    Bundles(Vec<Bundle<Text, V>>),
    Nothing,
}

/// The taker of a run that hands nothing over.
#[derive(Drop)]
pub(crate) struct NoTaker;

impl<V: Value> TakesPairs<Text, V> for NoTaker {
    ghost takes_none = { λ x. tt };

    ghost takes_both = { λ x y z first last one other. tt };

    fn take(&mut self, _pairs: Vec<(Text, V)>) -> Result<(), Stopped>
        ensures { MatchResult result (λ _. ⊤) (λ _. ⊤) }
    {
        Err(Stopped)
    }
}
