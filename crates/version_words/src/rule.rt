//! The rule of a row of words: each word holds what the log of events says, and the log is lawful.
//!
//! Beside the log lie two boards of tallies, which callers trade at each step: the calls of each pass, and the installs of
//! each name.

use crate::entry::{Answer, Entry};
use far_object::FarObject;
use logbook::{Play, Rule};
use std::marker::PhantomData;

/// The rule.
pub struct Law<K, V> {
    of: PhantomData<(K, V)>,
}

impl<K: FarObject, V: FarObject> Rule<Entry<K, V>, Answer<Entry<K, V>>> for Law<K, V> {
    ghost use Rattle.std.specs.Prelude.{[]};
    ghost use Rattle.version_words.specs.Rows.{IsKept};
    ghost use Rattle.version_words.specs.Tallies.{kept, Answered};

    ghost holds = { λ cells log. IsKept K.enc V.enc cells log };

    ghost first = { [] };

    ghost hinted = { λ n log. Unit {0} };

    ghost shows = { λ log. log };

    ghost keeps = { λ names log. kept names log };

    ghost moves = { λ ask before after answer. Answered ask before after answer };
}

/// A step that looks at a word.
pub struct Look<K, V> {
    of: PhantomData<(K, V)>,
}

impl<K: FarObject, V: FarObject> Play<Entry<K, V>, Answer<Entry<K, V>>> for Look<K, V> {
    ghost use Rattle.version_words.specs.Rows.{Looks};

    ghost then = { λ s v found w. Looks K.enc V.enc s v found w };
}

/// A step that adds an event.
pub struct Add<K, V> {
    of: PhantomData<(K, V)>,
}

impl<K: FarObject, V: FarObject> Play<Entry<K, V>, Answer<Entry<K, V>>> for Add<K, V> {
    ghost use Rattle.version_words.specs.Rows.{Adds};

    ghost then = { λ s v found w. Adds K.enc V.enc s v found w };
}
