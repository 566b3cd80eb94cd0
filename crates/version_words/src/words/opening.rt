//! A row is opened in two steps, since what proofs call it is known only once it is there.
ghost use Rattle.std.specs.Prelude.{◌≡◌, ◌+◌, IfOk};
ghost use Rattle.crossbeam_utils.specs.Padded.{padded_value};
ghost use Rattle.version_words.specs.Rows.{AreWords, AreWithin, word_at, limits_of, fresh};

use super::{RowWord, Words};
use crate::entry::{Answer, Entry};
use crate::mark::Mark;
use crate::naming::Naming;
use crate::rule::Law;
use crate::sizes::{Honesty, Sizes};
use crate::tally::start;
use crossbeam_utils::CachePadded;
use far_object::{FarObject, Memory};
use logbook::{Opening, Seen, Word};
use std::alloc::Global;
use std::marker::{Model, PhantomData};

/// The first log of a row.
struct Fresh<H> {
    of: PhantomData<H>,
}

impl<K, V, H: Honesty> Opening<Sizes, Entry<K, V>> for Fresh<H> {
    ghost use Rattle.version_words.specs.Rows.{fresh, limits_of};

    ghost log = { λ count sizes. fresh (limits_of sizes H.honest) };
}

/// A row that was opened and has no name yet. `H` says whether the contents of its words are vouched for. Contracts see what
/// proofs call it, and its sizes.
#[derive(Drop)]
pub struct Opened<K: FarObject, V: FarObject, H: Honesty> {
    sizes: Sizes,
    buckets: Vec<RowWord<K, V>>,
    names: CachePadded<RowWord<K, V>>,
    passes: CachePadded<RowWord<K, V>>,
    seen: Seen<Entry<K, V>, Answer<Entry<K, V>>, Law<K, V>>,
    of: PhantomData<H>,
    ghost buckets_are: { AreWords seen.book sizes.buckets buckets.items },
    ghost names_is: { padded_value names ≡ word_at seen.book sizes.buckets },
    ghost passes_is: { padded_value passes ≡ word_at seen.book (sizes.buckets + 1) },
    ghost fresh: { seen.log ≡ fresh (limits_of sizes H.honest) },
    ghost within: { AreWithin (limits_of sizes H.honest) },
}

impl<K: FarObject, V: FarObject, H: Honesty> Model for Opened<K, V, H> {
    ghost use Rattle.version_words.specs.Views.{OpenedView};

    ghost Value = { OpenedView };

    ghost view = { λ o. record { book = o.seen.book; names = o.seen.names; sizes = o.sizes } };
}

impl<K: FarObject, V: FarObject, H: Honesty> Opened<K, V, H> {
    /// A row of words for these sizes, all 0. `Memory` comes where its one allocation is refused.
    pub fn open(alloc: Global, sizes: Sizes) -> Result<Opened<K, V, H>, Memory>
        requires within { AreWithin (limits_of sizes H.honest) }
        ensures sizes { IfOk result (λ o. o.sizes ≡ sizes) }
    {
        let count = sizes.buckets as usize;
        let mut buckets = Vec::with_capacity(alloc, count)?;
        let (seen, mut pens) = Seen::open_row::<Sizes, Fresh<H>>(
            &sizes,
            start::<K, V, H>(&sizes),
            count + 2,
        );
        for _k in 0..count {
            let mut pen = pens.take();
            buckets.push(Word::tracked(0, &mut pen))?;
        }
        let mut names = pens.take();
        let mut passes = pens.take();
        Ok(Opened {
            sizes,
            buckets,
            names: CachePadded::new(Word::tracked(0, &mut names)),
            passes: CachePadded::new(Word::tracked(0, &mut passes)),
            seen,
            of: PhantomData,
        })
    }

    /// The words under a name, which the caller picks so that it fits.
    pub fn named<J: Naming>(self) -> Words<K, V, J>
        requires book { self.book ≡ J.book }
        requires boards { self.names ≡ J.names }
        requires limits { limits_of self.sizes H.honest ≡ J.limits }
    {
        let Opened {
            sizes,
            buckets,
            names,
            passes,
            seen,
            of: _,
        } = self;
        Words {
            sizes,
            buckets,
            names,
            passes,
            start: Mark {
                seen,
                of: PhantomData,
            },
        }
    }
}
