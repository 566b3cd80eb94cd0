//! A name that was drawn for one bucket's contents.
ghost use Rattle.std.specs.Prelude.{◌≡◌, ◌<◌, ◌^◌};
ghost use Rattle.table_core.specs.BucketWords.{pack};
ghost use Rattle.table_core.specs.Lawful.{IsLawful};
ghost use Rattle.version_words.specs.Views.{IsName};

use crate::mark::Mark;
use crate::naming::Naming;
use crate::shut_right::Shut;
use crate::spare::Spare;
use crate::tally::Tally;
use far_object::FarObject;
use std::marker::Model;
use table_core::word::pack;

/// A name that was drawn for a bucket and its new contents, with the right to install it once. It can be neither copied nor
/// dropped: it has to be installed or given up. Contracts see its number, its bucket and the log in which it was drawn.
pub struct Name<K: FarObject, V: FarObject, J: Naming> {
    pub(crate) number: u64,
    pub(crate) bucket: u32,
    pub(crate) mark: Mark<K, V, J>,
    pub(crate) right: Tally,
}

impl<K: FarObject, V: FarObject, J: Naming> Model for Name<K, V, J> {
    ghost use Rattle.version_words.specs.Views.{NameView, IsName, IsRight, name_of_parts};

    ghost Value = { NameView K V };

    ghost view = { λ n. name_of_parts n.number n.bucket n.mark };

    ghost invariant = { λ n. IsName K.enc V.enc J.limits (name_of_parts n.number n.bucket n.mark) × IsRight J.names n.number n.right.board n.right.slot };
}

impl<K: FarObject, V: FarObject, J: Naming> Name<K, V, J> {
    /// The number, from 1.
    pub fn number(&self) -> u64
        ensures { result ≡ self.now.number }
    {
        self.number
    }

    /// The bucket that it was drawn for.
    pub fn bucket(&self) -> u32
        ensures { result ≡ self.now.bucket }
    {
        self.bucket
    }

    /// A mark of the log in which it was drawn.
    pub fn mark(&self) -> Mark<K, V, J>
        ensures front { result ≡ self.now.front }
        ensures named { IsName K.enc V.enc J.limits self.now }
    {
        self.mark.again()
    }

    /// Gives the right up: the word of this name and place never comes into its bucket.
    pub fn give_up(self, place: u32) -> Spare<K, V, J>
        requires place { place < 2 ^ 24 }
        ensures spare { result ≡ record { word = pack self.number place; bucket = self.bucket; front = self.front } }
    {
        let Name {
            number,
            bucket,
            mark,
            mut right,
        } = self;
        let shut = Shut::new(&mark.seen, &mut right);
        Spare::given_up(pack(number, place), bucket, mark, shut)
    }
}
