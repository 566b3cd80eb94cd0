//! The frames of a table, as the hand asks them.

use crate::flags::FrameFlags;
use far_device::Device;
use far_object::FarObject;
use hash_table::{BucketState, Caller, FarTable};
use version_words::Naming;

/// So many frames of a table, asked one at a time through a caller. Of the answers nothing is claimed: by the next moment
/// another thread may have changed them.
#[derive(Drop)]
pub(crate) struct TableFrames<'a, K: FarObject, V: FarObject, J: Naming, D: Device> {
    pub(crate) table: &'a FarTable<K, V, J, D>,
    pub(crate) count: u32,
}

impl<'a, K: FarObject, V: FarObject, J: Naming, D: Device> FrameFlags<Caller<K, V, J>>
    for TableFrames<'a, K, V, J, D> {
    ghost use Rattle.std.specs.Prelude.{◌≡◌, false};
    ghost use Rattle.version_words.specs.Views.{Goes};

    ghost count = { λ s. s.count };

    ghost may_hold = { λ s f b. Unit {0} };

    ghost may_touch = { λ s f b. Unit {0} };

    ghost goes = { λ f a b. Goes a.pass b.pass × (b.limbo ≡ a.limbo) };

    ghost guess = { λ s f. false };

    // A frame that holds nothing, or what its bucket's word does not name, can't be swapped out.
    fn is_held(&self, state: &mut Caller<K, V, J>, frame: u32) -> bool {
        match self.table.frame_seen(frame) {
            Some((bucket, name)) => {
                self.table.state_of(state, bucket) != BucketState::Local(name)
            }
            None => true,
        }
    }

    fn is_touched(&self, frame: u32) -> bool {
        self.table.touched(frame)
    }

    ghost guessed = { λ s f. tt };
}
