//! The object of a word in its frame.
ghost use Rattle.std.specs.Prelude.{◌≡◌, IfOk};
ghost use Rattle.table_core.specs.BucketWords.{name_of};
ghost use Rattle.table_core.specs.Logs.{contents};
ghost use Rattle.version_words.specs.Views.{WasSeen};

use crate::table::FarTable;
use far_device::Device;
use far_object::FarObject;
use frame_cache::{Missed, Scope};
use table_core::word::name_of;
use version_words::{Naming, Pass, contents_stay, seen_stay};

impl<K: FarObject, V: FarObject, J: Naming, D: Device> FarTable<K, V, J, D> {
    /// Opens a scope on the version of a word, which stays in its frame until the scope is closed.
    ///
    /// The version's name (its number) was drawn in the one log of which the pass has seen a prefix too. So
    /// the version's object is the one that the pass knows under that name. Marks have no bytes, and joining
    /// the two costs nothing.
    pub(crate) fn enter_frame(
        &self,
        pass: &Pass<K, V, J>,
        b: u32,
        old: u64,
        frame: u32,
    ) -> Result<Scope<'_, K, V, J>, Missed>
        requires seen { WasSeen K.enc J.limits.buckets pass.now.front b old }
        ensures name { IfOk result (λ s. s.name ≡ name_of old) }
        ensures object { IfOk result (λ s. s.object ≡ contents pass.now.front (name_of old)) }
    {
        contents_stay::<K, V>();
        seen_stay::<K, V>();
        let scope = self.frames.enter(frame, name_of(old))?;
        let mut both = pass.mark();
        both.learn(scope.mark());
        Ok(scope)
    }
}
