//! Which version may end.
ghost use Rattle.std.specs.Prelude.{◌≡◌, MatchResult};
ghost use Rattle.table_core.specs.BucketWords.{name_of};

use crate::version::Version;
use far_object::{FarObject, Object};
use table_core::word::name_of;
use version_words::{Naming, Spare};

/// Ends the version exactly where it is the spare's: of the spare's bucket and of the name of its word. Its object is handed
/// out then, for another one can lie in the same memory. Else the version comes back.
pub fn retire<K: FarObject, V: FarObject, J: Naming>(
    version: Version<K, V, J>,
    spare: &Spare<K, V, J>,
) -> Result<Object<K, V>, Version<K, V, J>>
    ensures { MatchResult result
        (λ object. (object ≡ version.object) × (version.bucket ≡ spare.now.bucket) × (version.name ≡ name_of spare.now.word))
        (λ back. (back ≡ version) × ¬ ((version.bucket ≡ spare.now.bucket) × (version.name ≡ name_of spare.now.word))) }
{
    if version.bucket() == spare.bucket() && version.name() == name_of(spare.word()) {
        let Version {
            object,
            bucket: _,
            name: _,
            mark: _,
        } = version;
        return Ok(object);
    }
    Err(version)
}
