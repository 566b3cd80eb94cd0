//! One key in an object, looked for once.
ghost use Rattle.std.specs.Prelude.{◌≡◌, ◌<◌, length, IfOk};
ghost use Rattle.std.specs.Map.{lookup};
ghost use Rattle.std.specs.BTreeMap.{is_at, insert_entry};
ghost use Rattle.far_object.specs.Buckets.{key_cmp};
ghost use Rattle.far_object.specs.Objects.{cut, most_pairs};

use crate::buffers::Buffers;
use crate::fault::Memory;
use crate::object::Object;
use crate::object::locate::Spot;
use crate::traits::FarObject;
use std::alloc::Global;
use std::marker::Model;

/// A key in an object, whether the object has it or not. It was looked for once: a caller who copies
/// its value and then makes the object with it or without it walks the pairs once. Contracts see the
/// object's pairs and the key.
#[derive(Drop)]
pub struct Entry<'a, K: FarObject, V: FarObject> {
    object: &'a Object<K, V>,
    key: &'a K,
    spot: Spot,
}

impl<'a, K: FarObject, V: FarObject> Model for Entry<'a, K, V> {
    ghost use Rattle.std.specs.Prelude.{◌≡◌};
    ghost use Rattle.far_object.specs.Objects.{Sought, sought};
    ghost use Rattle.far_object.specs.Spots.{spot_from};

    ghost Value = { Sought K V };

    ghost view = { λ e. sought e.object.now e.key.now };

    ghost invariant = { λ e. e.spot ≡ spot_from K.enc V.enc e.key.now 4 e.object.now };
}

impl<K: FarObject, V: FarObject> Object<K, V> {
    /// The key in this object. It looks at no pair behind the key's place, and takes no memory.
    pub fn entry<'a>(&'a self, key: &'a K) -> Entry<'a, K, V>
        ensures pairs { result.pairs ≡ self.now }
        ensures key { result.key ≡ key.now }
    {
        let spot = self.locate(key);
        Entry {
            object: self,
            key,
            spot,
        }
    }
}

impl<'a, K: FarObject, V: FarObject> Entry<'a, K, V> {
    /// A copy of the key's value, as `Object::value` gives it.
    pub fn value(&self, alloc: Global) -> Result<Option<V>, Memory>
        ensures { IfOk result (λ value. value ≡ lookup (is_at (key_cmp K.enc self.now.key)) self.now.pairs) }
    {
        self.object.value_at(alloc, self.key, self.spot)
    }

    /// The object with this value at the key, as `Object::with` gives it. The object must not be
    /// full (`MOST_PAIRS` pairs).
    pub fn with(&self, alloc: Global, value: &V) -> Result<Object<K, V>, Memory>
        requires { length self.now.pairs < most_pairs }
        ensures { IfOk result (λ o. o ≡ insert_entry (key_cmp K.enc) self.now.pairs self.now.key value.now) }
    {
        self.with_in(alloc, &mut Buffers::new(), value)
    }

    /// As `with`, in one of the buffers where the new object has room there.
    pub fn with_in(
        &self,
        alloc: Global,
        buffers: &mut Buffers,
        value: &V,
    ) -> Result<Object<K, V>, Memory>
        requires { length self.now.pairs < most_pairs }
        ensures { IfOk result (λ o. o ≡ insert_entry (key_cmp K.enc) self.now.pairs self.now.key value.now) }
    {
        self.object
            .with_at(alloc, buffers, self.key, self.spot, value)
    }

    /// The object without the key, as `Object::without` gives it.
    pub fn without(&self, alloc: Global) -> Result<Object<K, V>, Memory>
        ensures { IfOk result (λ o. o ≡ cut (key_cmp K.enc) self.now.key self.now.pairs) }
    {
        self.without_in(alloc, &mut Buffers::new())
    }

    /// As `without`, in one of the buffers where the new object has room there.
    pub fn without_in(&self, alloc: Global, buffers: &mut Buffers) -> Result<Object<K, V>, Memory>
        ensures { IfOk result (λ o. o ≡ cut (key_cmp K.enc) self.now.key self.now.pairs) }
    {
        self.object.without_at(alloc, buffers, self.key, self.spot)
    }
}
