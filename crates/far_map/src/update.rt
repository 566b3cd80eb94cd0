//! Updates: a new value is made from the current one.
ghost use Rattle.std.specs.Prelude.{◌≡◌, ◌≢◌, MatchBool};
ghost use Rattle.table_core.specs.Lent.{lent_value};
ghost use Rattle.far_map.specs.Updates.{IsTried, IsUpdated};

use crate::change_request::ChangeRequest;
use crate::refusal::MapRefusal;
use crate::room::MOST_TRIES;
use crate::session::Session;
use crate::values::Value;
use far_device::Device;
use far_object::{Text, equal_encodings_are_equal_values};
use std::sync::Wait;
use swapper::QueueNaming;
use version_words::Naming;

/// What an `update` did.
#[must_use = "an update may have changed nothing"]
#[derive(Drop)]
pub enum Updated<V: Value> {
    /// The value was set, to what was made of this one. `None` if the key had no value.
    Set(Option<V>),
    /// Nothing was made of this value, which the key has. `None` if it has no value.
    Left(Option<V>),
    /// At each of 1,000 tries another session changed the value meanwhile. The key is as the last of them
    /// left it.
    Overtaken,
}

/// Whether the two values are equal.
fn is_value<V: Value>(one: &V, other: &V) -> bool
    ensures { MatchBool result (other.now ≡ one.now) (other.now ≢ one.now) }
{
    one.admitted();
    other.admitted();
    equal_encodings_are_equal_values::<V>();
    one.compare(other).is_eq()
}

/// Whether both are `None`, or equal values.
fn are_same<V: Value>(one: &Option<V>, other: &Option<V>) -> bool
    ensures { MatchBool result (one.now ≡ other.now) (one.now ≢ other.now) }
{
    match (one, other) {
        (None, None) => true,
        (Some(one), Some(other)) => is_value(one, other),
        _ => false,
    }
}

impl<'m, V: Value, J: Naming, B: QueueNaming, D: Device> Session<'m, V, J, B, D> {
    /// One try. `None` if another session changed the value meanwhile.
    fn try_update<F: Fn(Option<&V>) -> Option<V>, R: Wait>(
        &mut self,
        rt: &R,
        key: &Text,
        make: &F,
    ) -> Result<Option<Updated<V>>, MapRefusal>
        requires { F.IsAlwaysCallable make.now }
        ensures { IsTried V.enc J.limits key.now (λ found made. (lent : _) × (lent_value lent ≡ found) × F.post make.now lent made) self.old self.new result }
    {
        let found = self.copy(rt, key)?;
        let Some(value) = make(found.as_ref()) else {
            return Ok(Some(Updated::Left(found)));
        };
        let before = self.ask(rt, &ChangeRequest::PutIf(key, found.as_ref(), &value))?;
        if are_same(&before, &found) {
            Ok(Some(Updated::Set(found)))
        } else {
            Ok(None)
        }
    }

    /// Sets the key to what is made of its value, in 1,000 tries at most.
    pub(crate) fn make_anew<F: Fn(Option<&V>) -> Option<V> + Drop, R: Wait>(
        &mut self,
        rt: &R,
        key: &Text,
        make: F,
    ) -> Result<Updated<V>, MapRefusal>
        requires { F.IsAlwaysCallable make }
        ensures { IsUpdated V.enc J.limits key.now (λ found made. (lent : _) × (lent_value lent ≡ found) × F.post make lent made) self.old self.new result }
    {
        for _ in 0..MOST_TRIES {
            match self.try_update(rt, key, &make)? {
                Some(updated) => return Ok(updated),
                None => {}
            }
        }
        Ok(Updated::Overtaken)
    }
}
