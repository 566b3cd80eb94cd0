//! A version while it is read.
ghost use Rattle.std.specs.Prelude.{◌≡◌, IfOk};
ghost use Rattle.version_words.specs.Shown.{IsOwn};

use crate::fault::Missed;
use crate::slot::SlotClaim;
use crate::version::Version;
use far_object::{FarObject, Object};
use std::marker::Model;
use version_words::{Mark, Naming};

/// A version that stays in its frame until this is closed. It has to be closed, in its own thread: it can be neither
/// dropped nor sent. Contracts see the version, which is the same at every look.
pub struct Scope<'a, K: FarObject, V: FarObject, J: Naming> {
    claim: SlotClaim<'a, K, V, J>,
}

impl<'a, K: FarObject, V: FarObject, J: Naming> Model for Scope<'a, K, V, J> {
    ghost use Rattle.std.specs.Prelude.{◌≡◌};
    ghost use Rattle.version_words.specs.Shown.{Shown};
    ghost use Rattle.frame_cache.specs.Slots.{IsFilled, shown_in};

    ghost Value = { Shown K V };

    ghost view = { λ s. shown_in s.claim.value };

    ghost invariant = { λ s. (s.claim.right ≡ 1) × IsFilled s.claim.value };
}

impl<'a, K: FarObject, V: FarObject, J: Naming> Scope<'a, K, V, J> {
    // The claim as a scope where its version has the name. Else the claim is left.
    pub(crate) fn compared(
        claim: SlotClaim<'a, K, V, J>,
        name: u64,
    ) -> Result<Scope<'a, K, V, J>, Missed>
        requires { claim.right ≡ 1 }
        ensures { IfOk result (λ s. s.name ≡ name) }
    {
        if let Some(lodged) = claim.get() {
            if lodged.version.name() == name {
                return Ok(Scope { claim });
            }
        }
        claim.leave();
        Err(Missed)
    }

    fn version(&self) -> &Version<K, V, J>
        ensures { result.now ≡ self.now }
    {
        match self.claim.get() {
            Some(lodged) => &lodged.version,
            None => unreachable!(),
        }
    }

    /// The object.
    pub fn object(&self) -> &Object<K, V>
        ensures object { result.now ≡ self.now.object }
        ensures own { IsOwn K.enc V.enc J.limits self.now }
    {
        self.version().object()
    }

    /// The bucket.
    pub fn bucket(&self) -> u32
        ensures { result ≡ self.now.bucket }
    {
        self.version().bucket()
    }

    /// The name, which is the one that was asked for.
    pub fn name(&self) -> u64
        ensures { result ≡ self.now.name }
    {
        self.version().name()
    }

    /// The mark of the log in which the name was drawn.
    pub fn mark(&self) -> &Mark<K, V, J>
        ensures mark { result.now ≡ self.now.mark }
        ensures own { IsOwn K.enc V.enc J.limits self.now }
    {
        self.version().mark()
    }

    /// Lets the frame go.
    pub fn close(self) {
        let Self { claim } = self;
        claim.leave();
    }
}
