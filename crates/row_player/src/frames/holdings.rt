//! What a caller of frames holds from line to line. What may not be dropped is spent where it is dropped.
use crate::holdings::Numbered;
use far_object::Text;
use frame_cache::{Owned, Reserved, Scope};
use version_words::Naming;

/// A frame that was reserved. Where it is dropped it is cancelled.
pub struct Taken<'a, J: Naming> {
    pub reserved: Reserved<'a, Text, Text, J>,
}

impl<'a, J: Naming> Taken<'a, J> {
    pub fn into_reserved(self) -> Reserved<'a, Text, Text, J> {
        let Taken { reserved } = self;
        reserved
    }
}

impl<'a, J: Naming> Drop for Taken<'a, J> {
    fn drop(self) {
        let Taken { reserved } = self;
        reserved.cancel();
    }
}

impl<'a, J: Naming> Numbered for Taken<'a, J> {
    fn number(&self) -> u64 {
        u64::from(self.reserved.frame())
    }
}

/// A scope, and the frame that it is on. Where it is dropped it is closed.
pub struct Open<'a, J: Naming> {
    pub scope: Scope<'a, Text, Text, J>,
    pub frame: u32,
}

impl<'a, J: Naming> Drop for Open<'a, J> {
    fn drop(self) {
        let Open { scope, frame: _ } = self;
        scope.close();
    }
}

impl<'a, J: Naming> Numbered for Open<'a, J> {
    fn number(&self) -> u64 {
        u64::from(self.frame)
    }
}

impl Numbered for Owned {
    fn number(&self) -> u64 {
        u64::from(self.frame())
    }
}
