//! Numbers that look random.

/// A linear congruential generator with Knuth's constants.
#[derive(Drop)]
pub(crate) struct Numbers {
    state: u64,
}

impl Numbers {
    pub(crate) fn new(state: u64) -> Numbers {
        Numbers { state }
    }

    /// The next number below 2^32.
    pub(crate) fn next(&mut self) -> u32 {
        self.state = self
            .state
            .wrapping_mul(6_364_136_223_846_793_005)
            .wrapping_add(1_442_695_040_888_963_407);
        (self.state >> 32) as u32
    }

    /// The next number below this, or zero where nothing is.
    pub(crate) fn small(&mut self, most: u32) -> u32 {
        let number = self.next();
        if most == 0 { 0 } else { number % most }
    }

    /// The same as a place.
    pub(crate) fn below(&mut self, most: usize) -> usize {
        let number = self.next() as usize;
        if most == 0 { 0 } else { number % most }
    }

    pub(crate) fn byte(&mut self) -> u8 {
        (self.next() & 255) as u8
    }

    /// The length of an object: mostly short, of each class up to 8 KiB, and rarely up to 128 KiB.
    pub(crate) fn length(&mut self) -> u32 {
        let most = if self.small(500) == 0 { 18 } else { 14 };
        let bits = self.small(most);
        self.small(1u32.checked_shl(bits).unwrap_or(1))
    }
}
