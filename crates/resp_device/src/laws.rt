//! A law of the definitions, as a function whose contract is the law.
ghost use Rattle.resp_device.specs.Wire.{KeysAreApart};

/// No two objects of a device have one key.
pub fn keys_are_apart()
    ensures { KeysAreApart }
{}
