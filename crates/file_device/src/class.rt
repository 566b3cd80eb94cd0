//! Which class of slots an object of some length is stored in.
ghost use Rattle.std.specs.Prelude.{◌≡◌, ◌≤◌, ◌*◌, ◌^◌};
ghost use Rattle.file_device.specs.Classes.{class_of};

/// How many classes of slots a disk has.
pub const CLASSES: usize = 21;

/// How many bytes a slot of class 0 has.
pub(crate) const SMALLEST: u32 = 64;

/// How many bytes an object has at most: 64 MiB, as many as a slot of the last class.
pub(crate) const LONGEST: usize = 1 << 26;

/// The smallest class whose slots have room for this many bytes.
pub(crate) fn class_of(len: u32) -> u8
    requires { len ≤ 2 ^ 26 }
    ensures value { result ≡ class_of len }
    ensures known { result ≤ 20 }
    ensures fits { len ≤ 64 * 2 ^ result }
{
    let whole = len.saturating_sub(1) / SMALLEST;
    (32 - whole.leading_zeros()) as u8
}
