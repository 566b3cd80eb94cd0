//! Bytes from outside, which may be anything: one walk that stops at the first fault. It takes no
//! memory, and no step goes past the bytes, whatever count they begin with.
ghost use Rattle.std.specs.Prelude.{◌≡◌, ◌≤◌, ◌||◌, List, length, drop, IfOk, IfErr, IsOkAnd, Some};
ghost use Rattle.std.specs.Ordering.{nat_cmp, is_lt};
ghost use Rattle.std.specs.Cmp.Lexicographic.{slice_cmp};
ghost use Rattle.far_object.specs.Encodings.{skipped, AreBytes};
ghost use Rattle.far_object.specs.Faults.{fault_of, placed_fault};
ghost use Rattle.far_object.specs.Formats.{spelling};
ghost use Rattle.far_object.specs.Objects.{object_of, IsMap};
ghost use Rattle.far_object.specs.declared.format.Format.{Format};

use crate::fault::ObjectFault;
use crate::format::object_start;
use crate::object::{MOST_PAIRS, Object};
use crate::traits::FarObject;

impl<K: FarObject, V: FarObject> Object<K, V> {
    /// The object that these bytes are in the first format, or their first fault and the bytes.
    ///
    /// `Short` comes where the count is cut, `CountWrong` where it is above 1,048,576. Then pair by
    /// pair `Short` in the key, `Disorder` where the key is not above the one before, `Short` in
    /// the value; and last `Trailing` where bytes are left. `Memory` and `Misplaced` never come.
    pub fn read(bytes: Vec<u8>) -> Result<Object<K, V>, (ObjectFault, Vec<u8>)>
        ensures spelled { IfOk result (λ o. bytes.items ≡ object_of K.enc V.enc o) }
        ensures map { IfOk result (λ o. IsMap K.enc K.admits V.admits o) }
        ensures only { (es : List (K × V)) → bytes.items ≡ object_of K.enc V.enc es → IsMap K.enc K.admits V.admits es → IsOkAnd result (λ o. o ≡ es) }
        ensures first { IfErr result (λ p. fault_of K.enc V.enc K.dec V.dec bytes.items ≡ Some p.0) }
        ensures kept { IfErr result (λ p. p.1.items ≡ bytes.items) }
    {
        Object::read_behind(bytes, 0)
    }

    /// The object that these bytes are in either format, for this bucket and name, or their first
    /// fault and the bytes.
    ///
    /// Where the bytes do not begin with `ffffffff` the faults are those of `read`. Else `Short`
    /// comes where the 16 bytes of the header are cut, and `Misplaced` where they give another
    /// bucket or another name; then the faults of `read` on what follows. `Memory` never comes.
    pub fn read_at(
        bytes: Vec<u8>,
        bucket: u32,
        name: u64,
    ) -> Result<Object<K, V>, (ObjectFault, Vec<u8>)>
        ensures spelled { IfOk result (λ o. (f : Format) × (bytes.items ≡ spelling K.enc V.enc f bucket name o)) }
        ensures map { IfOk result (λ o. IsMap K.enc K.admits V.admits o) }
        ensures only { (f : Format) (es : List (K × V)) → bytes.items ≡ spelling K.enc V.enc f bucket name es → IsMap K.enc K.admits V.admits es → IsOkAnd result (λ o. o ≡ es) }
        ensures first { IfErr result (λ p. placed_fault K.enc V.enc K.dec V.dec bucket name bytes.items ≡ Some p.0) }
        ensures kept { IfErr result (λ p. p.1.items ≡ bytes.items) }
    {
        match object_start(bytes.as_slice(), bucket, name) {
            Ok(start) => Object::read_behind(bytes, start),
            Err(fault) => Err((fault, bytes)),
        }
    }

    /// The object that the bytes are behind the first `start` of them, or its first fault and all
    /// the bytes.
    fn read_behind(bytes: Vec<u8>, start: usize) -> Result<Object<K, V>, (ObjectFault, Vec<u8>)>
        requires { start ≤ length bytes.items }
        ensures spelled { IfOk result (λ o. drop start bytes.items ≡ object_of K.enc V.enc o) }
        ensures map { IfOk result (λ o. IsMap K.enc K.admits V.admits o) }
        ensures only { (es : List (K × V)) → drop start bytes.items ≡ object_of K.enc V.enc es → IsMap K.enc K.admits V.admits es → IsOkAnd result (λ o. o ≡ es) }
        ensures first { IfErr result (λ p. fault_of K.enc V.enc K.dec V.dec (drop start bytes.items) ≡ Some p.0) }
        ensures kept { IfErr result (λ p. p.1.items ≡ bytes.items) }
    {
        let object = &bytes.as_slice()[start..];
        match first_fault::<K, V>(object) {
            Some(fault) => Err((fault, bytes)),
            None => Ok(Object::behind(bytes, start)),
        }
    }
}

/// How many bytes the value takes that the bytes begin with: no more than there are.
fn skip_within<T: FarObject>(bytes: &[u8]) -> Result<usize, ObjectFault>
    ensures is { result ≡ skipped T.enc (T.dec bytes.now) }
    ensures within { IfOk result (λ n. n ≤ length bytes.now) }
    ensures bytes { AreBytes bytes.now }
{
    T::skip(bytes)
}

/// Whether a key may follow: it is the first, or above the last.
fn may_follow(first: bool, last: &[u8], key: &[u8]) -> bool
    ensures { result ≡ first || is_lt (slice_cmp nat_cmp last.now key.now) }
{
    first || last.cmp(key).is_lt()
}

/// The first fault of an object's bytes.
fn first_fault<K: FarObject, V: FarObject>(bytes: &[u8]) -> Option<ObjectFault>
    ensures first { result ≡ fault_of K.enc V.enc K.dec V.dec bytes.now }
    ensures bytes { AreBytes bytes.now }
{
    if bytes.len() < 4 {
        return Some(ObjectFault::Short);
    }
    let count = u32::from_be_bytes([bytes[0], bytes[1], bytes[2], bytes[3]]);
    if MOST_PAIRS < count {
        return Some(ObjectFault::CountWrong);
    }
    let mut last: &[u8] = &[];
    let mut rest = &bytes[4..];
    for i in 0..count {
        let own = match skip_within::<K>(rest) {
            Ok(own) => own,
            Err(_) => return Some(ObjectFault::Short),
        };
        let (key, behind) = rest.split_at(own);
        if !may_follow(i == 0, last, key) {
            return Some(ObjectFault::Disorder);
        }
        let size = match skip_within::<V>(behind) {
            Ok(size) => size,
            Err(_) => return Some(ObjectFault::Short),
        };
        last = key;
        rest = &behind[size..];
    }
    if rest.is_empty() {
        None
    } else {
        Some(ObjectFault::Trailing)
    }
}
