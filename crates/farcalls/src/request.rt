//! What a request asks for.
ghost use Rattle.std.specs.Prelude.{◌≡◌, ◌≢◌, ◌<◌, ◌^◌, ◌∷◌, [], ℕ, pos, ◌<ℤ◌, ◌≤ℤ◌, length, MatchBool, MatchOption};
ghost use Rattle.std.specs.Fmt.{signed_decimal};
ghost use Rattle.commands.specs.Arguments.{listed};
ghost use Rattle.farcalls.specs.Requests.{IsCounted, IsUnread, Spells, arguments_of};
ghost use Rattle.farcalls.specs.Requests.{name_of as name_in};
ghost use Rattle.farcalls.specs.declared.name.Name.TheVariants as names;

use crate::name::{Name, name_of};
use commands::{Arguments, whole_number};

/// A call of the map that a request asks for. Keys and values are lent from the bytes that arrived.
#[derive(Clone, Copy)]
pub(crate) enum Request<'a> {
    /// `GET key`: the value.
    Get(&'a [u8]),
    /// `MGET key..`: the values of the keys, in their order.
    GetMany(Arguments<'a>),
    /// `HAS key`: whether there is a value.
    Contains(&'a [u8]),
    /// `PUT key value`: sets the key, and replies the value before.
    Put(&'a [u8], &'a [u8]),
    /// `SET key value`: sets the key, and replies whether it had a value.
    Set(&'a [u8], &'a [u8]),
    /// `PUTIF key expected value`: sets the key if it has the expected value.
    PutIf(&'a [u8], &'a [u8], &'a [u8]),
    /// `PUTNEW key value`: sets the key if it has no value.
    PutNew(&'a [u8], &'a [u8]),
    /// `REMOVE key`: removes the key, and replies whether it had a value.
    Remove(&'a [u8]),
    /// `TAKE key`: removes the key, and replies its value.
    Take(&'a [u8]),
    /// `REMOVEIF key expected`: removes the key if it has the expected value.
    RemoveIf(&'a [u8], &'a [u8]),
    /// `PAIRS bucket`: the pairs of the first bucket from this one on that has some.
    Pairs(u32),
    /// `LEN`: how many pairs there are.
    Length,
    /// `STATS`: what the session has counted, and what is known of the map.
    Stats,
    /// `EVICT`: moves one object to a device.
    Evict,
}

/// Nothing, if there is no argument.
fn none(rest: Arguments<'_>) -> Option<()>
    ensures { MatchOption result (listed rest.entry ≢ []) (λ _. listed rest.entry ≡ []) }
{
    if rest.is_empty() { Some(()) } else { None }
}

/// The one argument, if there is exactly one.
fn one<'a>(rest: Arguments<'a>) -> Option<&'a [u8]>
    ensures { MatchOption result (length (listed rest.entry) ≢ 1) (λ a. listed rest.entry ≡ a.now ∷ []) }
{
    let (first, behind) = rest.split_first()?;
    if behind.is_empty() { Some(first) } else { None }
}

/// The two arguments, if there are exactly two.
fn two<'a>(rest: Arguments<'a>) -> Option<(&'a [u8], &'a [u8])>
    ensures { MatchOption result (length (listed rest.entry) ≢ 2) (λ a. listed rest.entry ≡ a.0.now ∷ a.1.now ∷ []) }
{
    let (first, behind) = rest.split_first()?;
    let second = one(behind)?;
    Some((first, second))
}

/// The three arguments, if there are exactly three.
fn three<'a>(rest: Arguments<'a>) -> Option<(&'a [u8], &'a [u8], &'a [u8])>
    ensures { MatchOption result (length (listed rest.entry) ≢ 3) (λ a. listed rest.entry ≡ a.0.now ∷ a.1.now ∷ a.2.now ∷ []) }
{
    let (first, behind) = rest.split_first()?;
    let (second, third) = two(behind)?;
    Some((first, second, third))
}

/// Whether a number is below 0.
fn is_negative(number: i64) -> bool
    ensures { MatchBool result (number <ℤ pos 0) (pos 0 ≤ℤ number) }
{
    number < 0
}

/// Whether a number is above those of buckets.
fn is_too_high(number: i64) -> bool
    ensures { MatchBool result ((pos 4294967295 <ℤ number) × (number <ℤ pos 9223372036854775808)) (number ≤ℤ pos 4294967295) }
{
    number > u32::MAX as i64
}

/// The number of a bucket, which is below 2^32. A number has one spelling.
fn bucket_in(text: &[u8]) -> Option<u32>
    ensures { MatchOption result ((bucket : ℕ) → bucket < 2 ^ 32 → text.now ≢ signed_decimal (pos bucket)) (λ bucket. text.now ≡ signed_decimal (pos bucket)) }
{
    let Some(number) = whole_number(text) else {
        return None;
    };
    if is_negative(number) {
        return None;
    }
    if is_too_high(number) {
        return None;
    }
    Some(number as u32)
}

/// The bucket, if that is the only argument.
fn bucket<'a>(rest: Arguments<'a>) -> Option<u32>
    ensures { MatchOption result (IsCounted names.Pairs (listed rest.entry) → ⊥) (λ bucket. listed rest.entry ≡ signed_decimal (pos bucket) ∷ []) }
{
    match one(rest) {
        Some(text) => bucket_in(text),
        None => None,
    }
}

/// The request of this name, if it has as many arguments as that.
fn of_name<'a>(name: Name, rest: Arguments<'a>) -> Option<Request<'a>>
    ensures { MatchOption result (IsCounted name (listed rest.entry) → ⊥) (λ r. (name_in r ≡ name) × (arguments_of r ≡ listed rest.entry)) }
{
    match name {
        Name::Get => Some(Request::Get(one(rest)?)),
        Name::GetMany => Some(Request::GetMany(rest)),
        Name::Contains => Some(Request::Contains(one(rest)?)),
        Name::Put => {
            let (key, value) = two(rest)?;
            Some(Request::Put(key, value))
        }
        Name::Set => {
            let (key, value) = two(rest)?;
            Some(Request::Set(key, value))
        }
        Name::PutIf => {
            let (key, expected, value) = three(rest)?;
            Some(Request::PutIf(key, expected, value))
        }
        Name::PutNew => {
            let (key, value) = two(rest)?;
            Some(Request::PutNew(key, value))
        }
        Name::Remove => Some(Request::Remove(one(rest)?)),
        Name::Take => Some(Request::Take(one(rest)?)),
        Name::RemoveIf => {
            let (key, expected) = two(rest)?;
            Some(Request::RemoveIf(key, expected))
        }
        Name::Pairs => Some(Request::Pairs(bucket(rest)?)),
        Name::Length => {
            none(rest)?;
            Some(Request::Length)
        }
        Name::Stats => {
            none(rest)?;
            Some(Request::Stats)
        }
        Name::Evict => {
            none(rest)?;
            Some(Request::Evict)
        }
    }
}

/// Reads a request. None if it has a name that no request has, or other arguments than that takes.
pub(crate) fn read<'a>(arguments: Arguments<'a>) -> Option<Request<'a>>
    ensures { MatchOption result (IsUnread (listed arguments.entry)) (λ r. Spells (listed arguments.entry) r) }
{
    let (word, rest) = arguments.split_first()?;
    let name = name_of(word)?;
    of_name(name, rest)
}
