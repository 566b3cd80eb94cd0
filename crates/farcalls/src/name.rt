//! The names of requests.
ghost use Rattle.std.specs.Prelude.{◌≡◌, MatchOption};
ghost use Rattle.farcalls.specs.Requests.{text_of, IsNoName};

/// The first word of a request.
#[derive(Clone, Copy, PartialEq, Eq)]
pub(crate) enum Name {
    Get,
    GetMany,
    Contains,
    Put,
    Set,
    PutIf,
    PutNew,
    Remove,
    Take,
    RemoveIf,
    Pairs,
    Length,
    Stats,
    Evict,
}

/// The name that the word is. Names have capital letters.
pub(crate) fn name_of(word: &[u8]) -> Option<Name>
    ensures { MatchOption result (IsNoName word.now) (λ name. word.now ≡ text_of name) }
{
    if word == b"GET".as_slice() {
        Some(Name::Get)
    } else if word == b"MGET".as_slice() {
        Some(Name::GetMany)
    } else if word == b"HAS".as_slice() {
        Some(Name::Contains)
    } else if word == b"PUT".as_slice() {
        Some(Name::Put)
    } else if word == b"SET".as_slice() {
        Some(Name::Set)
    } else if word == b"PUTIF".as_slice() {
        Some(Name::PutIf)
    } else if word == b"PUTNEW".as_slice() {
        Some(Name::PutNew)
    } else if word == b"REMOVE".as_slice() {
        Some(Name::Remove)
    } else if word == b"TAKE".as_slice() {
        Some(Name::Take)
    } else if word == b"REMOVEIF".as_slice() {
        Some(Name::RemoveIf)
    } else if word == b"PAIRS".as_slice() {
        Some(Name::Pairs)
    } else if word == b"LEN".as_slice() {
        Some(Name::Length)
    } else if word == b"STATS".as_slice() {
        Some(Name::Stats)
    } else if word == b"EVICT".as_slice() {
        Some(Name::Evict)
    } else {
        None
    }
}
