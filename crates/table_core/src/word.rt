//! A bucket's word: which name it installs, and the place where the name's contents lie.
ghost use Rattle.std.specs.Prelude.{◌≡◌, ◌<◌, ◌^◌};
ghost use Rattle.table_core.specs.BucketWords.{name_of, place_of, pack};

/// The place of contents without a pair.
pub const EMPTY_PLACE: u32 = 16_777_214;

/// The place of contents that lie on the device.
pub const FAR_PLACE: u32 = 16_777_215;

/// How many places there are.
const PLACES: u64 = 16_777_216;

/// The word of a name and a place.
pub fn pack(name: u64, place: u32) -> u64
    requires few_names { name < 2 ^ 40 }
    requires few_places { place < 2 ^ 24 }
    ensures word { result ≡ pack name place }
    ensures name { name_of result ≡ name }
    ensures place { place_of result ≡ place }
{
    name * PLACES + u64::from(place)
}

/// The name of a word.
pub fn name_of(word: u64) -> u64
    ensures name { result ≡ name_of word }
    ensures few { result < 2 ^ 40 }
{
    word / PLACES
}

/// The place of a word.
pub fn place_of(word: u64) -> u32
    ensures place { result ≡ place_of word }
    ensures few { result < 2 ^ 24 }
{
    (word % PLACES) as u32
}
