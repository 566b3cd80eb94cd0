//! The value of a key at a time.
ghost use Rattle.std.specs.Prelude.{◌≡◌};
ghost use Rattle.std.specs.Option.{option_copied};
ghost use Rattle.key_commands.specs.Values.{live, bytes_of as bytes_in, deadline_of as deadline_in};
ghost use Rattle.key_commands.specs.Answers.{seen};

use commands::{is_expired, read_stored};

/// A value that is not expired.
#[derive(Clone, Copy)]
pub(crate) struct Live<'a> {
    /// In milliseconds since 1970, and 0 for none.
    pub(crate) deadline: u64,
    pub(crate) bytes: &'a [u8],
}

/// The value of a key that has these stored bytes. An expired one is none, and so are bytes too few for a deadline.
pub(crate) fn unexpired(now: u64, found: Option<&[u8]>) -> Option<Live<'_>>
    ensures { seen result ≡ live now (option_copied found.entry) }
{
    let Some(stored) = found else {
        return None;
    };
    let Some((deadline, bytes)) = read_stored(stored) else {
        return None;
    };
    if is_expired(deadline, now) {
        return None;
    }
    Some(Live { deadline, bytes })
}

/// The bytes, and none where there is no value.
pub(crate) fn bytes_of(value: Option<Live<'_>>) -> &[u8]
    ensures { result.now ≡ bytes_in (seen value.entry) }
{
    match value {
        Some(value) => value.bytes,
        None => b"",
    }
}

/// The deadline, which is none where there is no value.
pub(crate) fn deadline_of(value: Option<Live<'_>>) -> u64
    ensures { result ≡ deadline_in (seen value.entry) }
{
    match value {
        Some(value) => value.deadline,
        None => 0,
    }
}
