//! A text and CR LF, at the front of bytes.
ghost use Rattle.std.specs.Prelude.{◌≡◌, ◌≢◌, ◌<◌, ◌≤◌, ◌⊎◌, length, take, slice_index};
ghost use Rattle.std.specs.List.{AllByRecursion};
ghost use Rattle.resp.specs.Replies.{IsTextByte, IsTextOf};

/// What stands at the front of bytes.
#[derive(Clone, Copy)]
pub(crate) enum Text {
    /// A text of so many bytes.
    Whole(usize),
    /// The beginning of one; at least so many bytes are missing.
    Short(usize),
    /// No text that is short enough goes on as these bytes do up to this place and with it.
    Bad(usize),
}

/// How many bytes of a text stand at the front, where so many at most are looked at.
fn text_len(bytes: &[u8], most: usize) -> usize
    ensures within { result ≤ length bytes.now }
    ensures few { result ≤ most }
    ensures plain { AllByRecursion IsTextByte (take result bytes.now) }
    ensures end { result < length bytes.now → (result ≡ most) ⊎ ¬ (IsTextByte (slice_index bytes.now result)) }
{
    for at in 0..bytes.len() {
        if at == most {
            return at;
        }
        if bytes[at] == b'\r' {
            return at;
        }
        if bytes[at] == b'\n' {
            return at;
        }
    }
    bytes.len()
}

pub(crate) fn text_at(bytes: &[u8], most: usize) -> Text
    ensures { IsTextOf most bytes.now result }
{
    let at = text_len(bytes, most);
    if at == bytes.len() {
        return Text::Short(2);
    }
    if bytes[at] != b'\r' {
        return Text::Bad(at);
    }
    if at + 1 == bytes.len() {
        return Text::Short(1);
    }
    if bytes[at + 1] != b'\n' {
        return Text::Bad(at + 1);
    }
    Text::Whole(at)
}
