//! What stands at the front of the bytes of a client.

/// A request, the beginning of one, or neither.
#[derive(Clone, Copy, Debug, PartialEq, Eq)]
pub enum Parsed {
    /// A request, which takes so many bytes. One without arguments asks for nothing, and gets no reply.
    Request { consumed: usize },
    /// The beginning of one. So many bytes are enough, and no fewer are.
    Incomplete { missing: usize },
    /// No request goes on as these bytes do up to this place and with it.
    Malformed { at: usize, fault: ParseFault },
}

/// What is wrong with the byte at which bytes are no request's any more, as far as Redis tells it apart.
#[derive(Clone, Copy, Debug, PartialEq, Eq)]
pub enum ParseFault {
    /// Not the number of strings of an array, or more than the limit: "invalid multibulk length".
    ArrayLength,
    /// A string of an array begins with this byte, and not with `$`: "expected '$', got 'x'".
    Mark,
    /// Not the length of a string, or more bytes than the limit: "invalid bulk length".
    StringLength,
    /// No CR LF behind a string's bytes. Redis passes over these two, whatever they are.
    StringEnd,
    /// A line of words is longer than the limit: "too big inline request".
    LongLine,
    /// A quote in a line of words: "unbalanced quotes in request". Redis takes quotes that are balanced.
    Quote,
    /// A NUL, VT or FF in a line of words, at which Redis ends a line or a word in some places.
    Control,
}
