//! What a command answers and what becomes of the value, before a byte of it is written.
ghost use Rattle.std.specs.Prelude.{◌≡◌};
ghost use Rattle.key_commands.specs.Answers.{said, written, outcome_of, line_text, refusal_text};
ghost use Rattle.key_commands.specs.Outcomes.{replies as replies_lem, fails as fails_lem, sets as sets_lem, removes as removes_lem};

/// A line of text that a command replies.
#[derive(Clone, Copy)]
pub(crate) enum Line {
    Ok,
    /// The type of a value.
    String,
    /// The type of a key without a value.
    None,
}

/// Why a command is not done, in Redis's words.
#[derive(Clone, Copy, Debug)]
pub(crate) enum CommandRefusal {
    /// The value would be longer than values may be.
    TooLong,
    /// The value is no whole number of 64 bits with a sign.
    NotWhole,
    /// The sum is no such number.
    Overflow,
    /// The value, or what is to be added to it, is no number.
    NotFloat,
    /// The sum is no finite number.
    NotFinite,
}

/// One reply.
#[derive(Clone, Copy)]
pub(crate) enum Reply<'a> {
    Nothing,
    Number(i64),
    String(&'a [u8]),
    Line(Line),
    Failure(CommandRefusal),
}

/// Bytes that a value is to have.
#[derive(Clone, Copy)]
pub(crate) enum Bytes<'a> {
    Given(&'a [u8]),
    /// One behind the other.
    Joined(&'a [u8], &'a [u8]),
    /// The old ones, with new ones written over them from a place on, and NUL where the old ones end before it.
    Over {
        old: &'a [u8],
        offset: u32,
        new: &'a [u8],
    },
    /// A number as it is spelled.
    Spelled(i64),
}

/// What becomes of a value.
#[derive(Clone, Copy)]
pub(crate) enum Fate<'a> {
    Stays,
    Becomes { deadline: u64, bytes: Bytes<'a> },
    Goes,
}

/// A reply, and what becomes of the value.
#[derive(Clone, Copy)]
pub(crate) struct Answer<'a> {
    pub(crate) reply: Reply<'a>,
    pub(crate) fate: Fate<'a>,
}

impl<'a> Answer<'a> {
    pub(crate) fn replies(reply: Reply<'a>) -> Answer<'a>
        ensures { outcome_of result ≡ replies_lem (said reply.entry) }
    {
        Answer {
            reply,
            fate: Fate::Stays,
        }
    }

    pub(crate) fn fails(refusal: CommandRefusal) -> Answer<'a>
        ensures { outcome_of result ≡ fails_lem (refusal_text refusal) }
    {
        Answer {
            reply: Reply::Failure(refusal),
            fate: Fate::Stays,
        }
    }

    pub(crate) fn sets(reply: Reply<'a>, deadline: u64, bytes: Bytes<'a>) -> Answer<'a>
        ensures { outcome_of result ≡ sets_lem (said reply.entry) deadline (written bytes.entry) }
    {
        Answer {
            reply,
            fate: Fate::Becomes { deadline, bytes },
        }
    }

    pub(crate) fn removes(reply: Reply<'a>) -> Answer<'a>
        ensures { outcome_of result ≡ removes_lem (said reply.entry) }
    {
        Answer {
            reply,
            fate: Fate::Goes,
        }
    }
}

impl Line {
    pub(crate) fn text(self) -> &'static [u8]
        ensures { result.now ≡ line_text self }
    {
        match self {
            Line::Ok => b"OK",
            Line::String => b"string",
            Line::None => b"none",
        }
    }
}

impl CommandRefusal {
    pub(crate) fn text(self) -> &'static [u8]
        ensures { result.now ≡ refusal_text self }
    {
        match self {
            CommandRefusal::TooLong =>
                b"ERR string exceeds maximum allowed size (proto-max-bulk-len)",
            CommandRefusal::NotWhole => b"ERR value is not an integer or out of range",
            CommandRefusal::Overflow => b"ERR increment or decrement would overflow",
            CommandRefusal::NotFloat => b"ERR value is not a valid float",
            CommandRefusal::NotFinite => b"ERR increment would produce NaN or Infinity",
        }
    }
}
