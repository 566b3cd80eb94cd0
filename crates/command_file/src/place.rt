//! Where the words of a command lie in a file's text: a command that takes no memory of its own.
ghost use Rattle.std.specs.Prelude.{◌≡◌, ◌+◌, ◌≤◌, length, IfOk};
ghost use Rattle.command_file.specs.Places.{part, command_in, end_of};

use crate::command::{Command, MapCommand};
use crate::verb::{Alone, OfKey, OfPair};
use far_object::{Memory, Text};
use std::alloc::Global;

/// A command's verb, the length of each of its texts, and where the first of them begins. Between two of them stands a byte.
/// The place comes last, so that a command takes 16 bytes.
#[derive(Clone, Copy)]
pub(crate) enum Place {
    Alone(Alone),
    OfKey {
        verb: OfKey,
        key: u8,
        from: usize,
    },
    OfPair {
        verb: OfPair,
        key: u8,
        value: u8,
        from: usize,
    },
    PutIf {
        key: u8,
        expected: u8,
        value: u8,
        from: usize,
    },
}

/// So many bytes of the text, from this place on.
fn copy(alloc: Global, text: &[u8], from: usize, count: u8) -> Result<Text, Memory>
    requires { from + count ≤ length text.now }
    ensures { IfOk result (λ t. t ≡ part text.now from count) }
{
    match Text::new(alloc, &text[from..from + usize::from(count)]) {
        Ok(text) => Ok(text),
        Err(_) => Err(Memory),
    }
}

impl Place {
    /// The command whose words lie so in the text.
    pub(crate) fn command(self, alloc: Global, text: &[u8]) -> Result<Command, Memory>
        requires { end_of self ≤ length text.now }
        ensures { IfOk result (λ c. c ≡ command_in text.now self) }
    {
        match self {
            Place::Alone(verb) => Ok(verb.command()),
            Place::OfKey { verb, key, from } => {
                let key = copy(alloc, text, from, key)?;
                Ok(verb.command(key))
            }
            Place::OfPair {
                verb,
                key,
                value,
                from,
            } => {
                let second = from + usize::from(key) + 1;
                let key = copy(alloc, text, from, key)?;
                let value = copy(alloc, text, second, value)?;
                Ok(verb.command(key, value))
            }
            Place::PutIf {
                key,
                expected,
                value,
                from,
            } => {
                let second = from + usize::from(key) + 1;
                let third = second + usize::from(expected) + 1;
                let key = copy(alloc, text, from, key)?;
                let expected = copy(alloc, text, second, expected)?;
                let value = copy(alloc, text, third, value)?;
                Ok(Command::Map(MapCommand::PutIf {
                    key,
                    expected,
                    value,
                }))
            }
        }
    }
}
