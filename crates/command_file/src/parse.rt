//! From a line to the command that it says.
ghost use Rattle.std.specs.Prelude.{◌+◌, ◌<◌, ◌^◌, [], ◌∷◌, length, MatchOption};
ghost use Rattle.command_file.specs.declared.command.Command.{Command as command};
ghost use Rattle.command_file.specs.Grammar.{Says};
ghost use Rattle.command_file.specs.Words.{words_in, Reads};
ghost use Rattle.command_file.specs.Places.{PlacesWords, PlacesLine, IsLine};

use crate::place::Place;
use crate::verb::{Verb, alone_of, verb_of};
use crate::words::{one_word, split_once, three_words, two_words};

/// The most bytes of a line, without its LF.
pub(crate) const LONGEST_LINE: usize = 1024;

/// What a line says.
pub(crate) enum Line {
    /// Nothing: it is empty.
    Empty,
    /// A command, whose words lie so.
    Command(Place),
    /// It is neither empty nor a command.
    Bad,
}

/// What the line, given without its LF, says in a text in which it stands from this place on.
pub(crate) fn place_line(line: &[u8], from: usize) -> Line
    requires { from + length line.now < 2 ^ 63 }
    ensures { IsLine line.now from result }
{
    if line.is_empty() {
        return Line::Empty;
    }
    match place_command(line, from) {
        Some(place) => Line::Command(place),
        None => Line::Bad,
    }
}

fn place_command(line: &[u8], from: usize) -> Option<Place>
    requires { from + length line.now < 2 ^ 63 }
    ensures { MatchOption result ((c : command) → ¬ (Says line.now c)) (PlacesLine line.now from) }
{
    if line.len() > LONGEST_LINE {
        return None;
    }
    match split_once(line) {
        Some((first, rest)) => place_words(first, rest, from + (line.len() - rest.len())),
        None => place_word(line),
    }
}

/// A command of one word.
fn place_word(word: &[u8]) -> Option<Place>
    ensures { MatchOption result ((c : command) → ¬ (Reads (word.now ∷ []) c)) (λ p. PlacesWords (word.now ∷ []) [] 0 p) }
{
    match alone_of(word) {
        Some(verb) => Some(Place::Alone(verb)),
        None => None,
    }
}

/// A command that is a verb and the words behind it, which stand from this place on.
fn place_words(first: &[u8], rest: &[u8], from: usize) -> Option<Place>
    ensures { MatchOption result ((c : command) → ¬ (Reads (first.now ∷ words_in rest.now) c)) (PlacesWords (first.now ∷ words_in rest.now) rest.now from) }
{
    match verb_of(first)? {
        Verb::OfKey(verb) => {
            let key = one_word(rest)?;
            Some(Place::OfKey {
                verb,
                key: key.len() as u8,
                from,
            })
        }
        Verb::OfPair(verb) => {
            let (key, value) = two_words(rest)?;
            Some(Place::OfPair {
                verb,
                key: key.len() as u8,
                value: value.len() as u8,
                from,
            })
        }
        Verb::PutIf => {
            let (key, expected, value) = three_words(rest)?;
            Some(Place::PutIf {
                key: key.len() as u8,
                expected: expected.len() as u8,
                value: value.len() as u8,
                from,
            })
        }
    }
}
