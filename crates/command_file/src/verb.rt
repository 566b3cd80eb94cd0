//! The first words of commands, by how many words stand behind them.
ghost use Rattle.std.specs.Prelude.{◌≡◌, ◌≢◌, [], ◌∷◌, MatchOption};
ghost use Rattle.command_file.specs.declared.command.Command.{Command as command};
ghost use Rattle.command_file.specs.declared.verb.Verb.{Verb as of_texts};
ghost use Rattle.command_file.specs.Grammar.{words_of};
ghost use Rattle.command_file.specs.Words.{name_of, alone_name};
ghost use Rattle.command_file.specs.Places.{of_alone, of_key, of_pair};

use crate::command::{Command, MapCommand, TableCommand};
use far_object::Text;

/// A command of one word.
#[derive(Clone, Copy)]
pub(crate) enum Alone {
    Show,
    Release,
    Evict,
}

/// The first word of a command that has more.
#[derive(Clone, Copy)]
pub(crate) enum Verb {
    /// A key stands behind it.
    OfKey(OfKey),
    /// A key and a value do.
    OfPair(OfPair),
    /// `putif`: a key, the value that is expected of it, and a value do.
    PutIf,
}

#[derive(Clone, Copy)]
pub(crate) enum OfKey {
    Get,
    Delete,
    Hold,
    Where,
}

#[derive(Clone, Copy)]
pub(crate) enum OfPair {
    Put,
    PutNew,
}

/// The command that is this word and no more.
pub(crate) fn alone_of(word: &[u8]) -> Option<Alone>
    ensures { MatchOption result ((c : command) → words_of c ≢ word.now ∷ []) (λ a. word.now ≡ alone_name a) }
{
    if word == b"show".as_slice() {
        Some(Alone::Show)
    } else if word == b"release".as_slice() {
        Some(Alone::Release)
    } else if word == b"evict".as_slice() {
        Some(Alone::Evict)
    } else {
        None
    }
}

/// The verb that the word is.
pub(crate) fn verb_of(word: &[u8]) -> Option<Verb>
    ensures { MatchOption result ((v : of_texts) → word.now ≢ name_of v) (λ v. word.now ≡ name_of v) }
{
    if word == b"put".as_slice() {
        Some(Verb::OfPair(OfPair::Put))
    } else if word == b"get".as_slice() {
        Some(Verb::OfKey(OfKey::Get))
    } else if word == b"del".as_slice() {
        Some(Verb::OfKey(OfKey::Delete))
    } else if word == b"putif".as_slice() {
        Some(Verb::PutIf)
    } else if word == b"putnew".as_slice() {
        Some(Verb::OfPair(OfPair::PutNew))
    } else if word == b"hold".as_slice() {
        Some(Verb::OfKey(OfKey::Hold))
    } else if word == b"where".as_slice() {
        Some(Verb::OfKey(OfKey::Where))
    } else {
        None
    }
}

impl Alone {
    pub(crate) fn command(self) -> Command
        ensures { result ≡ of_alone self }
    {
        Command::Table(match self {
            Alone::Show => TableCommand::Show,
            Alone::Release => TableCommand::Release,
            Alone::Evict => TableCommand::Evict,
        })
    }
}

impl OfKey {
    pub(crate) fn command(self, key: Text) -> Command
        ensures { result ≡ of_key self key }
    {
        match self {
            OfKey::Get => Command::Map(MapCommand::Get { key }),
            OfKey::Delete => Command::Map(MapCommand::Delete { key }),
            OfKey::Hold => Command::Map(MapCommand::Hold { key }),
            OfKey::Where => Command::Table(TableCommand::Where { key }),
        }
    }
}

impl OfPair {
    pub(crate) fn command(self, key: Text, value: Text) -> Command
        ensures { result ≡ of_pair self key value }
    {
        Command::Map(match self {
            OfPair::Put => MapCommand::Put { key, value },
            OfPair::PutNew => MapCommand::PutNew { key, value },
        })
    }
}
