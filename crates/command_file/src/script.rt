//! The commands of a file, which stay in its text.
//!
//! # A command takes no memory until it is asked for
//!
//! A command with its texts takes more than twice as much memory as its line, in pieces of which each is asked for and given back
//! by itself. A file may have 65,536 of them, which wait until they are run. So a script keeps the file's text, which was read
//! in any case, and of each command where its words lie there: 16 bytes. The command itself is made when it is run, and given
//! back before the next.
ghost use Rattle.std.specs.Prelude.{◌≡◌, ◌<◌, ◌≤◌, All, length, slice_index_or, IfOk, IfErr};
ghost use Rattle.command_file.specs.Grammar.{IsCommand};
ghost use Rattle.command_file.specs.Lines.{lines_of};
ghost use Rattle.command_file.specs.Files.{most_lines, IsFile, IsFileFault, IsNumbered};
ghost use Rattle.command_file.specs.Parts.{PlacesLines};

use crate::command::Command;
use crate::fault::FileFault;
use crate::part::{Part, place_lines};
use crate::place::Place;
use crate::side_by_side::place_on_threads;
use far_object::Memory;
use std::alloc::Global;
use std::marker::Model;
use std::thread::Threads;

/// The commands of a file, in order. Contracts see the list of them.
#[derive(Drop)]
pub struct Script {
    text: Vec<u8>,
    places: Vec<Place>,
}

impl Model for Script {
    ghost use Rattle.std.specs.Prelude.{◌≤◌, List, length, map};
    ghost use Rattle.command_file.specs.declared.command.Command.{Command};
    ghost use Rattle.command_file.specs.Files.{most_lines};
    ghost use Rattle.command_file.specs.Places.{command_in, AreWithin};

    ghost Value = { List Command };

    ghost view = { λ s. map (command_in s.text.items) s.places.items };

    ghost invariant = { λ s. AreWithin (length s.text.items) s.places.items × (length s.places.items ≤ most_lines) };
}

impl Script {
    /// The commands of the text, which lie in it as those of its one part.
    fn of_part(text: Vec<u8>, part: Part) -> Script
        requires { PlacesLines text.items 0 part.places.items part.lines }
        ensures said { IsFile (lines_of text.items) result }
        ensures commands { All IsCommand result }
    {
        let Part { places, .. } = part;
        Script { text, places }
    }

    /// The commands that the text's lines say. `FileFault::BadLine` names the first that is bad, `FileFault::TooManyLines`
    /// comes where all that a file may have are good and there are more, and `FileFault::Memory` where a growth is refused.
    pub(crate) fn of_text(alloc: Global, text: Vec<u8>) -> Result<Script, FileFault>
        ensures said { IfOk result (λ script. IsFile (lines_of text.items) script) }
        ensures commands { IfOk result (λ script. All IsCommand script) }
        ensures fault { IfErr result (λ fault. IsFileFault (lines_of text.items) fault) }
        ensures number { IfErr result (λ fault. IsNumbered fault) }
    {
        match place_lines(alloc, text.as_slice(), 0) {
            Ok(part) => Ok(Script::of_part(text, part)),
            Err(fault) => Err(fault),
        }
    }

    /// The same, where a long text is cut into parts that are parsed side by side.
    pub(crate) fn of_text_on_threads<R: Threads + Sync>(
        rt: &R,
        alloc: Global,
        text: Vec<u8>,
    ) -> Result<Script, FileFault>
        ensures said { IfOk result (λ script. IsFile (lines_of text.items) script) }
        ensures commands { IfOk result (λ script. All IsCommand script) }
        ensures fault { IfErr result (λ fault. IsFileFault (lines_of text.items) fault) }
        ensures number { IfErr result (λ fault. IsNumbered fault) }
    {
        match place_on_threads(rt, alloc, text.as_slice()) {
            Ok(part) => Ok(Script::of_part(text, part)),
            Err(fault) => Err(fault),
        }
    }

    /// How many commands there are.
    pub fn len(&self) -> usize
        ensures count { result ≡ length self.now }
        ensures few { length self.now ≤ most_lines }
    {
        self.places.len()
    }

    /// The command at this place of the list. `Memory` comes where a growth is refused for its texts; one without a text takes
    /// none.
    pub fn command(&self, alloc: Global, at: usize) -> Result<Command, Memory>
        requires { at < length self.now }
        ensures { IfOk result (λ c. c ≡ slice_index_or self.now at c) }
    {
        self.places[at].command(alloc, self.text.as_slice())
    }
}
