//! A file's lines as they were read, before they are parsed: files are read one after another, and may be parsed side by side.
ghost use Rattle.std.specs.Prelude.{◌≡◌, ◌≤◌, ◌++◌, ◌∷◌, ℕ, List, [], All, length, Ok, IfSome, IfOk, IfErr, OnOk, OnErr, OnSome};
ghost use Rattle.std.specs.Io.KnownBytes.{IsAtEnd};
ghost use Rattle.command_file.specs.Grammar.{IsCommand};
ghost use Rattle.command_file.specs.Lines.{lines_of};
ghost use Rattle.command_file.specs.Files.{IsFile, IsFileFault, IsNumbered};
ghost use Rattle.command_file.specs.Reading.{IsOfReading, TakesWhole};
ghost use Rattle.command_file.specs.Texts.{EndsSo};

use crate::fault::FileFault;
use crate::line::{LineRead, is_at_end, next_line};
use crate::part::MOST_LINES;
use crate::script::Script;
use crate::whole::whole_lines;
use std::alloc::Global;
use std::io::{BufRead, ErrorKind};
use std::marker::Model;
use std::thread::Threads;

/// The lines that were read of a file, and why the reading ended.
#[derive(Drop)]
pub struct FileText {
    // Each line, with an LF behind it.
    text: Vec<u8>,
    end: Result<(), FileFault>,
}

impl Model for FileText {
    ghost use Rattle.std.specs.Prelude.{IfErr};
    ghost use Rattle.command_file.specs.Lines.{lines_of};
    ghost use Rattle.command_file.specs.Files.{IsNumbered};
    ghost use Rattle.command_file.specs.Texts.{TextView};

    ghost Value = { TextView };

    ghost view = { λ t. record { lines = lines_of t.text.items; end = t.end } };

    ghost invariant = { λ t. IfErr t.end (λ fault. IsNumbered fault) };
}

/// Puts the line and an LF behind the text.
fn add(text: &mut Vec<u8>, line: &[u8]) -> Result<(), FileFault>
    ensures ok { OnOk result (text.new.items ≡ text.old.items ++ (line.now ++ 10 ∷ [])) }
    ensures err { OnErr result (text.new.items ≡ text.old.items) }
{
    text.reserve(line.len() + 1)?;
    text.extend_from_slice(line)?;
    text.push(b'\n')?;
    Ok(())
}

/// Puts the whole lines that the reader shows behind the text, no more than so many, and says how many they are.
fn take_shown<R: BufRead>(file: &mut R, text: &mut Vec<u8>, most: u32) -> Result<u32, FileFault>
    ensures lines { IfOk result (λ count. TakesWhole (R.remaining file.old) (R.remaining file.new) text.old.items text.new.items count) }
    ensures few { IfOk result (λ count. count ≤ most) }
    ensures err { OnErr result (text.new.items ≡ text.old.items) }
    ensures fault { IfErr result (λ fault. IsOfReading fault) }
{
    let shown = match file.fill_buf() {
        Ok(shown) => shown,
        Err(error) => {
            return if error.kind() == ErrorKind::Interrupted {
                Ok(0)
            } else {
                Err(FileFault::Read)
            };
        }
    };
    let (end, count) = whole_lines(shown, most);
    match text.extend_from_slice(&shown[..end]) {
        Ok(()) => {}
        Err(_) => return Err(FileFault::Memory),
    }
    file.consume(end);
    Ok(count)
}

/// Puts the reader's lines into the text, each with an LF behind it, up to the first that is too long, and no more than a
/// file may have. The whole lines that the reader shows are taken at once, and the one that it shows in part by itself.
fn take_lines<R: BufRead>(alloc: Global, file: &mut R, text: &mut Vec<u8>) -> Result<(), FileFault>
    requires new { text.old.items ≡ [] }
    ensures lines { IfSome (R.remaining file.old) (λ bytes. EndsSo (lines_of bytes) (lines_of text.new.items) result) }
    ensures end { OnOk result (OnSome (R.remaining file.old) (IsAtEnd (R.remaining file.new))) }
    ensures number { IfErr result (λ fault. IsNumbered fault) }
{
    let mut line = Vec::new(alloc);
    let mut count = 0;
    while count < MOST_LINES {
        let before = match take_shown(file, text, MOST_LINES - 1 - count) {
            Ok(more) => count + more,
            Err(fault) => return Err(fault),
        };
        let read = match next_line(file, &mut line) {
            Ok(read) => read,
            Err(fault) => return Err(fault),
        };
        match read {
            LineRead::End => return Ok(()),
            LineRead::TooLong => return Err(FileFault::BadLine(before + 1)),
            LineRead::Line => match add(text, line.as_slice()) {
                Ok(()) => count = before + 1,
                Err(_) => return Err(FileFault::Memory),
            },
        }
    }
    match is_at_end(file) {
        Ok(true) => Ok(()),
        Ok(false) => Err(FileFault::TooManyLines),
        Err(fault) => Err(fault),
    }
}

impl FileText {
    /// Reads the lines of a file, and parses none: it goes on behind a bad one.
    ///
    /// The reading stops at the first line that is too long, and behind the last that a file may have looks only whether there
    /// is one more byte. Where the reader then stands is said only where the reading ended without a fault.
    ///
    /// Its end is `FileFault::Read` where a read of the reader fails, other than by an interruption, after which it is tried
    /// again, and `FileFault::Memory` where a growth is refused. No clause says that they come nowhere else.
    pub fn read<R: BufRead>(alloc: Global, file: &mut R) -> FileText
        ensures lines { IfSome (R.remaining file.old) (λ bytes. EndsSo (lines_of bytes) result.lines result.end) }
        ensures end { OnOk result.end (OnSome (R.remaining file.old) (IsAtEnd (R.remaining file.new))) }
    {
        let mut text = Vec::new(alloc);
        let end = take_lines(alloc, file, &mut text);
        FileText { text, end }
    }

    /// The commands that the lines say. The fault of the first bad line comes before that with which the reading ended.
    pub fn parse(self, alloc: Global) -> Result<Script, FileFault>
        ensures said { IfOk result (λ script. (all : List (List ℕ)) → EndsSo all self.lines self.end → IsFile all script) }
        ensures end { IfOk result (λ _. self.end ≡ Ok tt) }
        ensures commands { IfOk result (λ script. All IsCommand script) }
        ensures fault { IfErr result (λ fault. (all : List (List ℕ)) → EndsSo all self.lines self.end → IsFileFault all fault) }
        ensures number { IfErr result (λ fault. IsNumbered fault) }
    {
        let FileText { text, end } = self;
        let script = match Script::of_text(alloc, text) {
            Ok(script) => script,
            Err(fault) => return Err(fault),
        };
        match end {
            Ok(()) => Ok(script),
            Err(fault) => Err(fault),
        }
    }

    /// As `parse`, and with its clauses, by several threads where the text is long: it is cut at ends of lines into up to four
    /// parts, which are parsed side by side, as far as threads can be started. That pays where other threads have nothing to do.
    ///
    /// `FileFault::BadLine` names the first bad line of the whole text. `FileFault::TooManyLines` and `FileFault::Read` come where
    /// the reading ended with them and the lines before are good, and `FileFault::Memory` so, too, or where a growth is refused:
    /// one of a part's list of commands, or that which puts two parts' lists together.
    pub fn parse_on_threads<R: Threads + Sync>(
        self,
        rt: &R,
        alloc: Global,
    ) -> Result<Script, FileFault>
        ensures said { IfOk result (λ script. (all : List (List ℕ)) → EndsSo all self.lines self.end → IsFile all script) }
        ensures end { IfOk result (λ _. self.end ≡ Ok tt) }
        ensures commands { IfOk result (λ script. All IsCommand script) }
        ensures fault { IfErr result (λ fault. (all : List (List ℕ)) → EndsSo all self.lines self.end → IsFileFault all fault) }
        ensures number { IfErr result (λ fault. IsNumbered fault) }
    {
        let FileText { text, end } = self;
        match (Script::of_text_on_threads(rt, alloc, text), end) {
            (Ok(script), Ok(())) => Ok(script),
            (Ok(_), Err(fault)) => Err(fault),
            (Err(fault), _) => Err(fault),
        }
    }
}

/// Reads a file and parses it: the commands that its lines say, in order. The faults are those of the two.
pub fn read_file<R: BufRead>(alloc: Global, file: &mut R) -> Result<Script, FileFault>
    // Where the reader tells its bytes.
    ensures said { IfOk result (λ script. IfSome (R.remaining file.old) (λ bytes. IsFile (lines_of bytes) script)) }
    ensures fault { IfErr result (λ fault. IfSome (R.remaining file.old) (λ bytes. IsFileFault (lines_of bytes) fault)) }
    ensures end { OnOk result (OnSome (R.remaining file.old) (IsAtEnd (R.remaining file.new))) }

    // At any reader.
    ensures commands { IfOk result (λ script. All IsCommand script) }
    ensures number { IfErr result (λ fault. IsNumbered fault) }
{
    match FileText::read(alloc, file).parse(alloc) {
        Ok(script) => Ok(script),
        Err(fault) => Err(fault),
    }
}
