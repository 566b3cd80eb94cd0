//! The words of the process, and what they ask for.
ghost use Rattle.std.specs.Prelude.{◌≡◌, ◌<◌, ◌≤◌, map, length, is_some, string_bytes, IfErr, IfSome};
ghost use Rattle.std.specs.List.{list_all};
ghost use Rattle.far_driver.specs.Arguments.{is_digit, number_of, are_files, are_arguments, AskFor};
ghost use Rattle.far_driver.specs.Statuses.{IsOfWords};

use crate::fault::RunFault;
use crate::status::ProgramFault;
use hash_table::Config;
use std::env;
use std::env::Env;
use std::io::ErrorKind;

/// The most decimal digits of a number among the arguments.
const MOST_DIGITS: usize = 7;

/// The most files.
const MOST_FILES: usize = 64;

/// The words behind the program's name.
///
/// `Usage` comes where a word, or the program's name, is no UTF-8 text: a path is text here. Want of memory is
/// `RunFault::Memory`.
pub fn read_words<R: Env + AllocGlobal>(rt: &R) -> Result<Vec<String>, ProgramFault>
    ensures fault { IfErr result IsOfWords }
{
    let all = match env::args(rt) {
        Ok(all) => all,
        Err(fault) if fault.kind() == ErrorKind::InvalidData => return Err(ProgramFault::Usage),
        Err(_) => return Err(ProgramFault::Run(RunFault::Memory)),
    };
    let mut words = Vec::new(rt.alloc());
    for word in all.skip(1) {
        if words.push(word).is_err() {
            return Err(ProgramFault::Run(RunFault::Memory));
        }
    }
    Ok(words)
}

/// Whether each byte is a decimal digit.
fn are_digits(text: &[u8]) -> bool
    ensures { result ≡ list_all is_digit text.now }
{
    text.iter().all(|byte| b'0' <= *byte && *byte <= b'9')
}

/// The number that one to seven decimal digits write.
fn number(text: &str) -> Option<u32>
    ensures { result ≡ number_of text.now }
{
    if text.is_empty() || text.len() > MOST_DIGITS {
        return None;
    }
    if !are_digits(text.as_bytes()) {
        return None;
    }
    text.parse::<u32>().ok()
}

/// What the arguments ask for.
#[derive(Drop)]
pub struct Arguments<'a> {
    /// The settings, with four lanes.
    pub config: Config,
    /// The names of the files; `-` is standard input.
    pub files: &'a [String],
}

/// Whether they are 1 to 64 names, and standard input is among them at most once.
fn are_files(names: &[String]) -> bool
    ensures { result ≡ are_files (map string_bytes names.now) }
{
    let inputs = names.iter().filter(|name| name.as_str() == "-").count();
    !names.is_empty() && names.len() <= MOST_FILES && inputs <= 1
}

/// The arguments `BUCKETS FRAMES LIMIT FILE...`: three numbers of one to seven decimal digits, and 1 to 64 files, of which one may be
/// `-`, standard input. None where the words are others.
pub fn read_arguments(words: &[String]) -> Option<Arguments<'_>>
    ensures arguments { is_some result ≡ are_arguments (map string_bytes words.now) }
    ensures asked { IfSome result (λ a. AskFor (map string_bytes words.now) a.config (length a.files.now)) }
    ensures few { IfSome result (λ a. (0 < length a.files.now) × (length a.files.now ≤ 64)) }
{
    match words {
        [buckets, frames, limit, files @ ..] => {
            let config = settings(
                number(buckets.as_str())?,
                number(frames.as_str())?,
                number(limit.as_str())?,
            );
            if are_files(files) {
                Some(Arguments { config, files })
            } else {
                None
            }
        }
        _ => None,
    }
}

/// The settings that the program runs with.
fn settings(buckets: u32, frames: u32, limit: u32) -> Config
    ensures { (result.buckets ≡ buckets) × (result.frames ≡ frames) × (result.limit ≡ limit) }
{
    Config {
        buckets,
        frames,
        limit,
        names: (1 << 40) - 1,
        passes: 65_535,
        lanes: 4,
        spares: 256,
        format: 2,
    }
}
