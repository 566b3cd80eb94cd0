//! INFO.
ghost use Rattle.std.specs.Prelude.{◌≡◌, ◌++◌, ℕ, List, OnOk, OnErr};
ghost use Rattle.resp.specs.Replies.{token, String};

use crate::facts::Facts;
use crate::page::{SECTIONS, Section};
use commands::Arguments;
use resp::push_string;
use std::alloc::AllocError;

/// Whether the word asks for every section.
fn is_for_all(word: &[u8]) -> bool {
    word.eq_ignore_ascii_case(b"default")
        || word.eq_ignore_ascii_case(b"all")
        || word.eq_ignore_ascii_case(b"everything")
}

/// Whether one of the words asks for the section, in upper or lower case; without a word, each is asked for.
fn is_asked_for(section: Section, words: Arguments<'_>) -> bool {
    for index in 0..words.len() {
        if let Some(word) = words.get(index)
            && (word.eq_ignore_ascii_case(section.heading().as_bytes()) || is_for_all(word))
        {
            return true;
        }
    }
    words.is_empty()
}

/// The sections, with an empty line between two.
fn push_page(facts: &Facts, words: Arguments<'_>, text: &mut Vec<u8>) -> Result<(), AllocError> {
    for section in SECTIONS {
        if is_asked_for(section, words) {
            if !text.is_empty() {
                text.extend_from_slice(b"\r\n")?;
            }
            section.push(facts, text)?;
        }
    }
    Ok(())
}

/// INFO: one string, with a line `name:value` for each fact, under the headings of the sections that are asked for, in the
/// order of the page. `sections` are names in upper or lower case, or `default`, `all` or `everything`; none asks for all, and
/// one that there is not is passed over. What each line has is tested. After want of memory `out` has what it had.
pub fn info(facts: &Facts, sections: Arguments<'_>, out: &mut Vec<u8>) -> Result<(), AllocError>
    ensures text { OnOk result ((text : List ℕ) × (out.new.items ≡ out.old.items ++ token (String text))) }
    ensures kept { OnErr result (out.new.items ≡ out.old.items) }
{
    let facts = Facts {
        statistics: facts.statistics.with_derived(),
        ..*facts
    };
    let mut text = Vec::new(*out.allocator());
    push_page(&facts, sections, &mut text)?;
    push_string(out, text.as_slice())
}
