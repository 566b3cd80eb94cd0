//! Parts of a request within an error's text.

use crate::arguments::Arguments;
use std::alloc::AllocError;
use std::fmt;

/// A request of a name that no command has. Its text is the name and the first arguments, each cut as Redis cuts them.
#[derive(Clone, Copy)]
pub struct Request<'a>(pub Arguments<'a>);

/// Bytes within an error's text: up to the first NUL, with blanks for CR and LF.
#[derive(Clone, Copy)]
pub struct Shown<'a>(pub &'a [u8]);

/// How many bytes of a name, or of all arguments together, an error shows.
const MOST_SHOWN: usize = 128;

impl<'a> Shown<'a> {
    /// The bytes before the first NUL, and at most so many.
    fn cut(self, most: usize) -> &'a [u8] {
        let end = self.0.iter().take(most).position(|byte| *byte == 0);
        &self.0[..end.unwrap_or(most).min(self.0.len())]
    }

    /// As much as an error shows of a name.
    pub(crate) fn short(self) -> Shown<'a> {
        Shown(self.cut(MOST_SHOWN))
    }

    /// Without CR and LF at the end, which Redis leaves out where a text ends.
    pub(crate) fn trimmed(self) -> Shown<'a> {
        let cut = self.cut(self.0.len());
        let kept = cut
            .iter()
            .rposition(|byte| *byte != b'\r' && *byte != b'\n');
        Shown(&cut[..kept.map_or(0, |last| last + 1)])
    }

    fn push_cut(self, most: usize, out: &mut Vec<u8>) -> Result<(), AllocError> {
        for byte in self.cut(most) {
            let shown = match *byte {
                b'\r' | b'\n' => b' ',
                other => other,
            };
            out.push(shown)?;
        }
        Ok(())
    }

    /// Puts the bytes between two texts, all behind what is there.
    pub(crate) fn push_between(
        self,
        front: &str,
        behind: &str,
        out: &mut Vec<u8>,
    ) -> Result<(), AllocError> {
        out.extend_from_slice(front.as_bytes())?;
        self.push_cut(self.0.len(), out)?;
        out.extend_from_slice(behind.as_bytes())
    }
}

impl Request<'_> {
    pub(crate) fn push_text(self, out: &mut Vec<u8>) -> Result<(), AllocError> {
        let Some((name, rest)) = self.0.split_first() else {
            out.extend_from_slice(b"'', with args beginning with: ")?;
            return Ok(());
        };
        out.push(b'\'')?;
        Shown(name).push_cut(MOST_SHOWN, out)?;
        out.extend_from_slice(b"', with args beginning with: ")?;
        let mut room = MOST_SHOWN;
        for index in 0..rest.len() {
            let Some(argument) = rest.get(index) else {
                break;
            };
            if room == 0 {
                break;
            }
            let shown = Shown(argument).cut(room).len();
            out.push(b'\'')?;
            Shown(argument).push_cut(room, out)?;
            out.extend_from_slice(b"' ")?;
            room = room.saturating_sub(shown.saturating_add(3));
        }
        Ok(())
    }
}

fn write_cut<W: fmt::Write>(
    shown: Shown<'_>,
    most: usize,
    f: &mut fmt::Formatter<W>,
) -> fmt::Result {
    for byte in shown.cut(most) {
        let letter = match *byte {
            b'\r' | b'\n' => ' ',
            other if other < 128 => char::from(other),
            _ => '\u{FFFD}',
        };
        f.write_char(letter)?;
    }
    Ok(())
}

impl fmt::Display for Shown<'_> {
    fn fmt<W: fmt::Write>(&self, f: &mut fmt::Formatter<W>) -> fmt::Result {
        write_cut(*self, self.0.len(), f)
    }
}

impl fmt::Display for Request<'_> {
    fn fmt<W: fmt::Write>(&self, f: &mut fmt::Formatter<W>) -> fmt::Result {
        let Some((name, rest)) = self.0.split_first() else {
            return f.write_str("'', with args beginning with: ");
        };
        f.write_char('\'')?;
        write_cut(Shown(name), MOST_SHOWN, f)?;
        f.write_str("', with args beginning with: ")?;
        let mut room = MOST_SHOWN;
        for index in 0..rest.len() {
            let Some(argument) = rest.get(index) else {
                break;
            };
            if room == 0 {
                break;
            }
            let shown = Shown(argument).cut(room).len();
            f.write_char('\'')?;
            write_cut(Shown(argument), room, f)?;
            f.write_str("' ")?;
            room = room.saturating_sub(shown.saturating_add(3));
        }
        Ok(())
    }
}
