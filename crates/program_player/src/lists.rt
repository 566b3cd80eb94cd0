//! Pairs of the contents that are numbered, in lists.

use crate::mistake::Mistake;
use case_files::Line;
use far_object::Text;
use std::alloc::Global;

pub fn pair(alloc: Global, key: &[u8], value: &[u8]) -> Result<(Text, Text), Mistake> {
    Ok((Text::new(alloc, key)?, Text::new(alloc, value)?))
}

/// Pairs whose keys are these numbers, from the first up to the second.
pub fn numbered(alloc: Global, from: u64, to: u64) -> Result<Vec<(Text, Text)>, Mistake> {
    let mut pairs = Vec::new(alloc);
    for number in from..to {
        let text = format!(in alloc; "{number}")?;
        pairs.push(pair(alloc, text.as_bytes(), b"value")?)?;
    }
    Ok(pairs)
}

/// The numbers behind the call, with which the lists end.
pub fn ends_of(alloc: Global, line: &Line) -> Result<Vec<u64>, Mistake> {
    let mut ends = Vec::new(alloc);
    for at in 1..=line.count() {
        match line.number_at(at) {
            Some(end) if end <= 100_000 => ends.push(end)?,
            _ => return Err(Mistake::Call("lists end with numbers up to 100,000")),
        }
    }
    Ok(ends)
}

/// Lists that end with these numbers. One may be empty.
pub fn lists_of(alloc: Global, ends: &[u64]) -> Result<Vec<Vec<(Text, Text)>>, Mistake> {
    let mut lists = Vec::new(alloc);
    let mut from = 0;
    for to in ends {
        lists.push(numbered(alloc, from, *to)?)?;
        from = *to;
    }
    Ok(lists)
}
