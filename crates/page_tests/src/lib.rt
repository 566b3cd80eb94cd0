//! The programs that the pages print, as they print them, and what no case of `tests/cases` can say.
#![tactic(auto)]

#[cfg(test)]
mod tests;
