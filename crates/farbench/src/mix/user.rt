//! One worker's calls.

use super::files::{calls_each, draw_at, key_at};
use crate::stopwatch::Runner;
use anyhow::Result;
use far_map::Calls;
use far_object::Text;
use std::alloc::Global;
use std::sync::Wait;

/// A session with its calls: the keys in their order, so that each is in the cache when it is called, and whether it is a get.
#[derive(Drop)]
pub struct User<'a, S: Calls<Text>> {
    me: &'a mut S,
    calls: Vec<(Text, bool)>,
    value: &'a Text,
}

impl<'a, S: Calls<Text>> User<'a, S> {
    /// One with the calls of this part of the draws, of which so many in a hundred are gets.
    pub fn new(
        alloc: Global,
        me: &'a mut S,
        keys: &[u8],
        value: &'a Text,
        draws: &[u8],
        part: u32,
        gets: u32,
    ) -> Result<User<'a, S>> {
        let count = calls_each(draws)? as usize;
        let mut calls = Vec::with_capacity(alloc, count)?;
        let first = (part as usize).wrapping_mul(count);
        for at in 0..count {
            let draw = draw_at(draws, first.wrapping_add(at))?;
            let key = key_at(alloc, keys, (draw & 0xff_ffff) as usize)?;
            calls.push((key, (draw >> 24) < gets))?;
        }
        Ok(User { me, calls, value })
    }
}

impl<S: Calls<Text>> Runner<()> for User<'_, S> {
    fn call<R: Wait>(&mut self, rt: &R, _shared: &(), number: u32) -> bool {
        let Some((key, is_get)) = self.calls.get(number as usize) else {
            return false;
        };
        if *is_get {
            matches!(self.me.get(rt, key), Ok(Some(_)))
        } else {
            self.me.put(rt, key, self.value).is_ok()
        }
    }
}
