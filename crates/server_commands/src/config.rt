//! CONFIG GET.
ghost use Rattle.std.specs.Prelude.{◌≡◌, ◌++◌, ◌≤◌, ◌*◌, length, count_by, OnOk, OnErr};
ghost use Rattle.server_commands.specs.Replying.{Replies, Grows, RepliesEven};

use crate::facts::{Options, policy};
use crate::reply_parts::{count_asked, put_count, put_string, restored};
use crate::slow_log::SLOW_COMMANDS;
use commands::{Arguments, matches};
use itoa::Buffer;
use std::alloc::AllocError;

/// What a setting is.
#[derive(Clone, Copy)]
enum Value {
    Number(u64),
    Signed(i64),
    Word(&'static str),
}

/// A setting, by its name in lower case.
#[derive(Clone, Copy)]
struct Setting {
    name: &'static str,
    value: Value,
}

const SETTINGS: usize = 12;

fn settings(options: &Options) -> [Setting; SETTINGS] {
    let number = |name, value| Setting {
        name,
        value: Value::Number(value),
    };
    let word = |name, value| Setting {
        name,
        value: Value::Word(value),
    };
    [
        number("maxmemory", options.most_memory),
        word("maxmemory-policy", policy(options.evicts)),
        number("maxclients", options.most_clients),
        number("timeout", options.timeout),
        number("proto-max-bulk-len", options.longest_value),
        number("port", u64::from(options.port)),
        number("io-threads", u64::from(options.workers)),
        number("databases", u64::from(options.databases)),
        Setting {
            name: "slowlog-log-slower-than",
            value: Value::Signed(options.slow),
        },
        number("slowlog-max-len", SLOW_COMMANDS as u64),
        word("save", ""),
        word("appendonly", "no"),
    ]
}

/// The pattern in lower case.
fn lowered<'a>(pattern: &'a [u8], scratch: &'a mut Vec<u8>) -> Result<&'a [u8], AllocError> {
    if !pattern.iter().any(|byte| byte.is_ascii_uppercase()) {
        return Ok(pattern);
    }
    scratch.clear();
    scratch.extend_from_slice(pattern)?;
    scratch.as_mut_slice().make_ascii_lowercase();
    Ok(scratch.as_slice())
}

fn mark(pattern: &[u8], settings: &[Setting], asked: &mut [bool]) {
    for (mark, setting) in asked.iter_mut().zip(settings) {
        if matches(pattern, setting.name.as_bytes()) {
            *mark = true;
        }
    }
}

/// Marks the settings whose names match one of the patterns.
fn mark_all(
    patterns: Arguments<'_>,
    settings: &[Setting],
    asked: &mut [bool],
    scratch: &mut Vec<u8>,
) -> Result<(), AllocError> {
    for index in 0..patterns.len() {
        if let Some(pattern) = patterns.get(index) {
            mark(lowered(pattern, scratch)?, settings, asked);
        }
    }
    Ok(())
}

fn put_value(value: Value, out: &mut Vec<u8>) -> Result<(), AllocError>
    ensures done { OnOk result (Replies 1 out.old.items out.new.items) }
    ensures grown { Grows out.old.items out.new.items }
{
    match value {
        Value::Word(word) => put_string(word.as_bytes(), out),
        Value::Number(number) => {
            let mut digits = Buffer::new();
            put_string(digits.format(number).as_bytes(), out)
        }
        Value::Signed(number) => {
            let mut digits = Buffer::new();
            put_string(digits.format(number).as_bytes(), out)
        }
    }
}

fn put_setting(setting: &Setting, out: &mut Vec<u8>) -> Result<(), AllocError>
    ensures done { OnOk result (Replies 2 out.old.items out.new.items) }
    ensures grown { Grows out.old.items out.new.items }
{
    put_string(setting.name.as_bytes(), out)?;
    put_value(setting.value, out)
}

/// Those of the settings that are asked for.
fn put_settings(settings: &[Setting], asked: &[bool], out: &mut Vec<u8>) -> Result<(), AllocError>
    requires same { length asked.now ≡ length settings.now }
    requires few { length settings.now ≤ SETTINGS }
    ensures done { OnOk result (RepliesEven out.old.items out.new.items) }
    ensures grown { Grows out.old.items out.new.items }
{
    put_count(2 * count_asked(asked), out)?;
    for (index, setting) in settings.iter().enumerate() {
        if asked[index] {
            put_setting(setting, out)?;
        }
    }
    Ok(())
}

/// CONFIG GET: an array of names of settings, in lower case, each followed by its value as a string. It has each setting
/// once whose name matches one of the patterns (`commands::matches`). Upper and lower case in a pattern are one. If memory is
/// refused, `out` is as before.
pub fn config_get(
    options: &Options,
    patterns: Arguments<'_>,
    out: &mut Vec<u8>,
) -> Result<(), AllocError>
    ensures done { OnOk result (RepliesEven out.old.items out.new.items) }
    ensures kept { OnErr result (out.new.items ≡ out.old.items) }
{
    let before = out.len();
    let settings = settings(options);
    let mut asked = [false; SETTINGS];
    let mut scratch = Vec::new(*out.allocator());
    mark_all(patterns, &settings, &mut asked, &mut scratch)?;
    let done = put_settings(&settings, &asked, out);
    restored(done, before, out)
}
