//! One command to one line.
ghost use Rattle.std.specs.Prelude.{◌≡◌, ◌<◌, ◌++◌, ◌∷◌, [], ℕ, List, length, decimal, slice_index_or, OnOk};
ghost use Rattle.command_file.specs.declared.command.Command.{Command as command};
ghost use Rattle.command_file.specs.declared.command.Command.TheVariants.{Map, Table};
ghost use Rattle.command_file.specs.declared.command.MapCommand.TheVariants.{Hold};
ghost use Rattle.run_lines.specs.Calls.{operation_of};
ghost use Rattle.run_lines.specs.Replies.{shown_text, released_text, held_past, IsEvictLine, IsPlaceLine, TellsTable};
ghost use Rattle.version_words.specs.Views.{Goes};
ghost use Rattle.far_object.specs.Encodings.{enc_text};
ghost use Rattle.far_map.specs.Answers.{Answers};
ghost use Rattle.threaded_run.specs.Replies.{said, shown, RunsOn};

use command_file::{Command, MapCommand, Script, TableCommand};
use far_map::{BucketState, Calls, Lack, MapRefusal};
use far_object::{Memory, Text};
use itoa::Buffer;
use run_lines::{LineRefusal as Reply, push_line, reply_text};
use std::alloc::Global;
use std::sync::Wait;

/// The reply for a refusal.
fn said(refusal: MapRefusal) -> Reply
    ensures { result ≡ said refusal }
{
    match refusal {
        MapRefusal::Memory => Reply::Memory,
        MapRefusal::TooLong => Reply::TooLong,
        MapRefusal::NamesSpent => Reply::NamesSpent,
        MapRefusal::Device => Reply::Device,
        MapRefusal::Damaged => Reply::Damaged,
        MapRefusal::Full(Lack::Spare) => Reply::LimboFull,
        MapRefusal::Full(Lack::Frame) => Reply::Full,
    }
}

/// The session's call for a command; a hold is a get here.
fn call<S: Calls<Text>, R: Wait>(
    rt: &R,
    me: &mut S,
    command: &MapCommand,
) -> Result<Option<Text>, MapRefusal>
    ensures answers { Answers enc_text S.limits (S.shown me.old) (S.shown me.new) (operation_of command.now) result }
    ensures limit { (S.shown me.new).limit ≡ (S.shown me.old).limit }
{
    match command {
        MapCommand::Put { key, value } => me.put(rt, key, value),
        MapCommand::Delete { key } => me.remove(rt, key),
        MapCommand::PutIf {
            key,
            expected,
            value,
        } => me.put_if(rt, key, Some(expected), value),
        MapCommand::PutNew { key, value } => me.put_if(rt, key, None, value),
        MapCommand::Get { key } => me.get(rt, key),
        MapCommand::Hold { key } => me.get(rt, key),
    }
}

/// Holds a key's value, where none is held, and adds the line.
fn hold<S: Calls<Text>, R: Wait>(
    rt: &R,
    me: &mut S,
    held: &mut Option<S::Held>,
    lines: &mut Vec<u8>,
    key: &Text,
) -> Result<(), Memory>
    ensures line { OnOk result ((line : List ℕ) × (lines.new.items ≡ lines.old.items ++ (line ++ 10 ∷ []))
        × RunsOn S.limits (S.shown me.old).limit (S.shown me.old).pass (S.shown me.new).pass (shown S.held held.old) (shown S.held held.new) (Map (Hold key.now)) line) }
    ensures limit { (S.shown me.new).limit ≡ (S.shown me.old).limit }
{
    if held.is_some() {
        me.settle(rt);
        return push_line(lines, Reply::HeldAlready.text());
    }
    match me.hold(rt, key) {
        Ok(None) => push_line(lines, b"none"),
        Ok(Some(value)) => {
            let pushed = push_line(lines, me.bytes_of(&value));
            if let Some(other) = held.replace(value) {
                me.let_go(other);
            }
            pushed
        }
        Err(refusal) => push_line(lines, said(refusal).text()),
    }
}

/// Runs a command that asks the map, and adds its line.
fn run_map<S: Calls<Text>, R: Wait>(
    rt: &R,
    me: &mut S,
    held: &mut Option<S::Held>,
    lines: &mut Vec<u8>,
    command: &MapCommand,
) -> Result<(), Memory>
    ensures line { OnOk result ((line : List ℕ) × (lines.new.items ≡ lines.old.items ++ (line ++ 10 ∷ []))
        × RunsOn S.limits (S.shown me.old).limit (S.shown me.old).pass (S.shown me.new).pass (shown S.held held.old) (shown S.held held.new) (Map command.now) line) }
    ensures limit { (S.shown me.new).limit ≡ (S.shown me.old).limit }
{
    if let MapCommand::Hold { key } = command {
        return hold(rt, me, held, lines, key);
    }
    match call(rt, me, command) {
        Ok(answer) => push_line(lines, reply_text(&Ok(answer))),
        Err(refusal) => push_line(lines, said(refusal).text()),
    }
}

/// The line of `evict`.
fn evict<S: Calls<Text>, R: Wait>(rt: &R, me: &mut S) -> &'static [u8]
    ensures goes { Goes (S.shown me.old).pass (S.shown me.new).pass }
    ensures limit { (S.shown me.new).limit ≡ (S.shown me.old).limit }
    ensures line { IsEvictLine result.now }
{
    match me.evict(rt) {
        Ok(true) => b"evicted",
        Ok(false) => b"nothing",
        Err(refusal) => said(refusal).text(),
    }
}

/// Adds a line of a place and a name.
fn push_place(lines: &mut Vec<u8>, place: &[u8], name: u64) -> Result<(), Memory>
    ensures { OnOk result (lines.new.items ≡ lines.old.items ++ ((place.now ++ decimal name) ++ 10 ∷ [])) }
{
    let mut digits = Buffer::new();
    lines.extend_from_slice(place)?;
    push_line(lines, digits.format(name).as_bytes())
}

/// Adds the line of `where`: where the bucket's object lies, and its name.
fn push_state(lines: &mut Vec<u8>, state: BucketState) -> Result<(), Memory>
    ensures { OnOk result ((line : List ℕ) × (lines.new.items ≡ lines.old.items ++ (line ++ 10 ∷ [])) × IsPlaceLine line) }
{
    match state {
        BucketState::Empty(name) => push_place(lines, b"empty ", name),
        BucketState::Local(name) => push_place(lines, b"local ", name),
        BucketState::Far(name) => push_place(lines, b"far ", name),
    }
}

/// Ends the hold, and gives its line.
fn release<S: Calls<Text>>(me: &S, held: &mut Option<S::Held>) -> &'static [u8]
    ensures line { result.now ≡ released_text (shown S.held held.old) }
    ensures held { shown S.held held.new ≡ shown S.held None }
{
    match held.take() {
        Some(value) => {
            // What is held has bytes.
            let _bytes = me.bytes_of(&value);
            me.let_go(value);
            b"released"
        }
        None => b"nothing held",
    }
}

/// Adds the line of `show`.
fn show<S: Calls<Text>>(me: &S, held: &Option<S::Held>, lines: &mut Vec<u8>) -> Result<(), Memory>
    ensures { OnOk result (lines.new.items ≡ lines.old.items ++ (shown_text (shown S.held held.now) ++ 10 ∷ [])) }
{
    match held {
        Some(value) => push_line(lines, me.bytes_of(value)),
        None => push_line(lines, b"nothing held"),
    }
}

/// Runs a command that asks the table, and adds its line.
fn run_table<S: Calls<Text>, R: Wait>(
    rt: &R,
    me: &mut S,
    held: &mut Option<S::Held>,
    lines: &mut Vec<u8>,
    command: &TableCommand,
) -> Result<(), Memory>
    ensures line { OnOk result ((line : List ℕ) × (lines.new.items ≡ lines.old.items ++ (line ++ 10 ∷ [])) × TellsTable command.now (shown S.held held.old) line) }
    ensures held { shown S.held held.new ≡ held_past command.now (shown S.held held.old) }
    ensures goes { Goes (S.shown me.old).pass (S.shown me.new).pass }
    ensures limit { (S.shown me.new).limit ≡ (S.shown me.old).limit }
{
    match command {
        TableCommand::Show => show(me, held, lines),
        TableCommand::Release => push_line(lines, release(me, held)),
        TableCommand::Evict => push_line(lines, evict(rt, me)),
        TableCommand::Where { key } => push_state(lines, me.where_is(key)),
    }
}

/// Runs a command, and adds its line and an LF. Behind one that made no call of the map, which would do so, the session sees to
/// what its calls have left. `Memory` comes where the line can't be stored; a part of it may stand then.
fn run_command<S: Calls<Text>, R: Wait>(
    rt: &R,
    me: &mut S,
    held: &mut Option<S::Held>,
    lines: &mut Vec<u8>,
    command: &Command,
) -> Result<(), Memory>
    ensures line { OnOk result ((line : List ℕ) × (lines.new.items ≡ lines.old.items ++ (line ++ 10 ∷ []))
        × RunsOn S.limits (S.shown me.old).limit (S.shown me.old).pass (S.shown me.new).pass (shown S.held held.old) (shown S.held held.new) command.now line) }
    ensures limit { (S.shown me.new).limit ≡ (S.shown me.old).limit }
{
    match command {
        Command::Map(command) => run_map(rt, me, held, lines, command),
        Command::Table(command) => {
            let pushed = run_table(rt, me, held, lines, command);
            me.settle(rt);
            pushed
        }
    }
}

/// Runs the script's command at this place, and adds its line and an LF. Where there is no memory for its texts it is refused.
/// `Memory` comes where the line can't be stored; a part of it may stand then.
pub(crate) fn run_at<S: Calls<Text>, R: Wait>(
    rt: &R,
    alloc: Global,
    me: &mut S,
    held: &mut Option<S::Held>,
    lines: &mut Vec<u8>,
    script: &Script,
    at: usize,
) -> Result<(), Memory>
    requires { at < length script.now }
    ensures line { OnOk result ((command : command) × (line : List ℕ) × (command ≡ slice_index_or script.now at command) × (lines.new.items ≡ lines.old.items ++ (line ++ 10 ∷ []))
        × RunsOn S.limits (S.shown me.old).limit (S.shown me.old).pass (S.shown me.new).pass (shown S.held held.old) (shown S.held held.new) command line) }
    ensures limit { (S.shown me.new).limit ≡ (S.shown me.old).limit }
{
    match script.command(alloc, at) {
        Ok(command) => run_command(rt, me, held, lines, &command),
        Err(Memory) => {
            me.settle(rt);
            push_line(lines, Reply::Memory.text())
        }
    }
}
