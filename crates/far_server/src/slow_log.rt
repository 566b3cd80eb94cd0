//! SLOWLOG: the commands that took long, which all workers share. No contract claims anything about them.
//!
//! # What is measured
//!
//! `command::run` looks at the clock that never goes back before it runs a command, and again after it. So the
//! time is that of the command alone, without its way through pipes, as Redis counts it. Each command of an
//! EXEC is measured by itself. What never comes to `run` is not kept: requests that are no commands, and what
//! unauthenticated clients send.
//!
//! # What is kept
//!
//! The newest 128, each cut to what `server_commands::kept_arguments` keeps. AUTH, and a HELLO that logs in,
//! are kept without their arguments. A command is copied before the lock is taken, so a lock is held only for
//! as long as an entry is put in front of the others, or SLOWLOG GET copies its reply. If memory is refused
//! for an entry, there is no entry, and the command has its reply all the same.
ghost use Rattle.std.specs.Prelude.{◌≡◌, OnOk, OnErr};
ghost use Rattle.server_commands.specs.Replying.{Replies};

use crate::connection::Connection;
use crate::context::ServerContext;
use crate::news::push_fact;
use commands::{Arguments, Command, ServerCommand};
use server_commands::{SLOW_COMMANDS, SlowCommand, kept_arguments, slow_log_get};
use std::alloc::{AllocError, Global};
use std::rt::Clock;
use std::sync::{Mutex, Wait};
use std::time::Duration;

/// The address that is shown if a connection's own is not known.
const NO_ADDRESS: &[u8] = b"?:0";

/// The commands that are kept, the newest first.
#[derive(Drop)]
struct Kept {
    commands: Vec<SlowCommand>,
    /// The number of the next one.
    next: u64,
    /// How many slow commands there were, whether they are kept or not.
    count: u64,
    /// How many microseconds the slowest one took since `push_news` was last called, and its name. 0 if there
    /// was none.
    slowest: u64,
    slowest_name: Vec<u8>,
}

/// The slow commands of a server.
#[derive(Drop)]
pub(crate) struct SlowLog {
    /// From how many microseconds on a command is a slow one. None if none is.
    least: Option<u64>,
    kept: Mutex<Kept>,
}

/// Whether a command has a password among its arguments.
pub(crate) fn is_secret(command: &Command<'_>) -> bool {
    match command {
        Command::Server(ServerCommand::Auth(_)) => true,
        Command::Server(ServerCommand::Hello(greeting)) => greeting.login.is_some(),
        _ => false,
    }
}

/// What is kept of a command. Its number is not set yet.
fn slow_command(
    alloc: Global,
    connection: &Connection,
    request: Arguments<'_>,
    is_secret: bool,
    now: u64,
    took: u64,
) -> Result<SlowCommand, AllocError> {
    let arguments = kept_arguments(alloc, request, is_secret)?;
    let address = if connection.address.is_empty() {
        NO_ADDRESS
    } else {
        connection.address.as_slice()
    };
    let address = Vec::from_slice(alloc, address)?;
    let name = Vec::from_slice(alloc, connection.name.as_slice())?;
    Ok(SlowCommand {
        id: 0,
        began: now / 1_000,
        took,
        arguments,
        address,
        name,
    })
}

impl Kept {
    /// Puts a command in front of the others.
    fn put(&mut self, mut command: SlowCommand) {
        if command.took > self.slowest {
            self.slowest = command.took;
            self.slowest_name.clear();
            if let Some(name) = command.arguments.first() {
                let _ = self.slowest_name.extend_from_slice(name.as_slice());
            }
        }
        command.id = self.next;
        self.next = self.next.wrapping_add(1);
        if self.commands.len() >= SLOW_COMMANDS {
            let _ = self.commands.pop();
        }
        let _ = self.commands.insert(0, command);
    }
}

impl SlowLog {
    /// A log of commands that take `slow` microseconds or more, which is empty. If `slow` is below zero, no
    /// command is kept.
    pub(crate) fn new(alloc: Global, slow: i64) -> SlowLog {
        SlowLog {
            least: u64::try_from(slow).ok(),
            kept: Mutex::new(Kept {
                commands: Vec::new(alloc),
                next: 0,
                count: 0,
                slowest: 0,
                slowest_name: Vec::new(alloc),
            }),
        }
    }

    /// The time by a clock that never goes back. None if no command is kept, or if the clock can't be read.
    pub(crate) fn begin<C: Clock>(&self, clock: &C) -> Option<Duration> {
        match self.least {
            Some(_) => clock.monotonic().ok(),
            None => None,
        }
    }

    /// How many microseconds a command took that began at this time. None if it is not a slow one.
    fn time_since<C: Clock>(&self, began: Option<Duration>, clock: &C) -> Option<u64> {
        let (least, began) = (self.least?, began?);
        let took = clock.monotonic().ok()?.saturating_sub(began);
        let took = took.as_micros().min(u128::from(u64::MAX)) as u64;
        if took >= least { Some(took) } else { None }
    }

    /// Counts a command, and puts it in front of the others. The last one goes if there are too many. If memory
    /// was refused for the command, or is refused here, it is only counted.
    fn keep<R: Wait>(&self, rt: &R, command: Result<SlowCommand, AllocError>) {
        let mut kept = self.kept.lock(rt);
        kept.count = kept.count.wrapping_add(1);
        if let Ok(command) = command {
            kept.put(command);
        }
    }

    /// Pushes how many slow commands there were, and which was the slowest one since the last call.
    pub(crate) fn push_news<R: Wait>(
        &self,
        rt: &R,
        answer: &mut Vec<u8>,
    ) -> Result<(), AllocError> {
        let mut kept = self.kept.lock(rt);
        push_fact("slow", kept.count, answer)?;
        push_fact("slowest_us", kept.slowest, answer)?;
        answer.extend_from_slice(b" slowest=")?;
        answer.extend_from_slice(kept.slowest_name.as_slice())?;
        kept.slowest = 0;
        kept.slowest_name.clear();
        Ok(())
    }

    /// SLOWLOG LEN.
    pub(crate) fn len<R: Wait>(&self, rt: &R) -> u32 {
        self.kept.lock(rt).commands.len().min(SLOW_COMMANDS) as u32
    }

    /// SLOWLOG RESET.
    pub(crate) fn reset<R: Wait>(&self, rt: &R) {
        self.kept.lock(rt).commands.clear();
    }

    /// SLOWLOG GET of the newest `most` commands, or of all. If memory is refused, `reply` is as before.
    pub(crate) fn push<R: Wait>(
        &self,
        rt: &R,
        most: Option<u64>,
        reply: &mut Vec<u8>,
    ) -> Result<(), AllocError>
        ensures said { OnOk result (Replies 1 reply.old.items reply.new.items) }
        ensures kept { OnErr result (reply.new.items ≡ reply.old.items) }
    {
        let most = match most {
            Some(most) => most.min(SLOW_COMMANDS as u64) as usize,
            None => SLOW_COMMANDS,
        };
        let kept = self.kept.lock(rt);
        let all = kept.commands.as_slice();
        slow_log_get(&all[..all.len().min(most)], reply)
    }
}

/// Keeps a command that began at this time and is done now, if it took long.
pub(crate) fn note_slow<C: Clock, R: Wait>(
    context: &ServerContext<'_, C, R>,
    connection: &Connection,
    request: Arguments<'_>,
    is_secret: bool,
    now: u64,
    began: Option<Duration>,
) {
    let Some(took) = context.slow_log.time_since(began, context.clock) else {
        return;
    };
    let command = slow_command(context.alloc, connection, request, is_secret, now, took);
    context.slow_log.keep(context.rt, command);
}
