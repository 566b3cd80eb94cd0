//! The names of commands to the server itself, and of their subcommands.

use std::fmt;

/// A command to the server itself.
#[derive(Clone, Copy)]
pub enum OfServer {
    Auth,
    Hello,
    Select,
    Client,
    Command,
    Config,
    SlowLog,
    Info,
    Scan,
    FlushAll,
    FlushDb,
}

/// A command that another word names more closely.
#[derive(Clone, Copy)]
pub enum Container {
    Client,
    Command,
    Config,
    SlowLog,
}

/// A command with that word.
#[derive(Clone, Copy)]
pub enum Subcommand {
    ClientId,
    ClientGetName,
    ClientSetName,
    ClientSetInfo,
    ClientNoEvict,
    CommandCount,
    ConfigGet,
    SlowLogLen,
    SlowLogReset,
}

impl Container {
    /// The name in upper case.
    pub fn text(self) -> &'static str {
        match self {
            Container::Client => "CLIENT",
            Container::Command => "COMMAND",
            Container::Config => "CONFIG",
            Container::SlowLog => "SLOWLOG",
        }
    }
}

impl Subcommand {
    /// Both words in lower case.
    pub fn text(self) -> &'static str {
        match self {
            Subcommand::ClientId => "client|id",
            Subcommand::ClientGetName => "client|getname",
            Subcommand::ClientSetName => "client|setname",
            Subcommand::ClientSetInfo => "client|setinfo",
            Subcommand::ClientNoEvict => "client|no-evict",
            Subcommand::CommandCount => "command|count",
            Subcommand::ConfigGet => "config|get",
            Subcommand::SlowLogLen => "slowlog|len",
            Subcommand::SlowLogReset => "slowlog|reset",
        }
    }
}

impl fmt::Display for Container {
    fn fmt<W: fmt::Write>(&self, f: &mut fmt::Formatter<W>) -> fmt::Result {
        f.write_str(self.text())
    }
}

impl fmt::Display for Subcommand {
    fn fmt<W: fmt::Write>(&self, f: &mut fmt::Formatter<W>) -> fmt::Result {
        f.write_str(self.text())
    }
}
