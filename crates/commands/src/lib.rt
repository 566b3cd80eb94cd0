//! What a request of a Redis client asks for: commands, read from a request's arguments, and the pure parts of what they do.
#![tactic(auto)]

mod arguments;
mod command;
mod connection;
mod fault;
mod introspection;
mod name;
mod number;
mod options;
mod parser;
mod pattern;
mod range;
mod refused_commands;
mod request_text;
mod scan;
mod server;
mod server_name;
mod special;
mod stored_value;
mod table;
mod time;

pub use arguments::Arguments;
pub use command::{Change, Command, Lifetime, Only, Where};
pub use connection::database_in;
pub use fault::CommandFault;
pub use name::{Name, OfKey, OfKeys, OfNothing, OfNumber, OfPair, Special};
pub use number::{add_to, whole_number};
pub use parser::read;
pub use pattern::matches;
pub use range::{Range, range_of};
pub use request_text::{Request, Shown};
pub use resp::Span;
pub use server::{ClientInfo, Greeting, Login, Scan, ServerCommand};
pub use server_name::{Container, OfServer, Subcommand};
pub use stored_value::{DEADLINE_LEN, is_expired, push_stored, read_stored};
pub use table::{COMMANDS, Entry, Flags, Group, Keys, Looks, Row, commands};
pub use time::{Clock, Time};
