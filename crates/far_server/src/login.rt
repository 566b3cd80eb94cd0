//! Who may ask: AUTH, HELLO, and the limits of requests before the login.
ghost use Rattle.std.specs.Prelude.{◌≡◌, ◌⊎◌, ◌++◌, true, List, ℕ, MatchBool, MatchOption, IsTrue, IsFalse, OnOk, OnErr};
ghost use Rattle.std.specs.List.{flat_map};
ghost use Rattle.resp.specs.Replies.{Token, token};
ghost use Rattle.commands.specs.Arguments.{listed};
ghost use Rattle.server_commands.specs.Replying.{Replies};
ghost use Rattle.far_server.specs.Logins.{IsLogin, IsRight, AreShort, HasLong, IsModest, Exceeds, IsAuthReply, IsGreeted, IsHelloReply};

use crate::connection::Connection;
use crate::one_reply::{push_one_failure, push_one_simple};
use crate::refusal::text_of;
use crate::settings::ServerSettings;
use commands::{Arguments, Greeting, Login};
use far_map::MapRefusal;
use sha2::{Digest, Sha256};
use std::alloc::AllocError;

/// The reply to a command that needs a login first.
pub(crate) const NO_LOGIN: &[u8] = b"NOAUTH Authentication required.";

const NO_LOGIN_OF_HELLO: &[u8] =
    b"NOAUTH HELLO must be called with the client already authenticated, otherwise the HELLO <proto> AUTH <user> <pass> option can be used to authenticate the client and select the RESP protocol version at the same time";

const WRONG_LOGIN: &[u8] = b"WRONGPASS invalid username-password pair or user is disabled.";

const NO_PASSWORD: &[u8] =
    b"ERR AUTH <password> called without any password configured for the default user. Are you sure your configuration is correct?";

/// The most arguments of a request of an unauthenticated connection: what a login needs, and a few more.
const MOST_ARGUMENTS: usize = 10;

/// The most bytes of each argument of such a request.
const MOST_BYTES: usize = 16_384;

const MANY_ARGUMENTS: &[u8] = b"ERR Protocol error: unauthenticated multibulk length";

const LONG_ARGUMENT: &[u8] = b"ERR Protocol error: unauthenticated bulk length";

const LONG_NAME: &[u8] = b"ERR Client names cannot be longer than 1024 bytes.";

/// Whether each argument has at most as many bytes as an unauthenticated connection may send.
fn are_short(request: Arguments<'_>) -> bool
    ensures { MatchBool result (AreShort (listed request.entry)) (HasLong (listed request.entry)) }
{
    let mut rest = request;
    while let Some((argument, behind)) = rest.split_first() {
        if argument.len() > MOST_BYTES {
            return false;
        }
        rest = behind;
    }
    true
}

/// The error for a request that is larger than an unauthenticated connection may send. None if it is not.
pub(crate) fn excess_of(request: Arguments<'_>) -> Option<&'static [u8]>
    ensures { MatchOption result (IsModest (listed request.entry)) (λ text. Exceeds (listed request.entry) text.now) }
{
    if request.len() > MOST_ARGUMENTS {
        Some(MANY_ARGUMENTS)
    } else if are_short(request) {
        None
    } else {
        Some(LONG_ARGUMENT)
    }
}

/// Whether two digests are the same. It compares every byte, so the time that it takes reveals nothing about
/// them.
fn are_same(one: &[u8; 32], other: &[u8; 32]) -> bool
    ensures { IsTrue result → one.now ≡ other.now }
{
    let mut is_same = true;
    for at in 0..32 {
        is_same &= one[at] == other[at];
    }
    is_same
}

/// Whether a login is right. The only user is `default`. If no password is set, any password is right.
fn is_right(password: &Option<[u8; 32]>, login: Login<'_>) -> bool
    ensures { IsTrue result → IsLogin password.now login.entry.password.now }
{
    let is_user = match login.user {
        Some(user) => user == b"default".as_slice(),
        None => true,
    };
    match password {
        Some(digest) => are_same(digest, &Sha256::digest(login.password)) && is_user,
        None => is_user,
    }
}

/// Answers AUTH: authenticates the connection if the login is right. If no password is set, a login without a
/// user is an error.
pub(crate) fn answer_auth(
    settings: &ServerSettings,
    connection: &mut Connection,
    login: Login<'_>,
    reply: &mut Vec<u8>,
) -> Result<(), AllocError>
    ensures told { OnOk result ((rs : List Token) × (reply.new.items ≡ reply.old.items ++ flat_map token rs) × IsAuthReply settings.now.password login.entry connection.old.is_authenticated connection.new.is_authenticated rs) }
    ensures said { OnOk result (Replies 1 reply.old.items reply.new.items) }
    ensures kept { OnErr result (reply.new.items ≡ reply.old.items) }
    ensures login { connection.new.is_authenticated ≡ true → (connection.old.is_authenticated ≡ true) ⊎ IsLogin settings.now.password login.entry.password.now }
    ensures queue { connection.new.queue ≡ connection.old.queue }
    ensures selected { connection.new.selected ≡ connection.old.selected }
    ensures stays { connection.old.is_authenticated ≡ true → connection.new.is_authenticated ≡ true }
{
    if settings.password.is_none() && login.user.is_none() {
        return push_one_failure(reply, NO_PASSWORD);
    }
    if !is_right(&settings.password, login) {
        return push_one_failure(reply, WRONG_LOGIN);
    }
    connection.is_authenticated = true;
    push_one_simple(reply, b"OK")
}

/// Authenticates the connection by the login of a HELLO, if it has one. Returns whether it has none, or a right
/// one.
fn log_in(settings: &ServerSettings, connection: &mut Connection, login: Option<Login<'_>>) -> bool
    ensures may { (connection.new.is_authenticated ≡ connection.old.is_authenticated) ⊎ ((connection.new.is_authenticated ≡ true) × IsRight settings.now.password login.entry) }
    ensures queue { connection.new.queue ≡ connection.old.queue }
    ensures selected { connection.new.selected ≡ connection.old.selected }
    ensures stays { connection.old.is_authenticated ≡ true → connection.new.is_authenticated ≡ true }
    ensures kept { IsFalse result → connection.new.is_authenticated ≡ connection.old.is_authenticated }
{
    match login {
        Some(login) => {
            if !is_right(&settings.password, login) {
                return false;
            }
            connection.is_authenticated = true;
            true
        }
        None => true,
    }
}

/// Names the connection, if HELLO says how, and greets it. If it may not ask, or the name is refused, the reply
/// is an error.
fn greet(
    connection: &mut Connection,
    name: Option<&[u8]>,
    reply: &mut Vec<u8>,
) -> Result<(), AllocError>
    ensures told { OnOk result ((rs : List Token) × (reply.new.items ≡ reply.old.items ++ flat_map token rs) × IsGreeted connection.new.is_authenticated rs) }
    ensures said { OnOk result (Replies 1 reply.old.items reply.new.items) }
    ensures kept { OnErr result (reply.new.items ≡ reply.old.items) }
    ensures is_authenticated { connection.new.is_authenticated ≡ connection.old.is_authenticated }
    ensures queue { connection.new.queue ≡ connection.old.queue }
    ensures selected { connection.new.selected ≡ connection.old.selected }
{
    if !connection.is_authenticated {
        return push_one_failure(reply, NO_LOGIN_OF_HELLO);
    }
    if let Some(name) = name {
        match connection.set_name(name) {
            Ok(true) => {}
            Ok(false) => return push_one_failure(reply, LONG_NAME),
            Err(_) => return push_one_failure(reply, text_of(MapRefusal::Memory)),
        }
    }
    server_commands::hello(connection.id, reply)
}

/// Answers HELLO, which may log in and name the connection. If the name is refused, a login by the same HELLO
/// still holds.
pub(crate) fn answer_hello(
    settings: &ServerSettings,
    connection: &mut Connection,
    greeting: Greeting<'_>,
    reply: &mut Vec<u8>,
) -> Result<(), AllocError>
    ensures told { OnOk result ((rs : List Token) × (reply.new.items ≡ reply.old.items ++ flat_map token rs) × IsHelloReply settings.now.password greeting.entry connection.old.is_authenticated connection.new.is_authenticated rs) }
    ensures said { OnOk result (Replies 1 reply.old.items reply.new.items) }
    ensures kept { OnErr result (reply.new.items ≡ reply.old.items) }
    ensures login { connection.new.is_authenticated ≡ true → (connection.old.is_authenticated ≡ true) ⊎ IsRight settings.now.password greeting.entry.login }
    ensures queue { connection.new.queue ≡ connection.old.queue }
    ensures selected { connection.new.selected ≡ connection.old.selected }
    ensures stays { connection.old.is_authenticated ≡ true → connection.new.is_authenticated ≡ true }
{
    if !log_in(settings, connection, greeting.login) {
        return push_one_failure(reply, WRONG_LOGIN);
    }
    greet(connection, greeting.name, reply)
}

/// Answers CLIENT SETNAME. If the name is too long, or memory is refused for it, the reply is an error, and
/// the old name stays.
pub(crate) fn answer_set_name(
    connection: &mut Connection,
    name: &[u8],
    reply: &mut Vec<u8>,
) -> Result<(), AllocError>
    ensures said { OnOk result (Replies 1 reply.old.items reply.new.items) }
    ensures kept { OnErr result (reply.new.items ≡ reply.old.items) }
    ensures is_authenticated { connection.new.is_authenticated ≡ connection.old.is_authenticated }
    ensures queue { connection.new.queue ≡ connection.old.queue }
    ensures selected { connection.new.selected ≡ connection.old.selected }
{
    match connection.set_name(name) {
        Ok(true) => push_one_simple(reply, b"OK"),
        Ok(false) => push_one_failure(reply, LONG_NAME),
        Err(_) => push_one_failure(reply, text_of(MapRefusal::Memory)),
    }
}
