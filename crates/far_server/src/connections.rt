//! The connections of a worker, each found by its number.
ghost use Rattle.std.specs.Prelude.{◌≡◌, ◌≢◌, ◌++◌, ℕ, List, Bool, IfOk};
ghost use Rattle.std.specs.List.{flat_map};
ghost use Rattle.resp.specs.Replies.{Token, token};
ghost use Rattle.commands.specs.Arguments.{listed};
ghost use Rattle.request_loop.specs.declared.service.Next.TheVariants as ends;
ghost use Rattle.far_server.specs.Answers.{Known, known_at, new_known, IsAdmission, IsAnswered};

use crate::connection::Connection;
use crate::context::{ServerContext, Workspace};
use crate::one_reply::push_one_failure;
use crate::refusal::text_of;
use crate::request::answer_request;
use commands::Arguments;
use far_blob::Blob;
use far_map::{Calls, MapRefusal};
use request_loop::Next;
use server_commands::Statistic;
use std::alloc::{AllocError, Global};
use std::collections::BTreeMap;
use std::rt::Clock;
use std::sync::Wait;

/// A copy of the address. It is empty if memory is refused for it.
fn copied(alloc: Global, address: &[u8]) -> Vec<u8> {
    match Vec::from_slice(alloc, address) {
        Ok(copy) => copy,
        Err(_) => Vec::new(alloc),
    }
}

/// Makes a place for the connection of this number, if it has none, and keeps the client's address there. A new
/// place counts as a connection that was opened.
pub(crate) fn make_place<C, R>(
    context: &ServerContext<'_, C, R>,
    connections: &mut BTreeMap<u64, Connection>,
    number: u64,
    workspace: &mut Workspace,
    is_authenticated: bool,
    address: &[u8],
) -> Result<(), AllocError>
    ensures known { (c : ℕ) → known_at connections.new.entries c (new_known is_authenticated) ≡ known_at connections.old.entries c (new_known is_authenticated) }
{
    if connections.contains_key(&number) {
        return Ok(());
    }
    let address = copied(context.alloc, address);
    let connection = Connection::new(context.alloc, context.next_id(), is_authenticated, address);
    match connections.insert(number, connection) {
        Ok(_) => {
            workspace.statistics.count(Statistic::ConnectionsOpened);
            Ok(())
        }
        Err(refused) => Err(refused.into()),
    }
}

/// How many bytes of memory the connection of this number takes in addition to a fixed part; 0 if it has no
/// place.
pub(crate) fn kept_for(connections: &BTreeMap<u64, Connection>, number: u64) -> u64 {
    match connections.get(&number) {
        Some(place) => place.keeps() as u64,
        None => 0,
    }
}

/// Forgets the connection of this number. Returns whether it had a place.
pub(crate) fn forget(connections: &mut BTreeMap<u64, Connection>, number: u64) -> bool
    ensures forgotten { (e : Known) → known_at connections.new.entries number e ≡ e }
    ensures others { (d : ℕ) (e : Known) → d ≢ number → known_at connections.new.entries d e ≡ known_at connections.old.entries d e }
{
    connections.remove(&number).is_some()
}

/// What the request loop does after a request. It lets a connection in that was not authenticated before and
/// is now, and lets one out that was and is not any more. If the connection ends, it only ends.
fn turned(might: bool, may: bool, next: Next) -> Next
    ensures admission { IsAdmission might may result }
    ensures end { (result ≡ ends.End → next ≡ ends.End) × (next ≡ ends.End → result ≡ ends.End) }
{
    match next {
        Next::End => Next::End,
        _ => {
            if might == may {
                Next::GoOn
            } else if may {
                Next::LetIn
            } else {
                Next::LetOut
            }
        }
    }
}

/// Answers a request of the connection of this number. A connection without a place is closed: there was no
/// memory for its place when it was opened.
pub(crate) fn answer_at<S: Calls<Blob>, C: Clock, R: Wait>(
    context: &ServerContext<'_, C, R>,
    me: &mut S,
    connections: &mut BTreeMap<u64, Connection>,
    number: u64,
    workspace: &mut Workspace,
    request: Arguments<'_>,
    reply: &mut Vec<u8>,
) -> Result<Next, AllocError>
    ensures answered { IfOk result (λ next. (rs : List Token) × (reply.new.items ≡ reply.old.items ++ flat_map token rs) × ((e : Known) → IsAnswered S.limits context.now.settings.now.digest_keys context.now.settings.now.password context.now.settings.now.bounds (known_at connections.old.entries number e) (known_at connections.new.entries number e) (listed request.entry) (S.shown me.old) (S.shown me.new) rs next)) }
    ensures told { IfOk result (λ next. (e : Known) → IsAdmission (known_at connections.old.entries number e).is_authenticated (known_at connections.new.entries number e).is_authenticated next) }
    ensures others { (d : ℕ) (e : Known) → d ≢ number → known_at connections.new.entries d e ≡ known_at connections.old.entries d e }
{
    match connections.get_mut(&number) {
        Some(place) => {
            workspace.statistics.count(Statistic::Commands);
            let might = place.is_authenticated;
            match answer_request(context, me, place, workspace, request, reply) {
                Ok(next) => Ok(turned(might, place.is_authenticated, next)),
                Err(refused) => Err(refused),
            }
        }
        None => match push_one_failure(reply, text_of(MapRefusal::Memory)) {
            Ok(()) => Ok(Next::End),
            Err(refused) => Err(refused),
        },
    }
}
