//! The requests that wait for EXEC, and how much memory they take.
ghost use Rattle.std.specs.Prelude.{◌≡◌, ◌++◌, ◌∷◌, [], true, false, map, length, IfOk, OnOk, OnErr};
ghost use Rattle.resp.specs.Parsing.{AreWithin};
ghost use Rattle.commands.specs.Arguments.{listed};
ghost use Rattle.far_server.specs.Queues.{held, waiting};
ghost use Rattle.far_server.specs.Transactions.{waits_of};

use commands::{Arguments, Span};
use std::alloc::{AllocError, Global};

/// How many bytes an argument that waits takes in addition to its own: its span.
const COST: usize = 16;

/// How many bytes a request that waits takes in addition to its arguments: two lists, and what malloc keeps
/// for each.
const REQUEST: usize = 96;

/// A request that owns copies of its arguments.
#[derive(Drop)]
pub(crate) struct Request {
    bytes: Vec<u8>,
    spans: Vec<Span>,
}

impl Request {
    /// Adds an argument after the others.
    fn push(&mut self, argument: &[u8]) -> Result<(), AllocError>
        requires { AreWithin (length self.old.bytes.items) self.old.spans.items }
        ensures pushed { OnOk result (held self.new ≡ held self.old ++ argument.now ∷ []) }
        ensures within { OnOk result (AreWithin (length self.new.bytes.items) self.new.spans.items) }
    {
        let from = self.bytes.len();
        let len = argument.len();
        self.bytes.extend_from_slice(argument)?;
        self.spans.push(Span { from, len })?;
        Ok(())
    }

    /// A copy of a request.
    fn copy(alloc: Global, request: Arguments<'_>) -> Result<Request, AllocError>
        ensures { IfOk result (λ r. held r ≡ listed request.entry) }
    {
        let mut copy = Request {
            bytes: Vec::new(alloc),
            spans: Vec::new(alloc),
        };
        let mut rest = request;
        while let Some((argument, behind)) = rest.split_first() {
            copy.push(argument)?;
            rest = behind;
        }
        Ok(copy)
    }

    /// How many bytes of memory it takes.
    fn size(&self) -> usize {
        let spans = self.spans.capacity().saturating_mul(COST);
        let arguments = self.bytes.capacity().saturating_add(spans);
        arguments.saturating_add(REQUEST)
    }

    pub(crate) fn arguments(&self) -> Arguments<'_>
        ensures { listed result ≡ held self.now }
    {
        Arguments {
            bytes: self.bytes.as_slice(),
            spans: self.spans.as_slice(),
        }
    }
}

/// The requests that wait for EXEC, after a MULTI.
#[derive(Drop)]
pub(crate) struct Queue {
    requests: Vec<Request>,
    /// How many bytes of memory they take.
    bytes: usize,
    /// Whether one was refused, so that EXEC runs none.
    is_spoilt: bool,
}

impl Queue {
    pub(crate) fn new(alloc: Global) -> Queue
        ensures { waits_of result ≡ record { requests = []; is_spoilt = false } }
    {
        Queue {
            requests: Vec::new(alloc),
            bytes: 0,
            is_spoilt: false,
        }
    }

    pub(crate) fn is_spoilt(&self) -> bool
        ensures { result ≡ self.now.is_spoilt }
    {
        self.is_spoilt
    }

    pub(crate) fn spoil(&mut self)
        ensures { waits_of self.new ≡ record { requests = waiting self.old; is_spoilt = true } }
    {
        self.is_spoilt = true;
    }

    /// How many bytes of memory the requests take.
    pub(crate) fn bytes(&self) -> usize {
        self.bytes
    }

    /// Whether one more request may wait, if all that wait may take `most` bytes of memory.
    pub(crate) fn has_room(&self, request: Arguments<'_>, most: u32) -> bool {
        let mut bytes = self.bytes.saturating_add(REQUEST);
        for span in request.spans {
            bytes = bytes.saturating_add(span.len.saturating_add(COST));
        }
        bytes <= most as usize
    }

    /// Adds a copy of a request after the others. If memory is refused, those that wait stay as they were.
    pub(crate) fn push(&mut self, alloc: Global, request: Arguments<'_>) -> Result<(), AllocError>
        ensures pushed { OnOk result (waiting self.new ≡ waiting self.old ++ listed request.entry ∷ []) }
        ensures kept { OnErr result (waiting self.new ≡ waiting self.old) }
        ensures is_spoilt { self.new.is_spoilt ≡ self.old.is_spoilt }
    {
        let copy = Request::copy(alloc, request)?;
        let size = copy.size();
        self.requests.push(copy)?;
        self.bytes = self.bytes.saturating_add(size);
        Ok(())
    }

    pub(crate) fn requests(&self) -> &[Request]
        ensures { map (λ r. held r) result.now ≡ waiting self.now }
    {
        self.requests.as_slice()
    }
}
