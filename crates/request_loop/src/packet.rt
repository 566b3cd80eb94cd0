//! The head of a packet, which precedes its bytes.
ghost use Rattle.std.specs.Prelude.{◌≡◌};
ghost use Rattle.request_loop.specs.Packets.{most_bytes};

/// What a packet is for.
#[derive(Clone, Copy, Debug, PartialEq, Eq)]
pub enum Kind {
    /// Bytes that the client sent, or bytes for the client.
    Data,
    /// A client has connected. The bytes are its address as text. Only the gateway sends it.
    Open,
    /// The sender sends nothing more on the connection. The receiver answers with one, unless it has
    /// sent one already. Once both are sent, the connection is gone.
    Close,
    /// From the gateway: the service looks whether it has to leave. From the loop: wake all workers. It
    /// belongs to no connection.
    Wake,
    /// The connection is authenticated from now on. Only the loop sends it.
    LetIn,
    /// The connection is unauthenticated from now on. Only the loop sends it.
    LetOut,
    /// Text that belongs to no connection.
    Note,
    /// How many bytes of memory the server keeps for the connection now: a number of 8 bytes, the
    /// highest first. Only the loop sends it.
    Holds,
}

/// A packet's kind and connection.
#[derive(Clone, Copy, Debug, PartialEq, Eq)]
pub struct Head {
    pub kind: Kind,
    /// The connection's number. 0 if the packet belongs to none.
    pub connection: u64,
}

/// How many bytes a packet of the kind has at most.
pub(crate) fn most_of(kind: Kind) -> u32
    ensures { result ≡ most_bytes kind }
{
    match kind {
        Kind::Data => 1_048_576,
        Kind::Open => 64,
        Kind::Note => 4_096,
        Kind::Holds => 8,
        Kind::Close | Kind::Wake | Kind::LetIn | Kind::LetOut => 0,
    }
}
