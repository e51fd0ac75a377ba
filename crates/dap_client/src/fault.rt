//! What may be wrong with a reply, and why a reply wasn't pulled.
ghost use Rattle.std.specs.Prelude.{◌≡◌};
ghost use Rattle.dap_client.specs.Code.{client_code};

use fm_base::NoMemory;

/// What is wrong with a reply.
#[derive(Clone, Copy)]
pub enum ClientFault {
    /// The body spells no message. The offset is the greatest up to which some message begins so.
    BadData(u64),
    /// The first 16,384 bytes have no end of a head, or the bytes up to it aren't one head of at most 64 lines.
    BadHead,
    /// The head doesn't say how long the body is.
    NoLength,
    /// The length of a body over the limit.
    TooLong(u64),
    /// The status of a reply that isn't 200.
    Status(u16),
    /// How many bytes came before the input ended, too early.
    ReplyEnded(u64),
}

/// Why a reply wasn't pulled.
#[derive(Clone, Copy)]
pub enum PullEnd {
    NoMemory,
    /// A call of the link failed.
    LinkFault,
    Fault(ClientFault),
}

impl From<NoMemory> for PullEnd {
    ghost use Rattle.std.specs.Prelude.{◌≡◌};
    ghost use Rattle.dap_client.specs.declared.fault.PullEnd.TheVariants as ends;

    ghost from_gives = { λ _ end. end ≡ ends.NoMemory };

    fn from(_error: NoMemory) -> PullEnd {
        PullEnd::NoMemory
    }
}

impl ClientFault {
    /// The number by which the fault is reported.
    pub fn code(self) -> u16
        ensures { result ≡ client_code self }
    {
        match self {
            ClientFault::BadData(_) => 81,
            ClientFault::BadHead => 82,
            ClientFault::NoLength => 83,
            ClientFault::TooLong(_) => 84,
            ClientFault::Status(_) => 85,
            ClientFault::ReplyEnded(_) => 86,
        }
    }
}
