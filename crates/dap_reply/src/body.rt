//! What a reply carries behind its head.
ghost use Rattle.std.specs.Prelude.{◌≡◌};
ghost use Rattle.dap_reply.specs.Kind.{description_of, media_of};

use crate::status::Status;
use dap_plan::Plan;

/// What a body is: a structure text, an attribute text, data behind a structure text, or an Error (ESE-RFC-004).
#[derive(Clone, Copy)]
pub enum BodyKind {
    Structure,
    Attributes,
    Data,
    Error,
}

impl BodyKind {
    // The value of the header line `Content-Description`.
    #[tactic(auto, unfolding(crate::specs::Kind::description_of))]
    pub(crate) fn description(self) -> &'static [u8]
        ensures { result.now ≡ description_of self }
    {
        match self {
            BodyKind::Structure => b"dods_dds",
            BodyKind::Attributes => b"dods_das",
            BodyKind::Data => b"dods_data",
            BodyKind::Error => b"dods_error",
        }
    }

    // The value of the header line `Content-Type`.
    #[tactic(auto, unfolding(crate::specs::Kind::media_of))]
    pub(crate) fn media(self) -> &'static [u8]
        ensures { result.now ≡ media_of self }
    {
        match self {
            BodyKind::Data => b"application/octet-stream",
            _ => b"text/plain",
        }
    }
}

/// A body: what it is, and its bytes.
#[derive(Drop)]
pub struct Body {
    pub kind: BodyKind,
    pub bytes: Plan,
}

/// What is answered: a status and a body.
#[derive(Drop)]
pub struct Answer {
    pub status: Status,
    pub body: Body,
}
