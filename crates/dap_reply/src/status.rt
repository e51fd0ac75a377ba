//! Statuses of replies.
ghost use Rattle.std.specs.Prelude.{◌≡◌};
ghost use Rattle.dap_reply.specs.Kind.{status_text};

/// What the first line of a reply says (RFC 9110, status codes).
#[derive(Clone, Copy)]
pub enum Status {
    Fine,
    BadRequest,
    NotFound,
    NotAllowed,
    TooLarge,
    HeadTooLarge,
}

impl Status {
    // What stands after the version in the first line.
    #[tactic(auto, unfolding(crate::specs::Kind::status_text))]
    pub(crate) fn text(self) -> &'static [u8]
        ensures { result.now ≡ status_text self }
    {
        match self {
            Status::Fine => b"200 OK",
            Status::BadRequest => b"400 Bad Request",
            Status::NotFound => b"404 Not Found",
            Status::NotAllowed => b"405 Method Not Allowed",
            Status::TooLarge => b"413 Content Too Large",
            Status::HeadTooLarge => b"431 Request Header Fields Too Large",
        }
    }
}
