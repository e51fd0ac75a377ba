//! A session while nothing is read.

use crate::phase::Phase;
use std::marker::Model;
use web_frame::PackedFrame;

/// A session in no more memory than the bytes take that it holds. A clause sees it as the session.
#[derive(Drop)]
pub struct PackedSession {
    pub(crate) frame: PackedFrame,
    pub(crate) phase: Phase,
    pub(crate) before: u32,
}

impl Model for PackedSession {
    ghost use Rattle.std.specs.Prelude.{◌≡◌, true};
    ghost use Rattle.web_session.specs.State.{State, is_sound};

    ghost Value = { State };

    ghost view = { λ p. record { phase = p.phase; held = p.frame; before = p.before } };

    ghost invariant = { λ p. is_sound (record { phase = p.phase; held = p.frame; before = p.before }) ≡ true };
}
