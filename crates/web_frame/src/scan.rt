//! The end of a head, found byte by byte.
ghost use Rattle.std.specs.Prelude.{◌≡◌, Option, Some, None, IfNone, MatchOption, length, take};
ghost use Rattle.web_frame.specs.Scan as spec;

// The state of a reader after the bytes of a head that it has read.
#[derive(Clone, Copy)]
pub(crate) enum State {
    // Before the head, at the start of a line.
    Before,
    // There, after a CR.
    BeforeReturn,
    // Inside a line of the head.
    Inside,
    // After the LF that ended a line of the head.
    LineStart,
    // There, after a CR.
    LineReturn,
}

impl State {
    /// The state after a byte, or `None` where the byte ends the head.
    #[tactic(auto, unfolding(crate::specs::Scan::state_after))]
    pub fn after(self, byte: u8) -> Option<State>
        ensures { result ≡ spec.state_after self byte }
    {
        match (self, byte) {
            (State::LineStart | State::LineReturn, b'\n') => None,
            (State::Before | State::BeforeReturn, b'\n') => Some(State::Before),
            (State::Inside, b'\n') => Some(State::LineStart),
            (State::Before, b'\r') => Some(State::BeforeReturn),
            (State::LineStart, b'\r') => Some(State::LineReturn),
            _ => Some(State::Inside),
        }
    }

    /// How many of the bytes there are up to the end of the head. `None` where it doesn't end in them, and then this is
    /// the state after them.
    pub fn find_end(&mut self, bytes: &[u8]) -> Option<usize>
        ensures end { result ≡ spec.end_from self.old bytes.now }
        ensures state { IfNone result (spec.state_past self.old bytes.now ≡ Some self.new) }
    {
        for (i, byte) in bytes.iter().enumerate() {
            match self.after(*byte) {
                None => return Some(i + 1),
                Some(next) => *self = next,
            }
        }
        None
    }
}
