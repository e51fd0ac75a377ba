//! A link of a door that is out.

use crate::revisions::Revisions;
use srv_action::Doing;
use web_session::Session;

/// A link of a door that is out: its session, what is being done, and of each collection the revision of the last
/// reply, or of what was seen when it came.
#[derive(Drop)]
pub struct Connection<L> {
    pub link: L,
    pub session: Session,
    pub doing: Doing,
    pub revisions: Revisions,
}
