//! What is told of a place.

use dev_std::{Event, Tell, tell_of};

/// What tells what becomes of a place.
#[derive(Drop)]
pub struct Voice<T: Tell + Drop> {
    pub tell: T,
    pub place: String,
}

impl<T: Tell + Drop> Voice<T> {
    /// Tells an event.
    pub fn say(&self, event: Event<'_>) {
        tell_of(&self.tell, self.place.as_str(), event);
    }
}
