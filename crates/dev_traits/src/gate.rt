//! A gate, at which tests hold a door.

/// Where a door is, by the door's number.
#[derive(Clone, Copy)]
pub enum Place {
    /// A link was accepted, and isn't served yet.
    Accepted(u32),
    /// A link was served and given back.
    Finished(u32),
}

/// A gate that each door passes. Outside tests it does nothing.
pub trait Gate {
    fn pass(&self, place: Place);
}

/// The gate that does nothing.
#[derive(Clone, Copy)]
pub struct OpenGate;

impl Gate for OpenGate {
    fn pass(&self, _place: Place) {}
}
