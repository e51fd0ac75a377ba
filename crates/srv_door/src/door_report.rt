//! The report on a door that was served.

/// Why serving a door stopped.
#[derive(Clone, Copy)]
pub enum DoorEnd {
    /// The door closed.
    Closed,
    /// The door failed.
    DoorFault,
}

/// The number of links of a door that were served and given back, and of those for which memory ran out. Each count
/// stands still at its greatest number.
#[derive(Clone, Copy)]
pub struct DoorReport {
    pub served: u64,
    pub short: u64,
    pub end: DoorEnd,
}
