//! Workers.

use srv_door::{DoorEnd, DoorReport};
use srv_ingest::{ExpireReport, IngestEnd, IngestReport};

// A worker: its device, what it looks or publishes with, and its report. A door has a number.
#[derive(Drop)]
pub(crate) enum Worker<D, I, C, E, H> {
    Serve {
        door: D,
        number: u32,
        eyes: E,
        report: DoorReport,
    },
    TakeIn {
        inbox: I,
        hand: H,
        report: IngestReport,
    },
    LetGo {
        clock: C,
        hand: H,
        report: ExpireReport,
    },
}

// The report before a door is served.
pub(crate) const NO_LINKS: DoorReport = DoorReport {
    served: 0,
    short: 0,
    end: DoorEnd::Closed,
};

// The report before anything is taken in.
pub(crate) const NO_NAMES: IngestReport = IngestReport {
    published: 0,
    retracted: 0,
    refused: 0,
    short: 0,
    end: IngestEnd::Done,
};

// The report before any moment.
pub(crate) const NO_MOMENTS: ExpireReport = ExpireReport {
    expired: 0,
    short: 0,
};
