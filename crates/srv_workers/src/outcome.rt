//! The outcome of the workers of a run.

use fm_base::List;
use fm_model::Tally;
use pub_snap::Closed;
use srv_door::DoorReport;
use srv_ingest::{ExpireReport, IngestReport};

/// The outcome of all workers: the report of each, in the order of the devices, the tally at the end, and the number of
/// operations published.
#[derive(Drop)]
pub struct Outcome {
    pub doors: List<DoorReport>,
    pub inboxes: List<IngestReport>,
    pub clocks: List<ExpireReport>,
    pub tally: Tally,
    pub revision: u64,
}

/// The same over several desks, with the end of each.
#[derive(Drop)]
pub struct Outcomes {
    pub doors: List<DoorReport>,
    pub inboxes: List<IngestReport>,
    pub clocks: List<ExpireReport>,
    pub desks: List<Closed>,
}
