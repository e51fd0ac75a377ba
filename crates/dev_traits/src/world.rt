//! All of the outside that a run is given.
ghost use Rattle.std.specs.Prelude.{◌≡◌, []};

use crate::machine::Machine;
use fm_base::List;
use std::alloc::Global;

/// The doors, the inboxes and the clocks of a run.
#[derive(Drop)]
pub struct Devices<D, I, C> {
    pub doors: List<D>,
    pub inboxes: List<I>,
    pub clocks: List<C>,
}

impl<D, I, C> Devices<D, I, C> {
    /// The devices before any is opened.
    pub fn none(alloc: Global) -> Devices<D, I, C>
        ensures { result ≡ record { doors = []; inboxes = []; clocks = [] } }
    {
        Devices {
            doors: List::new(alloc),
            inboxes: List::new(alloc),
            clocks: List::new(alloc),
        }
    }
}

/// The devices that a machine opens.
pub type Opened<M> = Devices<<M as Machine>::D, <M as Machine>::I, <M as Machine>::C>;

/// The outside of a run: the opener of doors, inboxes and clocks, the devices that are open, the files, the link, the
/// sink of reports, the gate that each door passes, and the dialer.
#[derive(Drop)]
pub struct World<M: Machine> {
    pub opener: M,
    pub devices: Opened<M>,
    pub files: M::F,
    pub link: M::L,
    pub sink: M::S,
    pub gate: M::G,
    pub dial: M::N,
}
