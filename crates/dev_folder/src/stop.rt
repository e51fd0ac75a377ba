//! One folder of those in which `STOP` may lie.

use dev_std::Stops;

// One folder of a server's.
#[derive(Drop)]
pub(crate) struct FolderStop {
    pub stops: Stops,
    // whether it counts as one that has stopped
    is_stopped: bool,
}

impl FolderStop {
    // One folder more, which goes on.
    pub fn of(stops: Stops) -> FolderStop {
        stops.add();
        FolderStop {
            stops,
            is_stopped: false,
        }
    }

    // Whether it has stopped from now on.
    pub fn set(&mut self, is_stopped: bool) {
        if is_stopped && !self.is_stopped {
            self.stops.stop();
        }
        if self.is_stopped && !is_stopped {
            self.stops.go_on();
        }
        self.is_stopped = is_stopped;
    }
}
