//! Where calls of a link in memory would wait.
ghost use Rattle.std.specs.Prelude.{◌<◌, IfSome};

use fm_base::List;
use std::alloc::Global;

/// Before which bytes calls of one kind would wait. Each pause is made once.
#[derive(Drop)]
pub struct Pauses {
    offsets: List<usize>,
    index: usize,
    is_each: bool,
    is_made: bool,
}

impl Pauses {
    /// No call would wait.
    pub fn none(alloc: Global) -> Pauses {
        Pauses::at(List::new(alloc))
    }

    /// A call would wait before it moves the byte at each of these offsets, which rise. An offset that is repeated is
    /// as many pauses.
    pub fn at(offsets: List<usize>) -> Pauses {
        Pauses {
            offsets,
            index: 0,
            is_each: false,
            is_made: false,
        }
    }

    /// Each second call would wait, the first one too.
    pub fn each(alloc: Global) -> Pauses {
        let mut pauses = Pauses::none(alloc);
        pauses.is_each = true;
        pauses
    }

    // How many bytes a call may move that begins at this offset. `None` says that it would wait.
    pub(crate) fn next(&mut self, offset: usize) -> Option<usize>
        ensures { IfSome result (λ most. 0 < most) }
    {
        if self.is_each && !self.is_made {
            self.is_made = true;
            return None;
        }
        self.is_made = false;
        match self.offsets.as_slice().get(self.index) {
            Some(pause) if *pause <= offset => {
                self.index = self.index.saturating_add(1);
                None
            }
            Some(pause) => Some(*pause - offset),
            None => Some(usize::MAX),
        }
    }
}
