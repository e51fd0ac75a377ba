//! What may fail in the folder of an inbox.

use dev_std::Trouble;

// What may fail in the folder of an inbox.
#[derive(Clone, Copy)]
pub(crate) struct Troubles {
    pub listing: Trouble,
    pub moving: Trouble,
    pub reading: Trouble,
}

impl Troubles {
    // Nothing was said yet.
    pub fn none() -> Troubles {
        Troubles {
            listing: Trouble::none(),
            moving: Trouble::none(),
            reading: Trouble::none(),
        }
    }
}
