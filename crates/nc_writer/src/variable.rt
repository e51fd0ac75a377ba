//! A variable of a file that is written.

use dap_model::{DapKind, Sent};
use fm_base::{Bytes, List};
use nc_model::Dim;

/// A part that is sent, as a variable of a file: its dimensions are as long as the slabs leave them. A variable of
/// texts has the characters of each text along one dimension more, its last. `width` is how many these are; it is 1 for
/// numbers.
#[derive(Drop)]
pub struct Variable {
    pub name: Bytes,
    pub kind: DapKind,
    pub dims: List<Dim>,
    pub sent: Sent,
    pub width: u64,
}
