//! What the body of a data reply says.

use dap_model::Decl;
use fm_base::{Bytes, List};

/// The values of one array, in row-major order: the bits of each number, or each text.
#[derive(Drop)]
pub enum Column {
    Numbers(List<u64>),
    Texts(List<Bytes>),
}

/// The label of a dataset, its declarations, and a column for each array in the order in which they are declared: a
/// Grid's array and then its maps, a Structure's members.
#[derive(Drop)]
pub struct Message {
    pub label: Bytes,
    pub decls: List<Decl>,
    pub columns: List<Column>,
}
