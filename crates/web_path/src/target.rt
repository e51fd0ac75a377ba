//! What a target asks for.

use fm_base::Bytes;
use fm_model::ViewName;

/// What is asked of a dataset: its structure, its attributes, or its structure and data (ESE-RFC-004).
#[derive(Clone, Copy)]
pub enum Service {
    Dds,
    Das,
    Dods,
}

/// A view of the collection, what is asked of it, the constraint, which is decoded, and the label: the last segment of
/// the view's path, as it is written when it is decoded.
#[derive(Drop)]
pub struct Target {
    pub view: ViewName,
    pub service: Service,
    pub constraint: Bytes,
    pub label: Bytes,
}
