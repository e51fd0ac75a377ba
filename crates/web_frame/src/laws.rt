//! What a reader believes of the definitions, each as the contract of a call that does nothing.

pub mod head;
pub mod item;
