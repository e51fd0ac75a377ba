//! What a reader believes of the definitions, each as the contract of a call that does nothing.

pub mod elements;
pub mod faults;
pub mod order;
