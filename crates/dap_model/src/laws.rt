//! Laws of the definitions, each as the contract of a call that does nothing.

pub mod boxes;
pub mod constraints;
pub mod faults;
pub mod projections;
pub mod values;
