//! Worked examples on small files, computed by the check, each as the contract of a call that does nothing.

pub mod axes;
pub mod kept;
pub mod limits;
pub mod loaded_files;
pub mod packing;
pub mod prototype;
pub mod prototype_files;
pub mod sites;
pub mod slots;
pub mod times;
pub mod views;
