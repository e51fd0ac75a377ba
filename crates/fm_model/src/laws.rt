//! What a reader believes of the definitions, each as the contract of a call that does nothing.

pub mod attribute;
pub mod cell;
pub mod collection;
pub mod header;
pub mod load;
pub mod packing;
pub mod proto;
pub mod rising;
pub mod rows;
