//! Made files are taken into a collection over the prototype that each of them is.
#![tactic(auto)]

pub mod laws;
