//! Plain values that every other crate speaks of: lists that contracts see as lists, out of memory, and the fields that
//! files and texts are made of.
#![tactic(auto)]

mod decimal;
mod fail;
mod field;
mod list;
mod name;
mod shared;

pub use decimal::put_decimal;
pub use fail::{Fail, NoMemory, fault_as};
pub use field::{be16, be32, be64};
pub use list::{Bytes, List};
pub use name::is_name_byte;
pub use shared::Arc;
