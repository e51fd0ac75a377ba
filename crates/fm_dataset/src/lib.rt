//! The dataset of a view of a collection: its declarations, and its values, which stand where they are in the files
//! (ESE-RFC-004, data model; THREDDS Data Server, Forecast Model Run Collections).
#![tactic(auto)]

mod array;
mod block;
mod build;
mod column;
mod declare;
mod grid;
mod index;
pub mod laws;
mod part;
mod read;
mod shown;
mod table;
mod time;
mod value;
mod zeros;

pub use build::dataset;
pub use column::Column;
pub use declare::decls;
pub use shown::Dataset;
pub use time::bits_of_seconds;
