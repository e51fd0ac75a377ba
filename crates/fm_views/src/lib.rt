//! The rows of the views of an edition, and the dataset of a view: of the best time series, also with a least offset,
//! of a run, of a constant offset and of a constant forecast time (THREDDS Data Server, Forecast Model Run
//! Collections).
#![tactic(auto)]

mod counting;
mod dataset;
pub mod laws;
mod runs;
mod view;

pub use counting::row_count;
pub use dataset::shown;
pub use runs::rows_of_run;
pub use view::{NoRows, rows};
