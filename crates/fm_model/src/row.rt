//! The views of a collection and their rows (THREDDS Data Server, Forecast Model Run Collections).

use crate::loaded::Loaded;
use fm_base::Arc;

/// A row of a view: the data of the run's file for the valid time, which stands at `index` among the file's times.
/// Instants are seconds from the collection's epoch.
#[derive(Drop)]
pub struct Row {
    pub valid: i64,
    pub run: i64,
    pub file: Arc<Loaded>,
    pub index: u32,
}

/// The best time series, the best time series with a least offset in seconds, or the dataset of a run, of a constant
/// offset in seconds, or of a constant forecast time.
#[derive(Clone, Copy)]
pub enum ViewName {
    Best,
    BestFrom(i64),
    Run(i64),
    Offset(i64),
    Forecast(i64),
}
