//! The rows of a view.
ghost use Rattle.std.specs.Prelude.{◌≡◌, ◌≢◌, [], IfOk};
ghost use Rattle.fm_base.specs.Answer.{OnFault};
ghost use Rattle.fm_model.specs.Rows as views;

use crate::runs::rows_of_run;
use fm_base::{Arc, Fail, NoMemory};
use fm_edition::Edition;
use fm_model::ViewName;
use fm_rows::Rows;
use std::alloc::Global;

/// A view has no rows.
#[derive(Clone, Copy)]
pub struct NoRows;

/// The rows of a view, or that it has none. Those of the best time series are the edition's own, shared; those of
/// another view are made.
pub fn rows(alloc: Global, edition: &Edition, view: &ViewName) -> Result<Arc<Rows>, Fail<NoRows>>
    ensures rows { IfOk result (λ list. list ≡ views.rows edition.now.files view.now) }
    ensures some { IfOk result (λ list. list ≢ []) }
    ensures none { OnFault result (views.rows edition.now.files view.now ≡ []) }
{
    let list = all_rows(alloc, edition, view)?;
    if list.get().is_empty() {
        return Err(Fail::Fault(NoRows));
    }
    Ok(list)
}

// The rows of a view, of which there may be none.
fn all_rows(alloc: Global, edition: &Edition, view: &ViewName) -> Result<Arc<Rows>, NoMemory>
    ensures { IfOk result (λ list. list ≡ views.rows edition.now.files view.now) }
{
    match view {
        ViewName::Best => edition.best_rows(alloc, None),
        ViewName::BestFrom(least) => edition.best_rows(alloc, Some(*least)),
        ViewName::Run(run) => Arc::new(
            alloc,
            Rows::of_page(alloc, rows_of_run(alloc, edition, *run)?)?,
        ),
        ViewName::Offset(seconds) => Arc::new(alloc, edition.offset_rows(alloc, *seconds)?),
        ViewName::Forecast(valid) => Arc::new(alloc, edition.forecast_rows(alloc, *valid)?),
    }
}
