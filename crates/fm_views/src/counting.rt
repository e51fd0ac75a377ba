//! How many rows a view has.
ghost use Rattle.std.specs.Prelude.{◌≡◌, IfOk, length};
ghost use Rattle.fm_model.specs.Rows as views;

use fm_base::NoMemory;
use fm_edition::Edition;
use fm_model::ViewName;
use std::alloc::Global;

/// The number of rows of a view. It makes none of them.
pub fn row_count(alloc: Global, edition: &Edition, view: &ViewName) -> Result<u64, NoMemory>
    ensures { IfOk result (λ count. count ≡ length (views.rows edition.now.files view.now)) }
{
    let count = match view {
        ViewName::Best => edition.best_count(None),
        ViewName::BestFrom(least) => edition.best_count(Some(*least)),
        ViewName::Run(run) => edition.times_of(alloc, *run)?.len(),
        ViewName::Offset(seconds) => edition.offset_count(*seconds),
        ViewName::Forecast(valid) => edition.forecast_count(*valid),
    };
    Ok(count as u64)
}
