//! The dataset of a view of an edition.
ghost use Rattle.fm_base.specs.Answer.{Answers};
ghost use Rattle.fm_views.specs.View.{shown_or_none};

use crate::view::{NoRows, rows};
use fm_base::Fail;
use fm_dataset::{Dataset, dataset};
use fm_edition::Edition;
use fm_model::ViewName;
use std::alloc::Global;

/// The dataset of a view of an edition, or that the view has no rows.
#[tactic(auto, using(crate::proofs::RowFacts::shown_rows))]
pub fn shown(
    alloc: Global,
    edition: &Edition,
    view: &ViewName,
    label: &[u8],
) -> Result<Dataset, Fail<NoRows>>
    ensures { Answers (shown_or_none edition.now view.now label.now) result }
{
    let rows = rows(alloc, edition, view)?;
    let set = dataset(alloc, edition.proto(), rows, *view, label)?;
    Ok(set)
}
