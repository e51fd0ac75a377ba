//! What is asked of the two-dimensional view of a collection, and the answer.
ghost use Rattle.std.specs.Prelude.{◌≡◌, ◌<◌, ◌^◌, All, IfOk, length};
ghost use Rattle.fm_base.specs.Answer.{Answers};
ghost use Rattle.fm_twod.specs.Asked as spec;
ghost use Rattle.fm_twod.specs.Parts.{IsSentOf};

use crate::data::data_len;
use crate::grid::Grid;
use crate::lay::lay_out;
use crate::twod::Twod;
use dap_dds::dds_text;
use dap_model::{Projected, Sent};
use dap_reply::{DapFault, MAX_BODY, projected_of};
use fm_base::{Bytes, Fail, List, NoMemory};
use fm_edition::Edition;
use pub_look::Query;
use std::alloc::Global;

/// A question for the two-dimensional view: its structure text, or also the values, of what a constraint picks.
#[derive(Drop)]
pub struct TwodAsk {
    pub with_values: bool,
    pub constraint: Bytes,
}

// The name of the view.
#[tactic(auto, unfolding(crate::specs::Asked::label_of))]
fn label_of(alloc: Global, grid: &Grid) -> Result<Bytes, NoMemory>
    ensures { IfOk result (λ label. label ≡ spec.label_of grid.now.cells.proto) }
{
    let mut label = Bytes::copy_of(alloc, grid.proto().site.name.as_slice())?;
    label.append(b"_fmrc")?;
    Ok(label)
}

// The bytes before the data.
#[tactic(auto, unfolding(crate::specs::Asked::front_of))]
fn front_of(
    alloc: Global,
    with_values: bool,
    grid: &Grid,
    projected: &Projected,
) -> Result<Bytes, NoMemory>
    ensures { IfOk result (λ front. front ≡ spec.front_of with_values grid.now.cells.proto projected.now) }
{
    let label = label_of(alloc, grid)?;
    let mut front = Bytes::new(alloc);
    dds_text(alloc, label.as_slice(), &projected.decls, &mut front)?;
    if !with_values {
        return Ok(front);
    }
    front.append(b"Data:\n")?;
    Ok(front)
}

// The parts whose values are sent.
#[tactic(auto, unfolding(crate::specs::Asked::sent_of))]
fn sent_of(alloc: Global, with_values: bool, projected: Projected) -> List<Sent>
    ensures { result ≡ spec.sent_of with_values projected }
{
    if with_values {
        projected.sent
    } else {
        List::new(alloc)
    }
}

// A body within the limit.
fn within_limit(front: Bytes, grid: Grid, sent: List<Sent>) -> Result<Twod, Fail<DapFault>>
    requires sent { All (IsSentOf grid) sent }
    requires few { length sent < 2 ^ 28 }
    ensures { Answers (spec.within_limit (record { front = front; laid = grid; sent = sent })) result }
{
    let behind = data_len(&grid, sent.as_slice());
    let begin = front.len() as u128;
    let len = behind + begin;
    if len > MAX_BODY as u128 {
        drop(grid);
        return Err(Fail::Fault(DapFault::TooLarge {
            len,
            limit: MAX_BODY,
        }));
    }
    let twod = Twod::new(front, grid, sent, len as u64);
    Ok(twod)
}

// The body that is asked for of a view.
#[tactic(auto, unfolding(crate::specs::Asked::body_of))]
fn body_of(
    alloc: Global,
    with_values: bool,
    grid: Grid,
    projected: Projected,
) -> Result<Twod, Fail<DapFault>>
    requires sent { All (IsSentOf grid) projected.sent }
    requires few { length projected.sent < 2 ^ 28 }
    ensures { Answers (spec.within_limit (spec.body_of with_values grid projected)) result }
{
    match front_of(alloc, with_values, &grid, &projected) {
        Ok(front) => {
            let sent = sent_of(alloc, with_values, projected);
            within_limit(front, grid, sent)
        }
        Err(NoMemory) => {
            drop(grid);
            Err(Fail::NoMemory)
        }
    }
}

// The body that is asked for over an edition.
#[tactic(auto, unfolding(crate::specs::Asked::twod_of))]
fn twod_of(alloc: Global, edition: &Edition, ask: &TwodAsk) -> Result<Twod, Fail<DapFault>>
    ensures { Answers (spec.twod_of edition.now ask.now) result }
{
    let grid = lay_out(alloc, edition)?;
    // What `proto` ensures of the view: few parts are sent, and each is one of the view.
    let _proto = grid.proto();
    match projected_of(alloc, grid.decls(), ask.constraint.as_slice()) {
        Ok(projected) => body_of(alloc, ask.with_values, grid, projected),
        Err(fail) => {
            drop(grid);
            Err(fail)
        }
    }
}

impl Query for TwodAsk {
    type Out = Result<Twod, DapFault>;

    ghost says = { λ ask held revision answer. answer ≡ spec.twod_of held ask };

    fn answer(
        &self,
        alloc: Global,
        edition: &Edition,
        _revision: u64,
    ) -> Result<Result<Twod, DapFault>, NoMemory> {
        match twod_of(alloc, edition, self) {
            Ok(twod) => Ok(Ok(twod)),
            Err(Fail::Fault(fault)) => Ok(Err(fault)),
            Err(Fail::NoMemory) => Err(NoMemory),
        }
    }
}
