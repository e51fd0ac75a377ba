//! Where the data of the variables along the axis lies.
ghost use Rattle.std.specs.Prelude.{◌≡◌, ◌<◌, ◌^◌, true};
ghost use Rattle.fm_base.specs.Answer.{Answers, AnswersAs};
ghost use Rattle.nc_model.specs.Layout.{record_size};
ghost use Rattle.fm_load.specs.Axis.{IsAxis};
ghost use Rattle.fm_model.specs.LoadVars as spec;
ghost use Rattle.fm_model.specs.Variable.{dim_of_axis, stands_first_alone};
ghost use Rattle.nc_layout.specs.LaidOut.{IsVar};

use crate::axis::{Axis, file_var, unless_alike};
use crate::grid::same_grid;
use crate::lengths::{others, same_lengths};
use crate::packing::same_packing;
use fm_base::{Fail, List};
use fm_file::{dim_of_axis, is_coordinate, is_same_kind, stands_first_alone};
use fm_model::{LoadFault, Proto, ProtoVar, Slot};
use nc_array::FileView;
use nc_layout::names_record_dim;
use nc_model::{Header, NcVar};
use std::alloc::Global;

// Whether a variable along the axis is like the prototype's: the same kind, the file's axis first, the same other
// lengths.
#[tactic(auto, unfolding(fm_model::specs::LoadVars::is_like_timed))]
fn is_like_timed(
    proto: &Proto,
    header: &Header,
    axis: &NcVar,
    wanted: &ProtoVar,
    var: &NcVar,
) -> bool
    ensures { result ≡ spec.is_like_timed proto.now header.now axis.now wanted.now var.now }
{
    is_same_kind(wanted.kind, var.kind)
        && stands_first_alone(dim_of_axis(axis), var.dims.as_slice())
        && same_lengths(
            proto,
            others(wanted.dims.as_slice()),
            header,
            others(var.dims.as_slice()),
        )
}

// Where the data of a variable along the axis lies.
#[tactic(auto, using(crate::proofs::SlotLemmas::slots), unfolding(fm_model::specs::LoadVars::slot_in))]
fn slot_in(file: &FileView<'_>, axis: &Axis<'_>, number: u32, var: &NcVar) -> Slot
    requires small { record_size file.now.layout.header < 2 ^ 64 }
    requires axis { IsAxis file.now.layout axis.now.number axis.now.var.now axis.now.count }
    requires var { IsVar file.now.layout number var.now }
    requires along { stands_first_alone (dim_of_axis axis.now.var.now) var.now.dims ≡ true }
    ensures { result ≡ spec.slot_in file.now.layout.header axis.now.var.now var.now }
{
    let layout = file.layout();
    Slot {
        begin: var.begin,
        step: if names_record_dim(layout.header().dims.as_slice(), dim_of_axis(axis.var)) {
            layout.recsize() as u64
        } else {
            layout.vsize(number) / u64::from(axis.count)
        },
    }
}

// The slot of a variable of the prototype that lies along the axis.
#[tactic(auto, using(crate::proofs::SlotLemmas::slots), unfolding(fm_model::specs::LoadVars::file_slot))]
fn file_slot(
    alloc: Global,
    proto: &Proto,
    file: &FileView<'_>,
    axis: &Axis<'_>,
    wanted: &ProtoVar,
) -> Result<Slot, Fail<LoadFault>>
    requires small { record_size file.now.layout.header < 2 ^ 64 }
    requires axis { IsAxis file.now.layout axis.now.number axis.now.var.now axis.now.count }
    ensures { Answers (spec.file_slot proto.now file.now.layout.header axis.now.var.now wanted.now) result }
{
    let name = wanted.name.as_slice();
    let (number, var) = file_var(alloc, file, name)?;
    let alike = is_like_timed(proto, file.header(), axis.var, wanted, var);
    unless_alike(alloc, alike, name)?;
    same_packing(alloc, wanted, var)?;
    Ok(slot_in(file, axis, number, var))
}

// Whether files are compared in a variable of the prototype: not the axis, and along the axis or a coordinate variable.
#[tactic(auto, unfolding(fm_model::specs::LoadVars::is_compared))]
fn is_compared(proto: &Proto, wanted: &ProtoVar) -> bool
    ensures { result ≡ spec.is_compared proto.now wanted.now }
{
    let name = wanted.name.as_slice();
    name != proto.axis.as_slice()
        && (wanted.timed
            || is_coordinate(
                proto.dims.as_slice(),
                name,
                wanted.kind,
                wanted.dims.as_slice(),
            ))
}

// The slots after one more variable: one where it lies along the axis, none where it is a coordinate variable.
#[tactic(auto, unfolding(fm_model::specs::LoadVars::slots_after))]
fn slots_after(
    alloc: Global,
    proto: &Proto,
    file: &FileView<'_>,
    axis: &Axis<'_>,
    wanted: &ProtoVar,
    found: &mut List<Slot>,
) -> Result<(), Fail<LoadFault>>
    requires small { record_size file.now.layout.header < 2 ^ 64 }
    requires axis { IsAxis file.now.layout axis.now.number axis.now.var.now axis.now.count }
    ensures { AnswersAs (λ _. found.new) (spec.slots_after proto.now file.now.bytes file.now.layout.header
        axis.now.var.now found.old wanted.now) result }
{
    if wanted.timed {
        found.push(file_slot(alloc, proto, file, axis, wanted)?)?;
    } else {
        same_grid(alloc, proto, file, wanted)?;
    }
    Ok(())
}

// The slots of a file, in the prototype's order: one for each variable along the axis but for the axis itself. On the
// way each coordinate variable is compared.
#[tactic(auto, unfolding(fm_model::specs::LoadVars::file_slots, fm_model::specs::LoadVars::steps_from))]
pub(crate) fn file_slots(
    alloc: Global,
    proto: &Proto,
    file: &FileView<'_>,
    axis: &Axis<'_>,
) -> Result<List<Slot>, Fail<LoadFault>>
    requires small { record_size file.now.layout.header < 2 ^ 64 }
    requires axis { IsAxis file.now.layout axis.now.number axis.now.var.now axis.now.count }
    ensures { Answers (spec.file_slots proto.now file.now.bytes file.now.layout.header axis.now.var.now) result }
{
    let mut found = List::new(alloc);
    for wanted in proto.vars.as_slice() {
        if is_compared(proto, wanted) {
            slots_after(alloc, proto, file, axis, wanted, &mut found)?;
        }
    }
    Ok(found)
}
