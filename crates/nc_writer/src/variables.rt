//! The variables of a file: the parts that are sent, each name once.
ghost use Rattle.std.specs.Prelude.{◌≡◌, ◌++◌, [], All, IfOk, OnOk};
ghost use Rattle.std.specs.Cmp.Lexicographic.{pointwise};
ghost use Rattle.fm_base.specs.Answer.{Answers};
ghost use Rattle.dap_model.specs.ClauseFaults.{is_same_slab};
ghost use Rattle.dap_project.specs.Checks.{AreCuts};
ghost use Rattle.dap_xdr.specs.Datasets.{content_of};
ghost use Rattle.nc_writer.specs.Facts.{Adds, IsPicked, IsSentPart};
ghost use Rattle.nc_writer.specs.Variables as spec;

use crate::fault::WriteFault;
use crate::text::{characters_name, is_text, width_of};
use crate::variable::Variable;
use dap_model::{Array, Sent, Slab};
use dap_project::cut_dims;
use dap_xdr::array_of;
use fm_base::{Bytes, Fail, List, NoMemory};
use fm_dataset::Dataset;
use nc_model::Dim;
use std::alloc::Global;

// The array of what is sent of a dataset.
fn array_picked<'a>(source: &'a Dataset, sent: &Sent) -> &'a Array
    requires { IsPicked source.now sent.now }
    ensures { IsSentPart source.now sent.now result.now }
{
    // What `proto` ensures of the dataset: it is of a prototype and of rows of its collection.
    let _proto = source.proto();
    array_of(source, sent)
}

// Whether two lists of slabs are the same.
fn are_same(first: &[Slab], second: &[Slab]) -> bool
    ensures { result ≡ pointwise is_same_slab first.now second.now }
{
    first == second
}

// Whether the variable of a name has these slabs, where there is one.
#[tactic(auto, unfolding(crate::specs::Variables::has_slabs))]
fn has_slabs(found: &[Variable], name: &[u8], slabs: &[Slab]) -> Option<bool>
    ensures { result ≡ spec.has_slabs found.now name.now slabs.now }
{
    for variable in found {
        if variable.name.as_slice() == name {
            return Some(are_same(variable.sent.slabs(), slabs));
        }
    }
    None
}

// Adds the dimension of the characters of texts.
#[tactic(auto, unfolding(crate::specs::Variables::characters_dims))]
fn put_characters(
    alloc: Global,
    array: &Array,
    width: u64,
    dims: &mut List<Dim>,
) -> Result<(), NoMemory>
    ensures { OnOk result (dims.new ≡ dims.old ++ spec.characters_dims array.now.name array.now.kind width) }
{
    if is_text(array.kind) {
        let name = characters_name(alloc, array.name.as_slice())?;
        return dims.push(Dim { name, size: width });
    }
    Ok(())
}

// The same part with the same slabs.
fn copy_sent(sent: &Sent) -> Result<Sent, NoMemory>
    ensures { IfOk result (λ copy. copy ≡ sent.now) }
{
    Ok(Sent {
        decl: sent.decl,
        part: sent.part,
        slabs: sent.slabs.share()?,
    })
}

// An array with the slabs that are sent of it, as a variable.
#[tactic(auto, unfolding(crate::specs::Variables::variable_with))]
fn variable_with(
    alloc: Global,
    sent: &Sent,
    array: &Array,
    width: u64,
) -> Result<Variable, NoMemory>
    requires { AreCuts array.now.dims sent.now.slabs }
    ensures { IfOk result (λ variable. variable ≡ spec.variable_with sent.now array.now width) }
{
    let mut dims = cut_dims(alloc, array.dims.as_slice(), sent.slabs())?;
    put_characters(alloc, array, width, &mut dims)?;
    let name = Bytes::copy_of(alloc, array.name.as_slice())?;
    let sent = copy_sent(sent)?;
    Ok(Variable {
        name,
        kind: array.kind,
        dims,
        sent,
        width,
    })
}

// A part that is sent, as a variable.
#[tactic(auto, using(crate::proofs::CutLemmas::cuts), unfolding(crate::specs::Variables::variable_of))]
fn variable_of(
    alloc: Global,
    source: &Dataset,
    sent: &Sent,
    array: &Array,
) -> Result<Variable, NoMemory>
    requires { IsSentPart source.now sent.now array.now }
    ensures { IfOk result (λ variable. variable
        ≡ spec.variable_of (content_of source.now) sent.now array.now) }
{
    variable_with(alloc, sent, array, width_of(source, sent, array))
}

// Adds a part as a variable, unless one of its name stands already.
#[tactic(auto, unfolding(crate::specs::Variables::add_part))]
fn add_part(
    alloc: Global,
    source: &Dataset,
    sent: &Sent,
    array: &Array,
    found: &mut List<Variable>,
) -> Result<(), Fail<WriteFault>>
    requires { IsSentPart source.now sent.now array.now }
    ensures { Adds (spec.add_part (content_of source.now) found.old sent.now array.now) result found.new }
{
    let name = array.name.as_slice();
    match has_slabs(found.as_slice(), name, sent.slabs()) {
        Some(true) => Ok(()),
        Some(false) => Err(Fail::Fault(WriteFault::SlabsDiffer(Bytes::copy_of(alloc, name)?))),
        None => {
            found.push(variable_of(alloc, source, sent, array)?)?;
            Ok(())
        }
    }
}

// Adds what is sent as a variable, unless one of its name stands already.
#[tactic(auto, unfolding(crate::specs::Variables::add_sent))]
fn add_sent(
    alloc: Global,
    source: &Dataset,
    sent: &Sent,
    found: &mut List<Variable>,
) -> Result<(), Fail<WriteFault>>
    requires { IsPicked source.now sent.now }
    ensures { Adds (spec.add_sent (content_of source.now) found.old sent.now) result found.new }
{
    add_part(alloc, source, sent, array_picked(source, sent), found)
}

// The variables of the parts that are sent, or the first name that stands with two lists of slabs.
#[tactic(auto, using(crate::proofs::VariableLemmas::turns))]
pub(crate) fn variables_of(
    alloc: Global,
    source: &Dataset,
    sent: &[Sent],
) -> Result<List<Variable>, Fail<WriteFault>>
    requires { All (IsPicked source.now) sent.now }
    ensures { Answers (spec.variables_from (content_of source.now) [] sent.now) result }
{
    let mut found = List::new(alloc);
    for part in sent {
        add_sent(alloc, source, part, &mut found)?;
    }
    Ok(found)
}
