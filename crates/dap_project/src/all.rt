//! All parts of declarations, whole: what is sent of a dataset where there is no clause.
ghost use Rattle.std.specs.Prelude.{◌≡◌, ◌++◌, ◌∷◌, [], IfOk, Ok, OnOk};
ghost use Rattle.dap_model.specs.Picking.{parts_of};
ghost use Rattle.dap_model.specs.Projection.{projection_of};
ghost use Rattle.dap_project.specs.All as spec;

use crate::part::part_count;
use crate::shared::{part_before, whole_shared};
use dap_model::{Array, Decl, Sent};
use dap_slab::part_of;
use fm_base::{List, NoMemory};
use std::alloc::Global;

// Adds a part of a declaration of `count` parts, by the index of the declaration and its own number.
fn add_whole(
    alloc: Global,
    decl: u32,
    at: usize,
    count: usize,
    array: &Array,
    sent: &mut List<Sent>,
) -> Result<(), NoMemory>
    ensures { OnOk result (sent.new ≡ sent.old ++ spec.whole_part decl at array.now ∷ []) }
{
    let Ok(part) = u32::try_from(at) else {
        return Err(NoMemory);
    };
    let earlier = part_before(sent.as_slice(), count);
    let slabs = whole_shared(alloc, array.dims.as_slice(), earlier)?;
    sent.push(Sent { decl, part, slabs })
}

// Adds all parts of a declaration, by its index.
fn add_all(alloc: Global, index: u32, decl: &Decl, sent: &mut List<Sent>) -> Result<(), NoMemory>
    ensures { OnOk result (sent.new ≡ sent.old ++ spec.parts_from index 0 (parts_of decl.now)) }
{
    let count = part_count(decl);
    for part in 0..count {
        let Some(array) = part_of(decl, part) else {
            return Ok(());
        };
        add_whole(alloc, index, part, count, array, sent)?;
    }
    Ok(())
}

// How many parts declarations have; the greatest number where they have more.
fn parts_in(decls: &[Decl]) -> usize {
    let mut count: usize = 0;
    for decl in decls {
        count = count.saturating_add(part_count(decl));
    }
    count
}

/// All parts of a dataset's declarations, whole. Without a clause these are sent, and the declarations as they stand.
/// Parts of one number of declarations that follow each other share their slabs where these are the same.
///
/// Where the number of a declaration or of a part doesn't fit 32 bits, memory is said to have run out.
#[tactic(auto, using(crate::proofs::AllLemmas::decls))]
pub fn whole_parts(alloc: Global, decls: &[Decl]) -> Result<List<Sent>, NoMemory>
    ensures { IfOk result (λ sent. projection_of decls.now []
        ≡ Ok (record { decls = decls.now; sent = sent })) }
{
    let items = Vec::with_capacity(alloc, parts_in(decls))?;
    let mut sent = List { items };
    for at in 0..decls.len() {
        let Ok(index) = u32::try_from(at) else {
            return Err(NoMemory);
        };
        add_all(alloc, index, &decls[at], &mut sent)?;
    }
    Ok(sent)
}
