//! Copies of what a header has of a variable.
ghost use Rattle.std.specs.Prelude.{◌≡◌, IfOk};

use fm_base::{Bytes, List, NoMemory};
use nc_model::Attr;
use std::alloc::Global;

fn copy_attr(alloc: Global, attr: &Attr) -> Result<Attr, NoMemory>
    ensures { IfOk result (λ copy. copy ≡ attr.now) }
{
    Ok(Attr {
        name: Bytes::copy_of(alloc, attr.name.as_slice())?,
        kind: attr.kind,
        values: Bytes::copy_of(alloc, attr.values.as_slice())?,
    })
}

// Equal attributes.
pub(crate) fn copy_attrs(alloc: Global, attrs: &[Attr]) -> Result<List<Attr>, NoMemory>
    ensures { IfOk result (λ copies. copies ≡ attrs.now) }
{
    let mut copies = List::new(alloc);
    for attr in attrs {
        copies.push(copy_attr(alloc, attr)?)?;
    }
    Ok(copies)
}

// Equal numbers of dimensions.
pub(crate) fn copy_ids(alloc: Global, ids: &[u32]) -> Result<List<u32>, NoMemory>
    ensures { IfOk result (λ copies. copies ≡ ids.now) }
{
    Ok(List {
        items: Vec::from_slice(alloc, ids)?,
    })
}
