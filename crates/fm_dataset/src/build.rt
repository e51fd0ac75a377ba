//! Building the dataset of a view.
ghost use Rattle.std.specs.Prelude.{◌≡◌, IfOk};
ghost use Rattle.fm_model.specs.Site.{IsPrototype};
ghost use Rattle.fm_dataset.specs.Rows.{AreRows};

use crate::declare::{Charted, decls_in};
use crate::shown::Dataset;
use crate::table::{coordinate_numbers, slot_numbers};
use fm_base::{Arc, Bytes, NoMemory};
use fm_model::{Proto, ViewName};
use fm_rows::Rows;
use std::alloc::Global;

/// The dataset of a view: its rows over a prototype, under a label. The caller has 1 to 262,144 rows, each of a file
/// that fits the prototype, of at most 3,221,225,472 bytes, with that file's run, an index among its times, and the
/// time at that index as valid time.
///
/// The rows, which others may share, are moved, and the prototype is shared; it takes memory and time for the
/// declarations alone.
pub fn dataset(
    alloc: Global,
    proto: &Arc<Proto>,
    rows: Arc<Rows>,
    view: ViewName,
    label: &[u8],
) -> Result<Dataset, NoMemory>
    requires proto { IsPrototype proto.now }
    requires rows { AreRows proto.now rows }
    ensures { IfOk result (λ d. d ≡ record { proto = proto.now; rows = rows; view = view; label = label.now }) }
{
    let label = Bytes::copy_of(alloc, label)?;
    let coordinates = coordinate_numbers(alloc, proto.get())?;
    let of = Charted {
        proto: proto.get(),
        coordinates: coordinates.as_slice(),
    };
    let decls = decls_in(alloc, &of, rows.get().len() as u64)?;
    let slots = slot_numbers(alloc, proto.get())?;
    let proto = proto.share()?;
    Ok(Dataset {
        proto,
        rows,
        view,
        label,
        decls,
        coordinates,
        slots,
    })
}
