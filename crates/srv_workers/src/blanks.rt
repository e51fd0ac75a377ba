//! Desks that have no names yet.
ghost use Rattle.std.specs.Prelude.{◌≡◌, ◌≤◌, All, IfOk};
ghost use Rattle.fm_model.specs.Site.{IsPrototype};
ghost use Rattle.srv_workers.specs.Opened.{AreBlanks, IsSized};

use fm_base::{Arc, List, NoMemory};
use fm_model::Proto;
use pub_snap::{Blank, prepare};
use std::alloc::Global;

// A blank over a prototype.
fn blank_of(
    alloc: Global,
    proto: &Arc<Proto>,
    doors: usize,
    clocks: usize,
) -> Result<Blank, NoMemory>
    requires proto { IsPrototype proto.now }
    requires few { (1 ≤ doors) × (doors ≤ 16) × (clocks ≤ 1) }
    ensures proto { IfOk result (λ blank. blank.proto ≡ proto.now) }
    ensures sized { IfOk result (IsSized doors clocks) }
{
    let shared = proto.share()?;
    prepare(
        alloc,
        shared,
        (doors + 1 + clocks) as u32,
        (1 + clocks) as u32,
    )
}

// A blank over each prototype, in their order.
pub(crate) fn blanks_of(
    alloc: Global,
    protos: &[Arc<Proto>],
    doors: usize,
    clocks: usize,
) -> Result<List<Blank>, NoMemory>
    requires prototypes { All IsPrototype protos.now }
    requires few { (1 ≤ doors) × (doors ≤ 16) × (clocks ≤ 1) }
    ensures { IfOk result (AreBlanks doors clocks protos.now) }
{
    let mut blanks = List::new(alloc);
    for proto in protos {
        blanks.push(blank_of(alloc, proto, doors, clocks)?)?;
    }
    Ok(blanks)
}
