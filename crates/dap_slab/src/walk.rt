//! A walk over all index lists that slabs pick.
ghost use Rattle.std.specs.Prelude.{◌≡◌, ◌+◌, ◌-◌, ◌^◌, ◌<◌, ◌≤◌, ◌↔◌, Some, None, map, slice_get, All, IfOk, IfSome, IfNone, IsTrue};
ghost use Rattle.std.specs.Borrow.{sem};
ghost use Rattle.dap_model.specs.Box.{box_len, box_of, index_at};
ghost use Rattle.dap_slab.specs.Walking.{HasIndex};

use crate::count::slab_len;
use dap_model::Slab;
use fm_base::NoMemory;
use std::alloc::Global;
use std::marker::Model;

/// A walk over the index lists that slabs pick, in row-major order: the last index varies fastest. A clause sees its
/// slabs and how many index lists it has given.
#[derive(Drop)]
pub struct Walk {
    slabs: Vec<Slab>,
    len: u64,
    given: u64,
    index: Vec<u64>,
}

impl Model for Walk {
    ghost use Rattle.std.specs.Prelude.{◌≡◌, ◌-◌, ◌≤◌, All};
    ghost use Rattle.dap_model.specs.Box.{box_len, index_at};
    ghost use Rattle.dap_slab.specs.Walking.{HasIndex, Walking};

    ghost Value = { Walking };

    ghost view = { λ walk. record { slabs = walk.slabs.items; given = walk.given } };

    ghost invariant = { λ walk. All HasIndex walk.slabs.items
        × (walk.len ≡ box_len walk.slabs.items)
        × (walk.given ≤ walk.len)
        × (walk.index.items ≡ index_at walk.slabs.items (walk.given - 1)) };
}

// The first index of each slab.
fn starts(alloc: Global, slabs: &[Slab]) -> Result<Vec<u64>, NoMemory>
    ensures { IfOk result (λ index. index.items ≡ map (λ slab. slab.start) slabs.now) }
{
    let index = slabs.iter().map(|slab| slab.start).collect(alloc)?;
    Ok(index)
}

/// Moves an index list on to the next one, where `given` were given, and returns how many then are. Each slab from the
/// last on starts again, up to one that has a further index.
pub fn advance(slabs: &[Slab], index: &mut [u64], given: u64) -> u64
    requires slabs { All HasIndex slabs.now }
    requires index { index.old ≡ index_at slabs.now (given - 1) }
    requires begun { 1 ≤ given }
    requires more { given < box_len slabs.now }
    requires room { given + 1 < 2 ^ 64 }
    ensures index { index.new ≡ index_at slabs.now given }
    ensures given { result ≡ given + 1 }
{
    let mut at = slabs.len();
    while at > 0 {
        at -= 1;
        let slab = slabs[at];
        if slab.stop - index[at] >= slab.stride {
            index[at] += slab.stride;
            break;
        }
        index[at] = slab.start;
    }
    given + 1
}

impl Walk {
    /// A walk that has given nothing yet.
    pub fn new(alloc: Global, slabs: &[Slab]) -> Result<Walk, NoMemory>
        requires index { All HasIndex slabs.now }
        requires few { box_len slabs.now < 2 ^ 64 }
        ensures { IfOk result (λ walk. walk ≡ record { slabs = slabs.now; given = 0 }) }
    {
        let index = starts(alloc, slabs)?;
        Ok(Walk {
            slabs: Vec::from_slice(alloc, slabs)?,
            len: slab_len(slabs) as u64,
            given: 0,
            index,
        })
    }

    ghost use Rattle.dap_slab.specs.Lending.{EndsAs};
    ghost use Rattle.dap_slab.specs.Walking.{after};

    /// Goes on to the next index list, and says whether there was one.
    pub fn step(&mut self) -> bool
        ensures more { IsTrue result ↔ (self.old.given < box_len self.old.slabs) }
        ensures new { self.new ≡ after self.old }
    {
        if self.given == self.len {
            return false;
        }
        if self.given == 0 {
            self.given = 1;
        } else {
            self.given = advance(self.slabs.as_slice(), self.index.as_mut_slice(), self.given);
        }
        true
    }

    /// The index list that was given last.
    pub fn index(&self) -> &[u64]
        requires { 1 ≤ self.now.given }
        ensures { slice_get (box_of self.now.slabs) (self.now.given - 1) ≡ Some result.now }
    {
        self.index.as_slice()
    }

    /// Lends the next index list, or `None` where all were given.
    pub fn next(&mut self) -> Option<&[u64]>
        ensures some { IfSome result (λ index. slice_get (box_of self.old.slabs) self.old.given
            ≡ Some index.now) }
        ensures none { IfNone result (slice_get (box_of self.old.slabs) self.old.given ≡ None) }
        ensures* rest { sem 𝓛 (EndsAs self.entry (after self.old)) }
    {
        if self.step() {
            Some(self.index())
        } else {
            None
        }
    }
}
