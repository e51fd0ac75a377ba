//! A layout, and what it returns.
ghost use Rattle.std.specs.Prelude.{◌≡◌, ◌+◌, ◌<◌, ◌≤◌, None, length, slice_index};
ghost use Rattle.nc_model.specs.Kind.{size_of};
ghost use Rattle.nc_model.specs.Layout.{shape_of, vsize, record_size, offset_of, layout_fault};

use crate::dims::{part_count_of, size_at};
use crate::elements::{offset_of, part_begin_of};
use fm_base::List;
use nc_model::{Header, NcVar};
use std::marker::Model;

/// A header, and where the elements of its variables lie in a file of a known length. No element that a variable has
/// lies past the file's end.
#[derive(Drop)]
pub struct Layout {
    pub(crate) header: Header,
    pub(crate) len: u64,
    pub(crate) record_size: u128,
    pub(crate) vsizes: List<u64>,
}

impl Model for Layout {
    ghost use Rattle.nc_layout.specs.LaidOut.{LaidOut};
    ghost use Rattle.nc_layout.specs.Kept.{IsLaidOut};

    ghost Value = { LaidOut };

    ghost view = { λ l. record { header = l.header; len = l.len } };

    ghost invariant = { λ l. IsLaidOut l.header l.len l.record_size l.vsizes };
}

impl Layout {
    ghost use Rattle.nc_layout.specs.Faults.{CanLayOut};
    ghost use Rattle.nc_layout.specs.LaidOut.{
      HasDim,
      HasElement,
      HasPart,
      IsVar,
      part_begin,
      part_count,
    };

    /// The header, which has no fault of its layout.
    pub fn header(&self) -> &Header
        ensures exact { result.now ≡ self.now.header }
        ensures sound { CanLayOut self.now.header }
        ensures faultless { layout_fault self.now.header self.now.len ≡ None }
    {
        &self.header
    }

    /// The header alone.
    pub fn into_header(self) -> Header
        ensures { result ≡ self.header }
    {
        self.header
    }

    /// The variable of a number.
    pub fn var(&self, var: u32) -> &NcVar
        requires { var < length self.now.header.vars }
        ensures { IsVar self.now var result.now }
    {
        &self.header.vars.as_slice()[var as usize]
    }

    /// The length of a dimension of a variable, by its index in the variable's shape. That of the records is their
    /// number.
    pub fn size(&self, var: u32, dim: u32) -> u64
        requires { HasDim self.now var dim }
        ensures { (v : _) → IsVar self.now var v
            → result ≡ slice_index (shape_of self.now.header v) dim }
    {
        size_at(&self.header, self.var(var).dims.as_slice()[dim as usize])
    }

    /// The offset in the file of the first byte of an element. All of its bytes lie in the file.
    pub fn offset(&self, var: u32, index: &[u64]) -> u64
        requires { HasElement self.now var index.now }
        ensures exact { (v : _) → IsVar self.now var v
            → result ≡ offset_of self.now.header v index.now }
        ensures within { (v : _) → IsVar self.now var v
            → result + size_of v.kind ≤ self.now.len }
    {
        offset_of(
            &self.header,
            self.len,
            self.record_size,
            self.var(var),
            index,
        )
    }

    /// The number of parts in which a variable's elements lie one after another: one for each record, or one where it
    /// has no records.
    pub fn part_count(&self, var: u32) -> u32
        requires { var < length self.now.header.vars }
        ensures { (v : _) → IsVar self.now var v → result ≡ part_count self.now.header v }
    {
        part_count_of(&self.header, self.var(var))
    }

    /// The bytes that a part takes, without padding.
    pub fn vsize(&self, var: u32) -> u64
        requires { var < length self.now.header.vars }
        ensures { (v : _) → IsVar self.now var v → result ≡ vsize self.now.header v }
    {
        self.vsizes.as_slice()[var as usize]
    }

    /// The offset in the file of the first byte of a part. All of its bytes lie in the file.
    pub fn part_begin(&self, var: u32, k: u32) -> u64
        requires { HasPart self.now var k }
        ensures exact { (v : _) → IsVar self.now var v
            → result ≡ part_begin self.now.header v k }
        ensures within { (v : _) → IsVar self.now var v
            → result + vsize self.now.header v ≤ self.now.len }
    {
        part_begin_of(
            &self.header,
            self.len,
            self.record_size,
            self.var(var),
            u64::from(k),
        )
    }

    /// The bytes that one record takes, over all record variables.
    pub fn recsize(&self) -> u128
        ensures { result ≡ record_size self.now.header }
    {
        self.record_size
    }
}
