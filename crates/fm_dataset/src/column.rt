//! A part of a dataset, found once, and its values, in place.
ghost use Rattle.std.specs.Prelude.{◌≡◌, ◌*◌, ℕ, List, IfSome, IsTrue, Some, length, min, slice_get};
ghost use Rattle.nc_model.specs.Kind.{size_of};
ghost use Rattle.dap_model.specs.declared.declaration.Array.{Array};
ghost use Rattle.dap_model.specs.Xdr.{AreBitsOf};
ghost use Rattle.fm_model.specs.Site.{IsPrototype};
ghost use Rattle.fm_dataset.specs.Declarations.{kind_in};
ghost use Rattle.fm_dataset.specs.Kept.{HasBits};
ghost use Rattle.fm_dataset.specs.Rows.{AreRows};
ghost use Rattle.fm_dataset.specs.Values as spec;

use crate::part::{number_at, number_of_part, var_at};
use crate::shown::Dataset;
use crate::time::{axis_bits, offset_bits, run_bits};
use crate::value::{element_of, raw_of, text_of};
use fm_bits::pattern_at;
use fm_model::{Proto, ProtoVar, ViewName};
use fm_rows::Rows;
use std::marker::Model;

/// A part of a dataset's declarations, found once: the variable whose values it has, and where these stand. A clause
/// sees the dataset, the number of the declaration, and that of the part in it.
#[derive(Drop)]
pub struct Column<'a> {
    set: &'a Dataset,
    decl: u32,
    part: u32,
    number: usize,
    slot: usize,
    stored: bool,
}

impl<'a> Model for Column<'a> {
    ghost use Rattle.fm_dataset.specs.Columns.{IsFound, PartOf};

    ghost Value = { PartOf };

    ghost view = { λ c. record { shown = c.set.now; decl = c.decl; part = c.part } };

    ghost invariant = { λ c. IsFound c.set.now c.decl c.part c.number c.slot c.stored };
}

// The bits of a number of a variable.
#[tactic(auto, using(crate::proofs::WidthLemmas::widths), unfolding(crate::specs::Values::var_bits, crate::specs::Declarations::kind_in, dap_model::specs::Xdr::bits_in))]
fn var_bits(
    proto: &Proto,
    rows: &Rows,
    view: &ViewName,
    var: &ProtoVar,
    slot: usize,
    index: &[u64],
) -> u64
    requires { HasBits proto.now rows.now var.now slot index.now }
    ensures value { result ≡ spec.var_bits proto.now rows.now view.now var.now index.now }
    ensures width { AreBitsOf (kind_in proto.now var.now) result }
{
    if var.name.as_slice() == proto.axis.as_slice() {
        return axis_bits(rows, view, index);
    }
    match pattern_at(var.kind, element_of(proto, rows, var, slot, index)) {
        None => 0,
        Some(pattern) => pattern.bits,
    }
}

// Whether the numbers of a part, whose variable has this number, stand in files or in the prototype.
#[tactic(auto, unfolding(crate::specs::Values::is_stored))]
fn is_stored(set: &Dataset, decl: u32, part: u32, number: usize) -> bool
    requires { slice_get set.now.proto.vars number ≡ spec.var_of_part set.now.proto decl part }
    ensures { result ≡ spec.is_stored set.now decl part }
{
    let proto = set.proto().get();
    if decl as usize >= proto.vars.len() {
        return false;
    }
    match var_at(proto.vars.as_slice(), number) {
        None => true,
        Some(var) => var.name.as_slice() != proto.axis.as_slice(),
    }
}

impl Dataset {
    /// A part of a declaration, found once.
    pub fn column(&self, decl: u32, part: u32) -> Column<'_>
        ensures value { result ≡ record { shown = self.now; decl = decl; part = part } }
        ensures prototype { IsPrototype self.now.proto }
        ensures rows { AreRows self.now.proto self.now.rows }
    {
        let number = number_of_part(self.proto.get(), self.coordinates.as_slice(), decl, part);
        let slot = number_at(self.slots.as_slice(), number);
        let stored = is_stored(self, decl, part, number);
        Column {
            set: self,
            decl,
            part,
            number,
            slot,
            stored,
        }
    }
}

impl<'a> Column<'a> {
    /// The bits of the number at an index list, as its kind is sent: two's complement, or IEEE 754. The caller has a
    /// part that isn't of texts, and an index list of it.
    ///
    /// The axis gives the valid time of the row that the first index picks, or its run in the dataset of a constant
    /// forecast time; the runs and the offsets are those of the rows. Another variable along the axis has the element
    /// of the variable of its name in the row's file, at the row's index and the other indices; one without time has
    /// the prototype's.
    #[tactic(auto, unfolding(crate::specs::Values::bits_of))]
    pub fn bits(&self, index: &[u64]) -> u64
        requires { spec.HasNumber self.now.shown self.now.decl self.now.part index.now }
        ensures value { result ≡ spec.bits_of self.now.shown self.now.decl self.now.part index.now }
        ensures width { (array : Array) → spec.array_at self.now.shown self.now.decl self.now.part ≡ Some array
            → AreBitsOf array.kind result }
    {
        let proto = self.set.proto().get();
        let rows = self.set.rows();
        let count = proto.vars.len();
        let decl = self.decl as usize;
        if decl == count {
            return run_bits(rows, index);
        }
        if decl > count {
            return offset_bits(rows, index);
        }
        match var_at(proto.vars.as_slice(), self.number) {
            None => 0,
            Some(var) => var_bits(proto, rows, self.set.view(), var, self.slot, index),
        }
    }

    /// The text at an index list, without the zero bytes at its end, and so of fewer than 2^31 bytes. The caller has a
    /// part of texts, and an index list of it. It lends the bytes where they stand.
    #[tactic(auto, unfolding(crate::specs::Values::text_of_part))]
    pub fn text(&self, index: &[u64]) -> &'a [u8]
        requires { spec.HasText self.now.shown self.now.decl self.now.part index.now }
        ensures value { result.now ≡ spec.text_of_part self.now.shown self.now.decl self.now.part index.now }
    {
        let set = self.set;
        let proto = set.proto().get();
        match var_at(proto.vars.as_slice(), self.number) {
            None => b"".as_slice(),
            Some(var) => text_of(proto, set.rows(), var, self.slot, index),
        }
    }

    /// Whether the numbers of the part stand in files or in the prototype, so that `raw` may be asked for them: those
    /// of the axis, the runs and the offsets don't.
    pub fn is_stored(&self) -> bool
        ensures value { result ≡ spec.is_stored self.now.shown self.now.decl self.now.part }
        ensures asked { IsTrue result → (index : List ℕ) → spec.HasNumber self.now.shown self.now.decl self.now.part
            index → spec.HasStored self.now.shown self.now.decl self.now.part index }
    {
        self.stored
    }

    /// The bytes of elements that follow each other in row-major order from an index list on, as they stand in the
    /// row's file or in the prototype. Their number is the lesser of `most` and the number left in the row, or in all
    /// for a variable without time. The caller has a part of numbers that isn't the axis, the runs or the offsets, and
    /// an index list of it.
    #[tactic(auto, unfolding(crate::specs::Values::raw_of))]
    pub fn raw(&self, index: &[u64], most: u64) -> &'a [u8]
        requires { spec.HasStored self.now.shown self.now.decl self.now.part index.now }
        ensures value { result.now ≡ spec.raw_of self.now.shown self.now.decl self.now.part index.now most }
        ensures len { IfSome (spec.var_of_part self.now.shown.proto self.now.decl self.now.part) (λ var.
            length result.now ≡ size_of var.kind * min most (spec.left_in_row self.now.shown.proto var index.now)) }
    {
        let set = self.set;
        let proto = set.proto().get();
        match var_at(proto.vars.as_slice(), self.number) {
            None => b"".as_slice(),
            Some(var) => raw_of(proto, set.rows(), var, self.slot, index, most),
        }
    }
}
