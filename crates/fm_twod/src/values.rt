//! The values of a two-dimensional view, by run and offset.
ghost use Rattle.std.specs.Prelude.{◌≡◌, ◌≢◌, ◌^◌, ◌<◌, Some, IsSomeAnd, true};
ghost use Rattle.dap_model.specs.declared.declaration.Array.{Array as SpecArray};
ghost use Rattle.dap_model.specs.declared.declaration.DapKind.{DapKind};
ghost use Rattle.dap_model.specs.Xdr.{AreBitsOf};
ghost use Rattle.fm_dataset.specs.Declarations.{kind_in};
ghost use Rattle.fm_dataset.specs.Values.{HasNumberAt, HasTextAt};
ghost use Rattle.dap_xdr.specs.Content.{array_in};
ghost use Rattle.fm_twod.specs.Laid as spec;

use crate::fill::absent_bits;
use crate::grid::Grid;
use crate::lookup::{item_at, number_by};
use crate::row::{row_bits, row_text};
use crate::seconds::{run_bits, seconds_bits};
use fm_model::ProtoVar;

impl Grid {
    // The number of the row at an index list.
    fn number_at(&self, index: &[u64]) -> Option<u64>
        ensures { result ≡ spec.number_at self.now index.now }
    {
        number_by(self.runs.as_slice(), self.offsets.as_slice(), index)
    }

    // The bits of a number of a variable along the axis.
    #[tactic(auto, unfolding(crate::specs::Laid::timed_bits))]
    fn timed_bits(&self, decl: u32, var: &ProtoVar, index: &[u64]) -> u64
        requires has { spec.HasIndex self.now decl var.now index.now }
        requires number { kind_in self.now.cells.proto var.now ≢ DapKind.Text }
        requires timed { var.now.timed ≡ true }
        ensures value { result ≡ spec.timed_bits self.now decl var.now index.now }
        ensures width { AreBitsOf (kind_in self.now.cells.proto var.now) result }
    {
        match self.number_at(index) {
            None => absent_bits(self.proto(), var),
            Some(number) => row_bits(&self.cells, decl, number, index),
        }
    }

    // The bits of a number of a variable.
    #[tactic(auto, unfolding(crate::specs::Laid::var_bits))]
    fn var_bits(&self, decl: u32, var: &ProtoVar, index: &[u64]) -> u64
        requires has { spec.HasIndex self.now decl var.now index.now }
        requires number { kind_in self.now.cells.proto var.now ≢ DapKind.Text }
        ensures value { result ≡ spec.var_bits self.now decl index.now var.now }
        ensures width { AreBitsOf (kind_in self.now.cells.proto var.now) result }
    {
        if var.timed {
            self.timed_bits(decl, var, index)
        } else {
            self.cells.bits(decl, 0, index)
        }
    }

    // The bits of a run or an offset.
    #[tactic(auto, unfolding(crate::specs::Laid::added_bits))]
    fn added_bits(&self, decl: u32, index: &[u64]) -> u64
        ensures value { result ≡ spec.added_bits self.now decl index.now }
        ensures width { result < 2 ^ 32 }
    {
        let first = item_at(index, 0);
        if decl as usize == self.proto().vars.len() {
            run_bits(self.runs.as_slice(), first)
        } else {
            seconds_bits(self.offsets.as_slice(), first)
        }
    }

    // The bits of the number at an index list of a part.
    #[tactic(auto, unfolding(crate::specs::Laid::grid_bits))]
    pub(crate) fn bits_at(&self, decl: u32, part: u32, index: &[u64]) -> u64
        requires { IsSomeAnd (array_in (spec.decls_in self.now) decl part) (HasNumberAt index.now) }
        ensures value { result ≡ spec.grid_bits self.now decl part index.now }
        ensures width { (array : SpecArray) → array_in (spec.decls_in self.now) decl part ≡ Some array
            → AreBitsOf array.kind result }
    {
        match self.var(decl) {
            None => self.added_bits(decl, index),
            Some(var) => self.var_bits(decl, var, index),
        }
    }

    // The text of a variable along the axis, which is empty where a run has none.
    #[tactic(auto, unfolding(crate::specs::Laid::timed_text))]
    fn timed_text(&self, decl: u32, var: &ProtoVar, index: &[u64]) -> &[u8]
        requires has { spec.HasIndex self.now decl var.now index.now }
        requires text { kind_in self.now.cells.proto var.now ≡ DapKind.Text }
        requires timed { var.now.timed ≡ true }
        ensures { result.now ≡ spec.timed_text self.now decl index.now }
    {
        match self.number_at(index) {
            None => b"".as_slice(),
            Some(number) => row_text(&self.cells, decl, number, index),
        }
    }

    // The text of a variable.
    #[tactic(auto, unfolding(crate::specs::Laid::var_text))]
    fn var_text(&self, decl: u32, var: &ProtoVar, index: &[u64]) -> &[u8]
        requires has { spec.HasIndex self.now decl var.now index.now }
        requires text { kind_in self.now.cells.proto var.now ≡ DapKind.Text }
        ensures { result.now ≡ spec.var_text self.now decl index.now var.now }
    {
        if var.timed {
            self.timed_text(decl, var, index)
        } else {
            self.cells.text(decl, 0, index)
        }
    }

    // The text at an index list of a part.
    #[tactic(auto, unfolding(crate::specs::Laid::grid_text))]
    pub(crate) fn text_at(&self, decl: u32, part: u32, index: &[u64]) -> &[u8]
        requires { IsSomeAnd (array_in (spec.decls_in self.now) decl part) (HasTextAt index.now) }
        ensures { result.now ≡ spec.grid_text self.now decl part index.now }
    {
        match self.var(decl) {
            None => b"".as_slice(),
            Some(var) => self.var_text(decl, var, index),
        }
    }
}
