//! The values of a dataset, in place.
ghost use Rattle.std.specs.Prelude.{◌≡◌, ◌*◌, IfSome, Some, length, min};
ghost use Rattle.nc_model.specs.Kind.{size_of};
ghost use Rattle.dap_model.specs.declared.declaration.Array.{Array};
ghost use Rattle.dap_model.specs.Xdr.{AreBitsOf};
ghost use Rattle.fm_dataset.specs.Values as spec;

use crate::shown::Dataset;

impl Dataset {
    /// The bits of the number at an index list of a part of a declaration, as those of `Column`. The caller has a part
    /// that isn't of texts, and an index list of it.
    pub fn bits(&self, decl: u32, part: u32, index: &[u64]) -> u64
        requires { spec.HasNumber self.now decl part index.now }
        ensures value { result ≡ spec.bits_of self.now decl part index.now }
        ensures width { (array : Array) → spec.array_at self.now decl part ≡ Some array
            → AreBitsOf array.kind result }
    {
        let column = self.column(decl, part);
        column.bits(index)
    }

    /// The text at an index list of a part of a declaration, without the zero bytes at its end. The caller has a part
    /// of texts, and an index list of it. It lends the bytes where they stand.
    pub fn text(&self, decl: u32, part: u32, index: &[u64]) -> &[u8]
        requires { spec.HasText self.now decl part index.now }
        ensures { result.now ≡ spec.text_of_part self.now decl part index.now }
    {
        let column = self.column(decl, part);
        column.text(index)
    }

    /// The bytes of elements of a part that follow each other in row-major order from an index list on, as they stand
    /// in the row's file or in the prototype. Their number is the lesser of `most` and the number left in the row, or
    /// in all for a variable without time. The caller has a part of numbers that isn't the axis, the runs or the
    /// offsets, and an index list of it.
    pub fn raw(&self, decl: u32, part: u32, index: &[u64], most: u64) -> &[u8]
        requires { spec.HasStored self.now decl part index.now }
        ensures value { result.now ≡ spec.raw_of self.now decl part index.now most }
        ensures len { IfSome (spec.var_of_part self.now.proto decl part) (λ var. length result.now
            ≡ size_of var.kind * min most (spec.left_in_row self.now.proto var index.now)) }
    {
        let column = self.column(decl, part);
        column.raw(index, most)
    }
}
