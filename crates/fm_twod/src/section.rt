//! What is sent of an array of a view.
ghost use Rattle.std.specs.Prelude.{◌≡◌, ◌≢◌, ◌-◌, ◌+◌, ◌<◌, ◌≤◌, ◌^◌, length, IsTrue};
ghost use Rattle.dap_model.specs.Box.{box_len, index_at};
ghost use Rattle.dap_model.specs.Xdr.{AreBitsOf};
ghost use Rattle.dap_model.specs.declared.declaration.DapKind.{DapKind as Kind};
ghost use Rattle.dap_xdr.specs.Content.{array_in, part_data};
ghost use Rattle.fm_twod.specs.Chosen.{bits_in, chosen_of, data_in, text_in, IsChosen};
ghost use Rattle.fm_twod.specs.Laid.{content_of};
ghost use Rattle.fm_twod.specs.Parts.{IsSentOf};

use crate::count::count_of;
use crate::grid::Grid;
use dap_model::{Array, DapKind, Sent};
use dap_slab::{advance, put_index};
use dap_xdr::array_in;
use std::marker::Model;

// The array of what is sent of a view.
fn array_of<'a>(grid: &'a Grid, sent: &Sent) -> &'a Array
    requires { IsSentOf grid.now sent.now }
    ensures { IsChosen (chosen_of grid.now sent.now result.now) }
{
    // What `proto` ensures of the view: each array is small.
    let _proto = grid.proto();
    array_in(grid.decls(), sent)
}

// A view, what is sent of an array of it, and how many values that is.
#[derive(Drop)]
pub(crate) struct Section<'a, 'b> {
    grid: &'a Grid,
    sent: &'b Sent,
    array: &'a Array,
    count: u64,
}

impl<'a, 'b> Model for Section<'a, 'b> {
    ghost use Rattle.std.specs.Prelude.{◌≡◌};
    ghost use Rattle.dap_model.specs.Box.{box_len};
    ghost use Rattle.fm_twod.specs.Chosen.{chosen_of, Chosen, IsChosen};

    ghost Value = { Chosen };

    ghost view = { λ s. chosen_of s.grid.now s.sent.now s.array.now };

    ghost invariant = { λ s. IsChosen (chosen_of s.grid.now s.sent.now s.array.now)
        × (s.count ≡ box_len s.sent.now.slabs) };
}

impl<'a, 'b> Section<'a, 'b> {
    // What is sent of a view.
    pub fn new(grid: &'a Grid, sent: &'b Sent) -> Section<'a, 'b>
        requires { IsSentOf grid.now sent.now }
        ensures chosen { IsChosen result }
        ensures sent { result.sent ≡ sent.now }
        ensures data { data_in result ≡ part_data (content_of grid.now) sent.now }
    {
        let array = array_of(grid, sent);
        let count = count_of(array.dims.as_slice(), sent.slabs());
        Section {
            grid,
            sent,
            array,
            count,
        }
    }

    // How many dimensions there are.
    pub fn rank(&self) -> usize
        ensures value { result ≡ length self.now.sent.slabs }
        ensures few { result ≤ 1025 }
    {
        self.sent.slabs().len()
    }

    // How many values are sent.
    pub fn count(&self) -> u64
        ensures { result ≡ box_len self.now.sent.slabs }
    {
        self.count
    }

    // Their kind.
    pub fn kind(&self) -> DapKind
        ensures { result ≡ self.now.array.kind }
    {
        self.array.kind
    }

    // Whether an element is one of those that are sent.
    fn has_element(&self, element: u64) -> bool
        ensures within { IsTrue result → element < box_len self.now.sent.slabs }
        ensures all { element < box_len self.now.sent.slabs → IsTrue result }
        ensures few { IsTrue result → element + 1 < 2 ^ 64 }
    {
        element < self.count()
    }

    // Writes the index list of an element.
    #[tactic(auto, using(dap_xdr::proofs::ExtentLemmas::have_strides))]
    fn put_index(&self, element: u64, index: &mut [u64])
        requires element { element < box_len self.now.sent.slabs }
        requires room { length index.old ≡ length self.now.sent.slabs }
        ensures { index.new ≡ index_at self.now.sent.slabs element }
    {
        put_index(self.sent.slabs(), self.count(), element, index);
    }

    // Writes the index list of an element, where there is one.
    pub fn begin_at(&self, element: u64, index: &mut [u64])
        requires { length index.old ≡ length self.now.sent.slabs }
        ensures index { element < box_len self.now.sent.slabs → index.new ≡ index_at self.now.sent.slabs element }
        ensures room { length index.new ≡ length index.old }
    {
        if !self.has_element(element) {
            return;
        }
        self.put_index(element, index);
    }

    // Moves the index list of the element before on to this one, where there is one. It takes no division.
    pub fn go_on_to(&self, element: u64, index: &mut [u64])
        requires begun { 1 ≤ element }
        requires before { index.old ≡ index_at self.now.sent.slabs (element - 1) }
        ensures index { element < box_len self.now.sent.slabs → index.new ≡ index_at self.now.sent.slabs element }
        ensures room { length index.new ≡ length index.old }
    {
        if !self.has_element(element) {
            return;
        }
        advance(self.sent.slabs(), index, element);
    }

    // The bits of an element, whose index list stands in `index`.
    pub fn bits(&self, element: u64, index: &[u64]) -> u64
        requires number { self.now.array.kind ≢ Kind.Text }
        requires element { element < box_len self.now.sent.slabs }
        requires index { index.now ≡ index_at self.now.sent.slabs element }
        ensures exact { result ≡ bits_in self.now index.now }
        ensures width { AreBitsOf self.now.array.kind result }
    {
        self.grid.bits_at(self.sent.decl, self.sent.part, index)
    }

    // The text of an element, whose index list stands in `index`.
    pub fn text(&self, element: u64, index: &[u64]) -> &'a [u8]
        requires text { self.now.array.kind ≡ Kind.Text }
        requires element { element < box_len self.now.sent.slabs }
        requires index { index.now ≡ index_at self.now.sent.slabs element }
        ensures exact { result.now ≡ text_in self.now index.now }
        ensures short { length result.now < 2 ^ 32 }
    {
        let grid = self.grid;
        // What `proto` ensures of the view: each text is short.
        let _proto = grid.proto();
        grid.text_at(self.sent.decl, self.sent.part, index)
    }
}
