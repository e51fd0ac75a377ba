//! A portion of an array: what is sent of it.
ghost use Rattle.std.specs.Prelude.{◌≡◌, ◌≢◌, ◌+◌, ◌-◌, ◌<◌, ◌≤◌, ◌^◌, [], length, IsSomeAnd, IsTrue};
ghost use Rattle.dap_model.specs.Box.{box_len, index_at};
ghost use Rattle.dap_model.specs.Xdr.{AreBitsOf};
ghost use Rattle.dap_model.specs.declared.declaration.DapKind.{DapKind};
ghost use Rattle.dap_xdr.specs.Content.{array_in, part_data, FitsArray};
ghost use Rattle.dap_xdr.specs.Datasets.{content_of};
ghost use Rattle.dap_xdr.specs.Portion.{bits_in, data_in, text_in, IsPortion};
ghost use Rattle.dap_xdr.specs.Rows.{PickRows};
ghost use Rattle.dap_xdr.specs.Stretch.{left_at, AreStored, ArePicked};

use crate::find::array_of;
use crate::rows::{Rows, rows_at};
use crate::slabs::{Extent, extent_of};
use dap_model::{Array, DapKind, Sent};
use dap_slab::{advance, put_index};
use fm_dataset::{Column, Dataset};
use std::marker::Model;

// The greatest rank of an array.
pub(crate) const MAX_RANK: usize = 1025;

// A rank that few arrays pass: room for an index list of it is cleared in no time.
pub(crate) const FEW: usize = 8;

// A column, its array, the slabs that are sent of it, and how much they pick.
#[derive(Drop)]
pub(crate) struct Part<'a, 'b> {
    column: Column<'a>,
    sent: &'b Sent,
    array: &'a Array,
    extent: Extent,
}

impl<'a, 'b> Model for Part<'a, 'b> {
    ghost use Rattle.std.specs.Prelude.{◌≡◌};
    ghost use Rattle.dap_xdr.specs.Datasets.{IsColumnOf};
    ghost use Rattle.dap_xdr.specs.Portion.{portion_of, IsPortion, Portion};
    ghost use Rattle.dap_xdr.specs.Stretch.{extent_of};

    ghost Value = { Portion };

    ghost view = { λ n. portion_of n.column n.sent.now n.array.now };

    ghost invariant = { λ n. IsColumnOf n.column n.sent.now
        × IsPortion (portion_of n.column n.sent.now n.array.now)
        × (n.extent ≡ extent_of n.array.now.dims n.sent.now.slabs) };
}

impl<'a, 'b> Part<'a, 'b> {
    // What is sent of a dataset.
    pub fn new(set: &'a Dataset, sent: &'b Sent) -> Part<'a, 'b>
        requires { IsSomeAnd (array_in (content_of set.now).decls sent.now.decl sent.now.part) (FitsArray sent.now) }
        ensures portion { IsPortion result }
        ensures shown { result.shown ≡ set.now }
        ensures sent { result.sent ≡ sent.now }
        ensures data { data_in result ≡ part_data (content_of set.now) sent.now }
    {
        let column = set.column(sent.decl, sent.part);
        let array = array_of(set, sent);
        let extent = extent_of(array.dims.as_slice(), sent.slabs());
        Part {
            column,
            sent,
            array,
            extent,
        }
    }

    // How many dimensions there are.
    pub fn rank(&self) -> usize
        ensures value { result ≡ length self.now.sent.slabs }
        ensures few { result ≤ 1025 }
    {
        self.sent.slabs().len()
    }

    // How many numbers or texts are sent.
    pub fn count(&self) -> u64
        ensures { result ≡ box_len self.now.sent.slabs }
    {
        self.extent.count
    }

    // Their kind.
    pub fn kind(&self) -> DapKind
        ensures { result ≡ self.now.array.kind }
    {
        self.array.kind
    }

    // Whether numbers stand in a file as they are sent: all but texts and numbers of two bytes.
    pub fn stands_as_sent(&self) -> bool
        ensures number { IsTrue result → self.now.array.kind ≢ DapKind.Text }
        ensures same { IsTrue result → self.now.array.kind ≢ DapKind.Int16 }
    {
        match self.kind() {
            DapKind::Text | DapKind::Int16 => false,
            _ => true,
        }
    }

    // Whether numbers may stand in files or in the prototype.
    pub fn is_stored(&self) -> bool {
        self.column.is_stored()
    }

    // Whether there is an array of texts.
    pub fn has_texts(&self) -> bool
        ensures text { IsTrue result → self.now.array.kind ≡ DapKind.Text }
        ensures many { IsTrue result → self.now.sent.slabs ≢ [] }
    {
        if self.rank() == 0 {
            return false;
        }
        match self.kind() {
            DapKind::Text => true,
            _ => false,
        }
    }

    // Writes the index list of an element.
    #[tactic(auto, using(crate::proofs::ExtentLemmas::have_strides))]
    pub fn put_index(&self, element: u64, index: &mut [u64])
        requires element { element < box_len self.now.sent.slabs }
        requires room { length index.old ≡ length self.now.sent.slabs }
        ensures { index.new ≡ index_at self.now.sent.slabs element }
    {
        put_index(self.sent.slabs(), self.count(), element, index);
    }

    // Whether an element is one of those that are sent.
    pub fn has_element(&self, element: u64) -> bool
        ensures within { IsTrue result → element < box_len self.now.sent.slabs }
        ensures all { element < box_len self.now.sent.slabs → IsTrue result }
        ensures few { IsTrue result → element + 1 < 2 ^ 64 }
    {
        element < self.count()
    }

    // Writes the index list of an element, where there is one.
    pub fn begin_at(&self, element: u64, index: &mut [u64])
        requires { length index.old ≡ length self.now.sent.slabs }
        ensures index { element < box_len self.now.sent.slabs → index.new ≡ index_at self.now.sent.slabs element }
        ensures room { length index.new ≡ length index.old }
    {
        if !self.has_element(element) {
            return;
        }
        self.put_index(element, index);
    }

    // Moves the index list of the element before on to this one, where there is one. It takes no division.
    pub fn go_on_to(&self, element: u64, index: &mut [u64])
        requires begun { 1 ≤ element }
        requires before { index.old ≡ index_at self.now.sent.slabs (element - 1) }
        ensures index { element < box_len self.now.sent.slabs → index.new ≡ index_at self.now.sent.slabs element }
        ensures room { length index.new ≡ length index.old }
    {
        if !self.has_element(element) {
            return;
        }
        advance(self.sent.slabs(), index, element);
    }

    // Moves the index list of an element on to a later one, where there is one. It takes no division to the next one.
    pub fn move_on(&self, from: u64, to: u64, index: &mut [u64])
        requires element { from < box_len self.now.sent.slabs }
        requires before { index.old ≡ index_at self.now.sent.slabs from }
        requires room { length index.old ≡ length self.now.sent.slabs }
        ensures index { to < box_len self.now.sent.slabs → index.new ≡ index_at self.now.sent.slabs to }
        ensures room { length index.new ≡ length index.old }
    {
        if to > from && to - from == 1 {
            self.go_on_to(to, index);
            return;
        }
        self.begin_at(to, index);
    }

    // The bits of an element, whose index list stands in `index`.
    pub fn bits(&self, element: u64, index: &[u64]) -> u64
        requires number { self.now.array.kind ≢ DapKind.Text }
        requires element { element < box_len self.now.sent.slabs }
        requires index { index.now ≡ index_at self.now.sent.slabs element }
        ensures exact { result ≡ bits_in self.now index.now }
        ensures width { AreBitsOf self.now.array.kind result }
    {
        self.column.bits(index)
    }

    // How many numbers from an element on stand together in the array.
    fn left(&self, element: u64) -> u64
        requires element { element < box_len self.now.sent.slabs }
        ensures exact { result ≡ left_at self.now.array.dims self.now.sent.slabs element }
        ensures some { 1 ≤ result }
        ensures portion { IsPortion self.now }
    {
        self.extent.unit - element % self.extent.unit
    }

    // Numbers of the array from an element on, as they stand in a file: at most `most`, maybe none. Their index list
    // stands in `index`.
    pub fn stored(&self, element: u64, index: &[u64], most: u64) -> &'a [u8]
        requires number { self.now.array.kind ≢ DapKind.Text }
        requires element { element < box_len self.now.sent.slabs }
        requires index { index.now ≡ index_at self.now.sent.slabs element }
        ensures { AreStored self.now.array (bits_in self.now) index.now most result.now }
    {
        if !self.column.is_stored() {
            return b"".as_slice();
        }
        let lent = self.column.raw(index, most);
        lent
    }

    // Numbers that are sent from an element on, as they stand in a file: at most `most`, maybe none. Their index list
    // stands in `index`.
    pub fn raw(&self, element: u64, index: &[u64], most: u64) -> &'a [u8]
        requires number { self.now.array.kind ≢ DapKind.Text }
        requires element { element < box_len self.now.sent.slabs }
        requires index { index.now ≡ index_at self.now.sent.slabs element }
        ensures { ArePicked self.now.array.kind (bits_in self.now) self.now.sent.slabs element most result.now }
    {
        let most = most.min(self.left(element));
        self.stored(element, index, most)
    }

    // What stands in a file from an element on, and the rows in it that are sent: maybe none. Its index list stands in
    // `index`.
    pub fn rows(&self, element: u64, index: &[u64]) -> (&'a [u8], Rows)
        requires number { self.now.array.kind ≢ DapKind.Text }
        requires element { element < box_len self.now.sent.slabs }
        requires index { index.now ≡ index_at self.now.sent.slabs element }
        ensures { PickRows self.now element result.1 result.0.now }
    {
        let rows = rows_at(self.array.kind, self.extent, element);
        if rows.most == 0 {
            return (b"".as_slice(), rows);
        }
        let stored = self.stored(element, index, u64::MAX);
        (stored, rows)
    }

    // The text of an element, whose index list stands in `index`.
    pub fn text(&self, element: u64, index: &[u64]) -> &'a [u8]
        requires text { self.now.array.kind ≡ DapKind.Text }
        requires element { element < box_len self.now.sent.slabs }
        requires index { index.now ≡ index_at self.now.sent.slabs element }
        ensures exact { result.now ≡ text_in self.now index.now }
        ensures short { length result.now < 2 ^ 32 }
    {
        self.column.text(index)
    }
}
