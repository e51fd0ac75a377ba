//! A file: its bytes, and where the elements of its variables lie in them.
ghost use Rattle.std.specs.Prelude.{◌≡◌, ◌++◌, ◌<◌, None, OnOk, OnErr, length, take};
ghost use Rattle.nc_model.specs.Layout.{element, elements_of, layout_fault};
ghost use Rattle.nc_array.specs.Parts.{part_bytes};
ghost use Rattle.nc_layout.specs.Faults.{CanLayOut};
ghost use Rattle.nc_layout.specs.LaidOut.{HasElement, IsVar, part_count};

use fm_base::{Bytes, NoMemory};
use nc_layout::Layout;
use nc_model::{Header, NcVar};
use std::marker::Model;

/// The bytes of a file and their layout, which is over as many bytes. Clauses see both.
#[derive(Drop)]
pub struct FileView<'a> {
    pub(crate) layout: Layout,
    pub(crate) bytes: &'a [u8],
}

impl<'a> Model for FileView<'a> {
    ghost use Rattle.std.specs.Prelude.{◌≡◌, length};
    ghost use Rattle.nc_array.specs.File.{File};

    ghost Value = { File };

    ghost view = { λ f. record { layout = f.layout; bytes = f.bytes.now } };

    ghost invariant = { λ f. length f.bytes.now ≡ f.layout.len };
}

// Makes room for more bytes.
fn reserve(out: &mut Bytes, more: u64) -> Result<(), NoMemory>
    ensures { out.new ≡ out.old }
{
    out.items.reserve(more as usize)?;
    Ok(())
}

fn cut(out: &mut Bytes, len: usize)
    ensures { out.new ≡ take len out.old }
{
    out.items.truncate(len);
}

impl<'a> FileView<'a> {
    /// A layout over bytes of its length.
    pub fn new(layout: Layout, bytes: &'a [u8]) -> FileView<'a>
        requires { length bytes.now ≡ layout.len }
        ensures { result ≡ record { layout = layout; bytes = bytes.now } }
    {
        FileView { layout, bytes }
    }

    /// The layout.
    pub fn layout(&self) -> &Layout
        ensures exact { result.now ≡ self.now.layout }
        ensures len { length self.now.bytes ≡ self.now.layout.len }
    {
        &self.layout
    }

    /// The header, which has no fault of its layout.
    pub fn header(&self) -> &Header
        ensures exact { result.now ≡ self.now.layout.header }
        ensures sound { CanLayOut self.now.layout.header }
        ensures faultless { layout_fault self.now.layout.header self.now.layout.len ≡ None }
    {
        self.layout.header()
    }

    /// The variable of a number.
    pub fn var(&self, number: u32) -> &NcVar
        requires { number < length self.now.layout.header.vars }
        ensures { IsVar self.now.layout number result.now }
    {
        self.layout.var(number)
    }

    /// The header alone.
    pub fn into_header(self) -> Header
        ensures { result ≡ self.entry.layout.header }
    {
        self.layout.into_header()
    }

    /// The bytes of one element, where they stand in the file.
    #[tactic(auto, unfolding(nc_model::specs::Layout::element))]
    pub fn element(&self, number: u32, index: &[u64]) -> &'a [u8]
        requires { HasElement self.now.layout number index.now }
        ensures { (var : _) → IsVar self.now.layout number var
            → result.now ≡ element self.now.bytes self.now.layout.header var index.now }
    {
        let size = self.layout.var(number).kind.size();
        let offset = self.layout.offset(number, index);
        let (_, rest) = self.bytes.split_at(offset as usize);
        let (found, _) = rest.split_at(usize::from(size));
        found
    }

    /// Adds the bytes of all elements of a variable at the end, in row-major order. An `Err` changes nothing.
    ///
    /// Elements that lie one after another are copied at once: those of one record, or all where there are no records.
    pub fn append_elements(&self, number: u32, out: &mut Bytes) -> Result<(), NoMemory>
        requires { number < length self.now.layout.header.vars }
        ensures ok { OnOk result ((var : _) → IsVar self.now.layout number var
            → out.new ≡ out.old ++ elements_of self.now.bytes self.now.layout.header var) }
        ensures err { OnErr result (out.new ≡ out.old) }
    {
        let before = out.len();
        let len = u64::from(self.layout.part_count(number)).saturating_mul(
            self.layout.vsize(number),
        );
        reserve(out, len)?;
        let added = self.append_parts(number, self.layout.var(number), out);
        if added.is_err() {
            cut(out, before);
        }
        added
    }

    // The bytes of one part.
    #[tactic(auto, using(nc_layout::proofs::ReadLemmas::headers_read))]
    fn part(&self, number: u32, var: &NcVar, k: u32) -> &'a [u8]
        requires var { IsVar self.now.layout number var.now }
        requires part { k < part_count self.now.layout.header var.now }
        ensures { result.now ≡ part_bytes self.now.bytes self.now.layout.header var.now k }
    {
        let (_, rest) = self
            .bytes
            .split_at(self.layout.part_begin(number, k) as usize);
        let (found, _) = rest.split_at(self.layout.vsize(number) as usize);
        found
    }

    // Adds the parts of a variable one after another. After an `Err` some of them may stand at the end.
    fn append_parts(&self, number: u32, var: &NcVar, out: &mut Bytes) -> Result<(), NoMemory>
        requires { IsVar self.now.layout number var.now }
        ensures ok { OnOk result
            (out.new ≡ out.old ++ elements_of self.now.bytes self.now.layout.header var.now) }
        ensures err { OnErr result (take (length out.old) out.new ≡ out.old) }
    {
        for k in 0..self.layout.part_count(number) {
            out.append(self.part(number, var, k))?;
        }
        Ok(())
    }
}
