//! A netCDF file of what is sent of a dataset.
ghost use Rattle.std.specs.Prelude.{◌≡◌, ◌≤◌, ◌<◌, ◌^◌, ◌++◌, All, drop, length, take};
ghost use Rattle.fm_base.specs.Answer.{Answers};
ghost use Rattle.dap_number.specs.Overlay.{IsPut};
ghost use Rattle.nc_writer.specs.Facts.{CanBeWritten, IsVariableOf};
ghost use Rattle.nc_writer.specs.File as spec;

use crate::data::{all_len, put_all};
use crate::dims::{check_names, dims_of};
use crate::fault::WriteFault;
use crate::header::front_of;
use crate::lending::lent_data;
use crate::variable::Variable;
use crate::variables::variables_of;
use dap_model::Projected;
use dap_number::put;
use fm_base::{Bytes, Fail, List};
use fm_dataset::Dataset;
use fm_model::MAX_FILE_BYTES;
use std::alloc::Global;
use std::marker::Model;

/// A netCDF classic file of what is sent of a dataset. It holds the header, and no data: that is read where it stands.
#[derive(Drop)]
pub struct NcFile<'a> {
    source: &'a Dataset,
    front: Bytes,
    variables: List<Variable>,
    len: u64,
}

impl<'a> Model for NcFile<'a> {
    ghost use Rattle.nc_writer.specs.Facts.{IsFile};
    ghost use Rattle.nc_writer.specs.File.{File};

    ghost Value = { File };

    ghost view = { λ f. record { front = f.front; shown = f.source.now; variables = f.variables } };

    ghost invariant = { λ f.
        IsFile (record { front = f.front; shown = f.source.now; variables = f.variables }) f.len };
}

// The file of a header and of variables whose data follows it, within the limit.
fn with_front<'a>(
    source: &'a Dataset,
    front: Bytes,
    variables: List<Variable>,
) -> Result<NcFile<'a>, Fail<WriteFault>>
    requires each { All (IsVariableOf source.now) variables }
    requires few { length variables < 2 ^ 28 }
    ensures { Answers
        (spec.within_limit (record { front = front; shown = source.now; variables = variables })) result }
{
    let behind = all_len(source, variables.as_slice());
    let begin = front.len() as u128;
    let len = behind + begin;
    if len > u128::from(MAX_FILE_BYTES) {
        return Err(Fail::Fault(WriteFault::FileTooLong {
            len,
            limit: MAX_FILE_BYTES,
        }));
    }
    Ok(NcFile {
        source,
        front,
        variables,
        len: len as u64,
    })
}

// Writes the bytes of a header, and of the data of variables behind it, from an offset on, as many as fit.
fn put_file(
    source: &Dataset,
    front: &[u8],
    variables: &[Variable],
    from: u64,
    out: &mut [u8],
) -> usize
    requires each { All (IsVariableOf source.now) variables.now }
    requires small { length (spec.all_data source.now variables.now) < 2 ^ 63 }
    requires from { from < 2 ^ 63 }
    ensures { IsPut (drop from (front.now ++ spec.all_data source.now variables.now)) out.old out.new result }
{
    let count = put(front, from, out);
    let (_, rest) = out.split_at_mut(count);
    count
        + put_all(
            source,
            variables,
            from.saturating_sub(front.len() as u64),
            rest,
        )
}

impl<'a> NcFile<'a> {
    /// The file of what is sent of a dataset, in version 1 or 2 of the format, or the first fault. The variables are
    /// the parts that are sent, in their order, each name once. There are no records. Texts are characters, along one
    /// dimension more that is as long as the longest of them. Attributes are those that the attribute text of the view
    /// has, and the global ones the prototype's.
    ///
    /// It takes memory for the header, and reads each text that is sent once. The caller has parts of the dataset, as
    /// `project` gives them.
    #[tactic(auto, unfolding(crate::specs::File::netcdf_of), using(crate::proofs::VariableLemmas::made))]
    pub fn make(
        alloc: Global,
        source: &'a Dataset,
        projected: &Projected,
        version: u8,
    ) -> Result<NcFile<'a>, Fail<WriteFault>>
        requires { CanBeWritten source.now projected.now.sent }
        ensures { Answers (spec.netcdf_of source.now projected.now.sent version) result }
    {
        // What `proto` ensures of the dataset: its texts are short.
        let _proto = source.proto();
        let variables = variables_of(alloc, source, projected.sent.as_slice())?;
        let dims = dims_of(alloc, variables.as_slice())?;
        check_names(alloc, variables.as_slice(), variables.as_slice())?;
        let front = front_of(
            alloc,
            source,
            version,
            dims.as_slice(),
            variables.as_slice(),
        )?;
        with_front(source, front, variables)
    }

    /// How many bytes the file has.
    pub fn len(&self) -> u64
        ensures { result ≡ length (spec.bytes_of self.now) }
    {
        self.len
    }

    /// Writes the bytes of the file from an offset on over the front of a buffer, as many as fit, and returns how many
    /// that are. It takes no memory. The offset is at most `len`.
    pub fn piece(&self, from: u64, out: &mut [u8]) -> usize
        requires { from ≤ length (spec.bytes_of self.now) }
        ensures { IsPut (drop from (spec.bytes_of self.now)) out.old out.new result }
    {
        put_file(
            self.source,
            self.front.as_slice(),
            self.variables.as_slice(),
            from,
            out,
        )
    }

    /// Lends the bytes from an offset on that stand together in the header or in a file as they are written. They are a
    /// front of the bytes from that offset on, and may be none. It takes no memory.
    pub fn lent(&self, from: u64) -> &[u8]
        ensures { take (length result.now) (drop from (spec.bytes_of self.now)) ≡ result.now }
    {
        let begin = self.front.len() as u64;
        if from < begin {
            let (_, rest) = self.front.as_slice().split_at(from as usize);
            return rest;
        }
        lent_data(self.source, self.variables.as_slice(), from - begin)
    }
}
