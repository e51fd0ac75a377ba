//! A file that has no fault of its format.
ghost use Rattle.std.specs.Prelude.{◌≡◌, ◌≤◌, ◌<◌, ◌^◌, IfOk, length};
ghost use Rattle.fm_base.specs.Answer.{AnswersAs};
ghost use Rattle.nc_model.specs.Layout.{record_size};
ghost use Rattle.nc_model.specs.Sound.{sound_header};
ghost use Rattle.fm_model.specs.declared.limit.TheConstants.{MAX_FILE_BYTES};

use fm_base::{Fail, fault_as};
use nc_array::FileView;
use nc_header::read_header;
use nc_layout::lay_out;
use nc_model::FormatFault;
use std::alloc::Global;

/// Reads the header of a file and lays its data out, or says the first fault: those of the header come before those of
/// where the data lies (NetCDF Classic Format Specification).
///
/// It takes memory in proportion to the header alone.
#[tactic(auto, using(nc_layout::proofs::ReadLemmas::headers_read, crate::proofs::SizeLemmas::sizes), unfolding(nc_model::specs::Sound::sound_header))]
pub fn read_sound<'a>(alloc: Global, bytes: &'a [u8]) -> Result<FileView<'a>, Fail<FormatFault>>
    ensures sound { AnswersAs (λ file. file.layout.header) (sound_header bytes.now) result }
    ensures bytes { IfOk result (λ file. file.bytes ≡ bytes.now) }
    ensures len { IfOk result (λ file. file.layout.len ≡ length bytes.now) }

    // One record of a file that may be taken has a size of eight bytes.
    ensures small { length bytes.now ≤ MAX_FILE_BYTES
        → IfOk result (λ file. record_size file.layout.header < 2 ^ 64) }
{
    let header = fault_as(read_header(alloc, bytes), FormatFault::OfHeader)?;
    let layout = fault_as(
        lay_out(alloc, header, bytes.len() as u64),
        FormatFault::OfLayout,
    )?;
    Ok(FileView::new(layout, bytes))
}
