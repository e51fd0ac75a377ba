//! The command that checks one file.
ghost use Rattle.std.specs.Prelude.{◌≡◌, IfErr, IfSome};
ghost use Rattle.dev_traits.specs.Cause.{HasCause};
ghost use Rattle.srv_alone.specs.Check as spec;
ghost use Rattle.srv_alone.specs.Report.{Appends};
ghost use Rattle.srv_alone.specs.Reading.{BlamesFiles, Gives, IsEndAtBytes, IsEndAtFile};

use crate::end::End;
use crate::reading::content_of;
use crate::reporting::{put_pieces, report};
use dev_traits::{Failed, Files, Sink};
use fm_base::{Bytes, Fail};
use fm_file::read_sound;
use itoa::Buffer;
use nc_model::Header;
use std::alloc::Global;

// The header of a file that has no fault.
#[tactic(auto, unfolding(crate::specs::Check::sound_or_refusal))]
fn sound_header(alloc: Global, bytes: &[u8]) -> Result<Header, End>
    ensures sound { Gives (λ header. header) result (spec.sound_or_refusal bytes.now) }
    ensures calm { IfErr result IsEndAtBytes }
{
    match read_sound(alloc, bytes) {
        Ok(file) => Ok(file.into_header()),
        Err(Fail::NoMemory) => Err(End::NoMemory),
        Err(Fail::Fault(fault)) => Err(End::Refused(fault.code())),
    }
}

// Reads a file and checks it.
#[tactic(auto, using(crate::proofs::ReadingLemmas::bytes), unfolding(crate::specs::Check::checked_or_end))]
fn check_file<F: Files>(alloc: Global, files: &mut F, path: &[u8]) -> Result<Header, End>
    ensures checked { IfSome (F.shown files.old).held (λ held.
        Gives (λ header. header) result (spec.checked_or_end (held path.now))) }
    ensures same { (F.shown files.new).held ≡ (F.shown files.old).held }
    ensures cause { BlamesFiles (F.shown files.old).faults (F.shown files.new).faults result }
    ensures end { IfErr result IsEndAtFile }
{
    let bytes = content_of(alloc, files, path)?;
    let header = sound_header(alloc, bytes.as_slice());
    drop(bytes);
    header
}

// Writes the line of a file without fault, or its first bytes where the sink fails. It takes no memory.
#[tactic(auto, unfolding(crate::specs::Check::sound_line))]
fn put_sound<S: Sink>(sink: &mut S, header: &Header) -> Result<(), Failed>
    ensures put { Appends (spec.sound_line header.now) (S.shown sink.old).held (S.shown sink.new).held result }
    ensures cause { HasCause (S.shown sink.old).faults (S.shown sink.new).faults result }
{
    let mut version = Buffer::new();
    let mut dims = Buffer::new();
    let mut vars = Buffer::new();
    let mut records = Buffer::new();
    put_pieces(
        sink,
        &[
            b"ok CDF-".as_slice(),
            version.format(header.version).as_bytes(),
            b" dims ".as_slice(),
            dims.format(header.dims.len()).as_bytes(),
            b" vars ".as_slice(),
            vars.format(header.vars.len()).as_bytes(),
            b" records ".as_slice(),
            records.format(header.numrecs).as_bytes(),
            b"\n".as_slice(),
        ],
    )
}

/// Checks the file at a path and writes its line, or reports how the check ended. A line that is cut says that the sink
/// failed.
pub fn check<F: Files, S: Sink>(alloc: Global, files: &mut F, sink: &mut S, path: &[u8]) -> End
    ensures { spec.ChecksFile path.now result
        (F.shown files.old) (F.shown files.new) (S.shown sink.old) (S.shown sink.new) }
{
    let header = match check_file(alloc, files, path) {
        Ok(header) => header,
        Err(end) => {
            report(sink, end, path);
            return end;
        }
    };
    let put = put_sound(sink, &header);
    drop(header);
    match put {
        Ok(()) => End::Done,
        Err(_failed) => End::SinkFault,
    }
}
