//! Reads the files of a run.
ghost use Rattle.std.specs.Prelude.{◌≡◌, ◌≤◌, ◌==◌, IfErr, IfOk, IfSome, OnOk, length, not};
ghost use Rattle.std.specs.List.{suffix_len};
ghost use Rattle.fm_model.specs.Site.{IsPrototype, IsSite};
ghost use Rattle.srv_alone.specs.Reading as spec;
ghost use Rattle.srv_alone.specs.Reading.{BlamesFiles, Gives, IsEndAtBytes, IsEndAtFile};

use crate::end::End;
use dev_traits::{Files, Found};
use fm_base::{Bytes, Fail};
use fm_model::{MAX_FILE_BYTES, Proto, Site};
use fm_proto::read_proto;
use std::alloc::Global;

// How many bytes of a path follow its last `/`.
fn name_len(path: &[u8]) -> usize
    ensures len { result ≡ suffix_len (λ byte. not (byte == 47)) path.now }
    ensures within { result ≤ length path.now }
{
    path.iter().rev().take_while(|byte| **byte != b'/').count()
}

// The name of a file: what follows the last `/` of its path.
pub(crate) fn file_name(path: &[u8]) -> &[u8]
    ensures { result.now ≡ spec.file_name path.now }
{
    let (_, name) = path.split_at(path.len() - name_len(path));
    name
}

// All the bytes of the file at a path.
#[tactic(auto, unfolding(crate::specs::Reading::file_or_end))]
pub(crate) fn content_of<F: Files>(alloc: Global, files: &mut F, path: &[u8]) -> Result<Bytes, End>
    ensures content { IfSome (F.shown files.old).held (λ held.
        Gives (λ bytes. bytes) result (spec.file_or_end (held path.now))) }
    ensures few { IfOk result (λ bytes. length bytes ≤ MAX_FILE_BYTES) }
    ensures same { (F.shown files.new).held ≡ (F.shown files.old).held }
    ensures cause { BlamesFiles (F.shown files.old).faults (F.shown files.new).faults result }
    ensures end { IfErr result IsEndAtFile }
{
    match files.read(alloc, path, MAX_FILE_BYTES) {
        Ok(Found::Content(bytes)) => Ok(bytes),
        Ok(Found::Absent) => Err(End::NoFile),
        Ok(Found::TooLong(len)) => Err(End::TooLong(len)),
        Err(Fail::NoMemory) => Err(End::NoMemory),
        Err(Fail::Fault(_failed)) => Err(End::FileFault),
    }
}

// The prototype that bytes are.
#[tactic(auto, unfolding(crate::specs::Reading::proto_or_end))]
pub(crate) fn proto_of(alloc: Global, bytes: Bytes, site: Site) -> Result<Proto, End>
    requires site { IsSite site }
    requires few { length bytes ≤ MAX_FILE_BYTES }
    ensures made { Gives (λ proto. proto) result (spec.proto_or_end site bytes) }
    ensures sound { IfOk result IsPrototype }
    ensures end { IfErr result IsEndAtBytes }
{
    match read_proto(alloc, bytes, site) {
        Ok(proto) => Ok(proto),
        Err(Fail::NoMemory) => Err(End::NoMemory),
        Err(Fail::Fault(fault)) => Err(End::Refused(fault.code())),
    }
}
