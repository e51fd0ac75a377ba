//! A file that comes to the collection.
ghost use Rattle.std.specs.Prelude.{◌≡◌, ◌≤◌, IfErr, IfOk, OnErr, OnOk, length};
ghost use Rattle.fm_model.specs.Load.{Fits};
ghost use Rattle.srv_alone.specs.Reading as spec;
ghost use Rattle.srv_alone.specs.Reading.{Gives, IsEndAtBytes};
ghost use Rattle.srv_alone.specs.Publishing.{EndsPut, published_or_end, put_or_end, Puts};

use crate::end::{End, NO_ROOM};
use crate::reading::{content_of, file_name};
use dev_traits::Files;
use fm_base::{Arc, Bytes, Fail};
use fm_load::load;
use fm_model::{Loaded, MAX_FILE_BYTES, Op, Proto};
use pub_look::Plain;
use std::alloc::Global;

// The file of the collection that the bytes at a path are.
#[tactic(auto, unfolding(crate::specs::Reading::loaded_or_end))]
fn loaded(alloc: Global, proto: &Proto, path: &[u8], bytes: Bytes) -> Result<Loaded, End>
    requires { length bytes ≤ MAX_FILE_BYTES }
    ensures loaded { Gives (λ file. file) result (spec.loaded_or_end proto.now path.now bytes) }
    ensures fits { IfOk result (λ file. Fits file proto.now) }
    ensures end { IfErr result IsEndAtBytes }
{
    match load(alloc, file_name(path), bytes, proto) {
        Ok(file) => Ok(file),
        Err(Fail::NoMemory) => Err(End::NoMemory),
        Err(Fail::Fault(fault)) => Err(End::Refused(fault.code())),
    }
}

// A file comes to the collection, where there is room. An `Err` changes nothing.
#[tactic(auto, unfolding(crate::specs::Publishing::published_or_end))]
fn publish(alloc: Global, plain: &mut Plain, file: Loaded) -> Result<(), End>
    requires { Fits file plain.old.proto }
    ensures published { Gives (λ _. plain.new) result (published_or_end plain.old file) }
    ensures err { OnErr result (plain.new ≡ plain.old) }
    ensures same { plain.new.proto ≡ plain.old.proto }
    ensures end { IfErr result IsEndAtBytes }
{
    let file = Arc::new(alloc, file)?;
    match plain.publish(alloc, Op::Put(file)) {
        Ok(_revision) => Ok(()),
        Err(Fail::NoMemory) => Err(End::NoMemory),
        Err(Fail::Fault(_full)) => Err(End::Refused(NO_ROOM)),
    }
}

// The bytes at a path come to the collection. An `Err` changes nothing.
#[tactic(auto, unfolding(crate::specs::Publishing::put_or_end))]
fn take_bytes(
    alloc: Global,
    proto: &Proto,
    plain: &mut Plain,
    path: &[u8],
    bytes: Bytes,
) -> Result<(), End>
    requires few { length bytes ≤ MAX_FILE_BYTES }
    requires proto { plain.old.proto ≡ proto.now }
    ensures put { Gives (λ _. plain.new) result (put_or_end plain.old path.now bytes) }
    ensures err { OnErr result (plain.new ≡ plain.old) }
    ensures same { plain.new.proto ≡ plain.old.proto }
    ensures end { IfErr result IsEndAtBytes }
{
    let file = loaded(alloc, proto, path, bytes)?;
    publish(alloc, plain, file)
}

// Reads the file at a path, which comes to the collection.
pub(crate) fn put<F: Files>(
    alloc: Global,
    proto: &Proto,
    plain: &mut Plain,
    files: &mut F,
    path: &[u8],
) -> Result<(), End>
    requires { plain.old.proto ≡ proto.now }
    ensures done { OnOk result
        (Puts path.now (F.shown files.old) (F.shown files.new) plain.old plain.new) }
    ensures ends { IfErr result (λ end.
        EndsPut path.now (F.shown files.old) (F.shown files.new) plain.old plain.new end) }
    ensures same { plain.new.proto ≡ plain.old.proto }
{
    let bytes = content_of(alloc, files, path)?;
    take_bytes(alloc, proto, plain, path, bytes)
}
