//! A collection over a prototype, and what is done to it.
ghost use Rattle.std.specs.Prelude.{◌≡◌, IfSome};
ghost use Rattle.fm_model.specs.Load.{Fits};

use fm_base::{Arc, Bytes, Fail, NoMemory};
use fm_edition::Edition;
use fm_load::load;
use fm_model::{Full, Loaded, MAX_FILE_BYTES, Op, Proto, Which};
use pub_look::{Look, Plain, Query};
use row_text::{File, Said, content};
use std::alloc::Global;

/// The bytes that some words describe. `None` where they describe none, or memory runs out.
pub fn described(alloc: Global, files: &[File], words: &str) -> Option<Bytes> {
    let items = content(alloc, files, words).ok()??;
    Some(Bytes { items })
}

/// The file of a name and some bytes over a prototype. `None` where it isn't taken, or memory runs out.
pub fn loaded(alloc: Global, name: &[u8], bytes: Bytes, proto: &Proto) -> Option<Arc<Loaded>>
    ensures { IfSome result (λ file. Fits file proto.now) }
{
    if bytes.len() as u64 > MAX_FILE_BYTES {
        return None;
    }
    let file = load(alloc, name, bytes, proto).ok()?;
    Arc::new(alloc, file).ok()
}

/// A question whose answer is the collection's prototype.
pub struct ItsProto;

impl Query for ItsProto {
    type Out = Arc<Proto>;

    ghost says = { λ _ held _ out. out ≡ held.proto };

    fn answer(
        &self,
        _alloc: Global,
        edition: &Edition,
        _revision: u64,
    ) -> Result<Arc<Proto>, NoMemory> {
        edition.proto().share()
    }
}

/// Publishes the file of a name and some bytes, and puts its revision, the number of its fault, or what there would be
/// too many of.
pub fn put_file(
    alloc: Global,
    plain: &mut Plain,
    name: &[u8],
    bytes: Bytes,
    out: &mut Said,
) -> Option<()> {
    if bytes.len() as u64 > MAX_FILE_BYTES {
        return None;
    }
    let (proto, _) = plain.ask(alloc, &ItsProto).ok()?;
    let loaded = load(alloc, name, bytes, proto.get());
    drop(proto);
    match loaded {
        Ok(file) => publish(alloc, plain, file, out),
        Err(Fail::Fault(fault)) => {
            out.put_number("refused ", fault.code());
            drop(fault);
            Some(())
        }
        Err(Fail::NoMemory) => None,
    }
}

// Publishes a file, and puts its revision or what there would be too many of.
fn publish(alloc: Global, plain: &mut Plain, file: Loaded, out: &mut Said) -> Option<()>
    requires { Fits file plain.old.proto }
{
    match plain.publish(alloc, Op::Put(Arc::new(alloc, file).ok()?)) {
        Ok(revision) => out.put_number("revision ", revision),
        Err(Fail::Fault(full)) => put_full(full, out),
        Err(Fail::NoMemory) => return None,
    }
    Some(())
}

/// Puts the revision of an operation, or that nothing was done. `None` where memory ran out.
pub fn put_done(done: Result<Option<u64>, NoMemory>, out: &mut Said) -> Option<()> {
    match done {
        Ok(Some(revision)) => out.put_number("revision ", revision),
        Ok(None) => out.put("nothing"),
        Err(NoMemory) => return None,
    }
    Some(())
}

fn put_full(full: Full, out: &mut Said) {
    out.put_number("full: ", full.held);
    out.put(match full.which {
        Which::Files => " files",
        Which::Rows => " rows",
        Which::Size => " bytes",
    });
    out.put_number(" over ", full.limit);
}
