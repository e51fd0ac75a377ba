//! Reads the prototypes of collections that are served.
ghost use Rattle.std.specs.Prelude.{◌≡◌, ◌<◌, [], All, IfErr, IfOk, IsSomeAnd, OnErr, OnOk, length, slice_get, take};
ghost use Rattle.fm_model.specs.Site.{IsPrototype, IsSite};
ghost use Rattle.srv_alone.specs.Once.{EndsOpening, Opens};
ghost use Rattle.srv_words.specs.Collections.{IsSpec};
ghost use Rattle.srv_serve.specs.Many as spec;

use dev_traits::Files;
use fm_base::{Arc, Bytes, List, NoMemory};
use fm_model::{Proto, Site};
use srv_alone::{End, read_prototype};
use srv_words::Spec;
use std::alloc::Global;

// The same site once more.
fn copy_of(alloc: Global, site: &Site) -> Result<Site, NoMemory>
    ensures { IfOk result (λ copy. copy ≡ site.now) }
{
    Ok(Site {
        name: Bytes::copy_of(alloc, site.name.as_slice())?,
        epoch: site.epoch,
        mark: Bytes::copy_of(alloc, site.mark.as_slice())?,
    })
}

// Reads the prototype of a collection.
pub(crate) fn read_shared<F: Files>(
    alloc: Global,
    files: &mut F,
    site: &Site,
    path: &[u8],
) -> Result<Arc<Proto>, End>
    requires { IsSite site.now }
    ensures opens { IfOk result (λ proto. Opens site.now path.now (F.shown files.old) proto) }
    ensures same { OnOk result (F.shown files.new ≡ F.shown files.old) }
    ensures sound { IfOk result (λ proto. IsPrototype proto) }
    ensures ends { IfErr result (EndsOpening site.now path.now (F.shown files.old) (F.shown files.new)) }
{
    let site = copy_of(alloc, site)?;
    let proto = read_prototype(alloc, files, site, path)?;
    Ok(Arc::new(alloc, proto)?)
}

// Reads the prototype of each collection, in order. Room for all is made first, so each that was read stands in the
// list, also where the next isn't read.
pub(crate) fn read_each<F: Files>(
    alloc: Global,
    files: &mut F,
    specs: &[Spec],
    protos: &mut List<Arc<Proto>>,
) -> Result<(), End>
    requires empty { protos.old ≡ [] }
    requires sound { All IsSpec specs.now }
    requires some { 0 < length specs.now }
    ensures reads { spec.OpensEach (take (length protos.new) specs.now) (F.shown files.old) protos.new }
    ensures sound { All IsPrototype protos.new }
    ensures all { OnOk result (length protos.new ≡ length specs.now) }
    ensures same { OnOk result (F.shown files.new ≡ F.shown files.old) }
    ensures few { OnErr result (length protos.new < length specs.now) }
    ensures ends { IfErr result (λ end. IsSomeAnd (slice_get specs.now (length protos.new))
        (λ found. spec.EndsAt found (F.shown files.old) (F.shown files.new) end)) }
{
    let Ok(()) = protos.items.reserve(specs.len()) else {
        return Err(End::NoMemory);
    };
    for number in 0..specs.len() {
        let spec = &specs[number];
        match read_shared(alloc, files, &spec.site, spec.proto.as_slice()) {
            Ok(proto) => protos.items.push_reserved(proto),
            Err(end) => return Err(end),
        }
    }
    Ok(())
}
