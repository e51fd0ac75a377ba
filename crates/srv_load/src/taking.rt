//! What made files are taken for.
ghost use Rattle.std.specs.Prelude.{◌≡◌, ◌<◌, IfOk};
ghost use Rattle.fm_model.specs.Load.{Fits};
ghost use Rattle.fm_model.specs.Site.{IsPrototype};
ghost use Rattle.srv_load.specs.Made as spec;
ghost use Rattle.srv_load.specs.Name as names;

use crate::name::{EPOCH, made_name};
use fm_base::{Bytes, Fail, NoMemory};
use fm_gen::make_file;
use fm_load::load;
use fm_model::{Loaded, Proto, Site};
use fm_proto::read_proto;
use std::alloc::Global;

// The site of the collection.
fn made_site(alloc: Global) -> Result<Site, NoMemory>
    ensures { IfOk result (λ site. site ≡ names.made_site) }
{
    Ok(Site {
        name: Bytes::copy_of(alloc, b"load")?,
        epoch: i64::from(EPOCH),
        mark: Bytes::copy_of(alloc, b"load_")?,
    })
}

// The prototype that file 0 is.
#[tactic(auto, using(crate::proofs::TakenLemmas::prototypes))]
pub(crate) fn made_proto(alloc: Global, seed: u32) -> Result<Proto, NoMemory>
    ensures value { IfOk result (λ proto. proto ≡ spec.load_proto) }
    ensures sound { IfOk result IsPrototype }
{
    match read_proto(alloc, make_file(alloc, seed, 0)?, made_site(alloc)?) {
        Ok(proto) => Ok(proto),
        Err(Fail::NoMemory) => Err(NoMemory),
        Err(Fail::Fault(_)) => unreachable!(),
    }
}

// The outcome of taking file k.
#[tactic(auto, using(crate::proofs::TakenLemmas::files))]
pub(crate) fn held_file(alloc: Global, proto: &Proto, seed: u32, k: u32) -> Result<Loaded, NoMemory>
    requires few { k < 400 }
    requires proto { proto.now ≡ spec.load_proto }
    ensures value { IfOk result (λ file. file ≡ spec.held_file seed k) }
    ensures fits { IfOk result (λ file. Fits file proto.now) }
{
    let name = made_name(alloc, k)?;
    let taken = load(alloc, name.as_slice(), make_file(alloc, seed, k)?, proto);
    drop(name);
    match taken {
        Ok(file) => Ok(file),
        Err(Fail::NoMemory) => Err(NoMemory),
        Err(Fail::Fault(_)) => unreachable!(),
    }
}
