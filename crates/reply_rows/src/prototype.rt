//! The prototype of a row.
ghost use Rattle.std.specs.Prelude.{◌≡◌, ◌≤◌, IfOk, IfSome, length};
ghost use Rattle.fm_model.specs.declared.limit.TheConstants.{MAX_FILE_BYTES};
ghost use Rattle.fm_model.specs.Example.{site};
ghost use Rattle.fm_model.specs.Site.{IsPrototype};

use super::collection::described;
use fm_base::{Arc, Bytes, Fail, NoMemory};
use fm_model::{MAX_FILE_BYTES, Proto, ProtoFault, Site};
use fm_proto::read_proto;
use row_text::File;
use std::alloc::Global;

// The collection `gfs`, whose epoch is the beginning of 2020.
fn site(alloc: Global) -> Result<Site, NoMemory>
    ensures { IfOk result (λ made. made ≡ site) }
{
    Ok(Site {
        name: Bytes::copy_of(alloc, b"gfs")?,
        epoch: 1_577_836_800,
        mark: Bytes::copy_of(alloc, b"gfs_")?,
    })
}

// The prototype that some bytes are.
#[tactic(auto, using(crate::proofs::SiteFacts::sites))]
fn proto_of(alloc: Global, bytes: Bytes) -> Result<Proto, Fail<ProtoFault>>
    requires { length bytes ≤ MAX_FILE_BYTES }
    ensures { IfOk result IsPrototype }
{
    read_proto(alloc, bytes, site(alloc)?)
}

/// The prototype that some words describe, of the collection `gfs`. `None` where they describe none, or memory runs
/// out.
pub fn prototype_of(alloc: Global, files: &[File], words: &str) -> Option<Arc<Proto>>
    ensures { IfSome result IsPrototype }
{
    let bytes = described(alloc, files, words)?;
    if bytes.len() as u64 > MAX_FILE_BYTES {
        return None;
    }
    let proto = proto_of(alloc, bytes).ok()?;
    Arc::new(alloc, proto).ok()
}
