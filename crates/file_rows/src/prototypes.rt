//! Files as prototypes.

use super::faults::put_proto_fault;
use super::words::{put_attrs, put_dims, put_front};
use fm_base::{Bytes, Fail, NoMemory};
use fm_model::{Proto, ProtoFault, ProtoVar, Site};
use fm_proto::read_proto;
use row_text::Said;
use std::alloc::Global;

/// The beginning of 2020, in Unix seconds.
pub const EPOCH: i64 = 1_577_836_800;

/// The prototype that some bytes are of the collection `gfs`, whose files' names begin with `gfs_`.
pub fn prototype(alloc: Global, bytes: &[u8], epoch: i64) -> Result<Proto, Fail<ProtoFault>> {
    let site = site_of(alloc, epoch)?;
    match Bytes::copy_of(alloc, bytes) {
        Ok(bytes) => read_proto(alloc, bytes, site),
        Err(NoMemory) => {
            drop(site);
            Err(Fail::NoMemory)
        }
    }
}

fn site_of(alloc: Global, epoch: i64) -> Result<Site, NoMemory> {
    Ok(Site {
        name: Bytes::copy_of(alloc, b"gfs")?,
        epoch,
        mark: Bytes::copy_of(alloc, b"gfs_")?,
    })
}

/// Appends what some bytes are as a prototype, or why they are none.
pub fn put_prototype(alloc: Global, bytes: &[u8], out: &mut Said) {
    match prototype(alloc, bytes, EPOCH) {
        Ok(proto) => {
            put_kept(&proto, out);
            drop(proto);
        }
        Err(Fail::NoMemory) => out.run_short(),
        Err(Fail::Fault(fault)) => {
            put_proto_fault(&fault, out);
            drop(fault);
        }
    }
}

fn put_kept(proto: &Proto, out: &mut Said) {
    out.put_shown(proto.site.name.as_slice());
    out.put(" along ");
    out.put_shown(proto.axis.as_slice());
    put_dims(proto.dims.as_slice(), out);
    put_attrs(proto.attrs.as_slice(), out);
    for var in proto.vars.as_slice() {
        put_var(var, out);
    }
}

// A variable along the axis has no elements here, and says so.
fn put_var(var: &ProtoVar, out: &mut Said) {
    put_front(var.name.as_slice(), var.kind, var.dims.as_slice(), out);
    out.put(if var.timed { " along the axis" } else { " " });
    out.put_hex(var.fixed.as_slice());
    put_attrs(var.attrs.as_slice(), out);
}
