//! The parts of a netCDF classic header, as plain data.

use crate::kind::Kind;
use fm_base::{Bytes, List};

/// A dimension. The record dimension has the size 0.
#[derive(Drop)]
pub struct Dim {
    pub name: Bytes,
    pub size: u64,
}

/// An attribute. Its values are the bytes as they stand in the file, without padding.
#[derive(Drop)]
pub struct Attr {
    pub name: Bytes,
    pub kind: Kind,
    pub values: Bytes,
}

/// A variable: the numbers of its dimensions, slowest first, and the offset of its first byte in the file.
#[derive(Drop)]
pub struct NcVar {
    pub name: Bytes,
    pub dims: List<u32>,
    pub attrs: List<Attr>,
    pub kind: Kind,
    pub begin: u64,
}

/// A header: the version is 1 or 2, and there are `numrecs` records.
#[derive(Drop)]
pub struct Header {
    pub version: u8,
    pub numrecs: u32,
    pub dims: List<Dim>,
    pub attrs: List<Attr>,
    pub vars: List<NcVar>,
}
