//! Headers in words.

use super::faults::{put_header_fault, put_named};
use fm_base::Fail;
use nc_header::read_header;
use nc_model::{Attr, Dim, Header, Kind, NcVar};
use row_text::Said;
use std::alloc::Global;

/// Appends the header of some bytes, or its fault.
pub fn put_header(alloc: Global, bytes: &[u8], out: &mut Said) {
    match read_header(alloc, bytes) {
        Ok(header) => {
            put_fields(&header, out);
            drop(header);
        }
        Err(Fail::NoMemory) => out.run_short(),
        Err(Fail::Fault(fault)) => put_header_fault(fault, out),
    }
}

fn put_fields(header: &Header, out: &mut Said) {
    out.put_number("version ", header.version);
    out.put_number(", ", header.numrecs);
    out.put(" records");
    put_dims(header.dims.as_slice(), out);
    put_attrs(header.attrs.as_slice(), out);
    for var in header.vars.as_slice() {
        put_var(var, out);
    }
}

fn put_var(var: &NcVar, out: &mut Said) {
    put_front(var.name.as_slice(), var.kind, var.dims.as_slice(), out);
    out.put_number(" from ", var.begin);
    put_attrs(var.attrs.as_slice(), out);
}

/// Appends a line for each dimension: its name and its length.
pub fn put_dims(dims: &[Dim], out: &mut Said) {
    for dim in dims {
        put_named("\ndimension ", dim.name.as_slice(), out);
        out.put_number(" ", dim.size);
    }
}

/// Appends a line for each attribute: its name, its kind and its values, characters as text and others in hexadecimal
/// digits.
pub fn put_attrs(attrs: &[Attr], out: &mut Said) {
    for attr in attrs {
        put_attr(attr, out);
    }
}

fn put_attr(attr: &Attr, out: &mut Said) {
    put_named("\nattribute ", attr.name.as_slice(), out);
    out.put(" ");
    out.put(kind_name(attr.kind));
    out.put(" ");
    match attr.kind {
        Kind::Char => out.put_shown(attr.values.as_slice()),
        _ => out.put_hex(attr.values.as_slice()),
    }
}

/// Appends the front of a variable's line: its name, its kind and the numbers of its dimensions.
pub fn put_front(name: &[u8], kind: Kind, dims: &[u32], out: &mut Said) {
    put_named("\nvariable ", name, out);
    out.put(" ");
    out.put(kind_name(kind));
    out.put(" (");
    put_numbers(dims, out);
    out.put(")");
}

fn put_numbers(numbers: &[u32], out: &mut Said) {
    for (index, number) in numbers.iter().enumerate() {
        out.put_number(if index == 0 { "" } else { ", " }, *number);
    }
}

fn kind_name(kind: Kind) -> &'static str {
    match kind {
        Kind::Byte => "Byte",
        Kind::Char => "Char",
        Kind::Short => "Short",
        Kind::Int => "Int",
        Kind::Float => "Float",
        Kind::Double => "Double",
    }
}
